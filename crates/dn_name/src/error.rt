/// Why no name could be read.
#[derive(Clone, Copy, Debug, PartialEq, Eq)]
pub enum NameFault {
    /// The input ends inside the name.
    Short,
    /// A label has more than 63 bytes.
    LabelTooLong,
    /// The name would pass 255 bytes.
    NameTooLong,
    /// A pointer doesn't lead backwards.
    BadPointer,
    /// A count of bytes or labels differs from what was counted.
    BadCount,
    /// A text has an empty label, a bad escape, or a byte that can't stand there.
    BadText,
}

/// Why no name could be read, and the place of the byte at fault, from 0.
#[derive(Clone, Copy, Debug, PartialEq, Eq)]
pub struct NameError {
    pub kind: NameFault,
    pub place: usize,
}

/// What was to be written doesn't fit into the buffer.
#[derive(Clone, Copy, Debug, PartialEq, Eq)]
pub struct NoRoom;
