ghost use Rattle.std.specs.Prelude.{◌≡◌};
ghost use Rattle.dn_io.specs.Status.{code_of};

/// How a run of the program ended.
#[derive(Clone, Copy, Debug, PartialEq, Eq)]
pub enum Status {
    /// The input was read to its end, each line of it is valid, and all was written.
    Done,
    /// This line, counted from 1, is the first that isn't valid.
    BadLine(u64),
    /// The words of the command line aren't a command.
    Usage,
    /// A read failed.
    ReadFault,
    /// A write failed.
    WriteFault,
    /// Memory wasn't to be had.
    OutOfMemory,
    /// A line has more than 200,000 bytes, or reaches past byte 2^30 of the input.
    TooLong,
    /// A datagram couldn't be received.
    LinkFault,
}

impl Status {
    /// The exit code of the program. 7 stands for a socket that can't be bound, and is no status.
    pub fn code(&self) -> u8
        ensures { result ≡ code_of self.now }
    {
        match self {
            Status::Done => 0,
            Status::BadLine(_) => 1,
            Status::Usage => 2,
            Status::ReadFault => 3,
            Status::WriteFault => 4,
            Status::OutOfMemory => 5,
            Status::TooLong => 6,
            Status::LinkFault => 8,
        }
    }
}
