use dn_io::OutOfMemory;

/// Why bytes aren't a stored record.
#[derive(Clone, Copy, Debug, PartialEq, Eq)]
pub enum RecordFault {
    /// They end inside the header.
    Short,
    /// The header says another number of bytes of data than follow it.
    LengthDiffers { said: usize, found: usize },
    /// The version isn't 5.
    BadVersion,
    /// The data aren't of their type's stored form.
    BadData,
}

/// Why bytes aren't a stored record, and the place of the byte at fault, from 0. The place of a header that the end cuts is
/// the number of bytes, and that of data of no stored form is the first byte behind the header.
#[derive(Clone, Copy, Debug, PartialEq, Eq)]
pub struct RecordError {
    pub place: usize,
    pub kind: RecordFault,
}

/// Why a stored record wasn't read into memory.
#[derive(Clone, Copy, Debug, PartialEq, Eq)]
pub enum RecordReadError {
    /// The bytes aren't a stored record.
    Bad(RecordError),
    /// Memory wasn't to be had.
    OutOfMemory,
}

impl From<RecordError> for RecordReadError {
    ghost use Rattle.std.specs.Prelude.{◌≡◌};
    ghost use Rattle.dn_record.specs.declared.error.RecordReadError.TheVariants as errors;

    ghost from_gives = { λ fault error. error ≡ errors.Bad fault };

    fn from(fault: RecordError) -> Self {
        RecordReadError::Bad(fault)
    }
}

impl From<OutOfMemory> for RecordReadError {
    ghost use Rattle.std.specs.Prelude.{◌≡◌};
    ghost use Rattle.dn_record.specs.declared.error.RecordReadError.TheVariants as errors;

    ghost from_gives = { λ _ error. error ≡ errors.OutOfMemory };

    fn from(_refused: OutOfMemory) -> Self {
        RecordReadError::OutOfMemory
    }
}
