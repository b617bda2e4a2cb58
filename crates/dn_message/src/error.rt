ghost use Rattle.std.specs.Prelude.{◌≡◌};
ghost use Rattle.dn_message.specs.declared.error.FormFault.TheVariants as faults;

use dn_io::OutOfMemory;
use dn_name::{NameError, NameFault};

/// Why bytes aren't a message.
#[derive(Clone, Copy, Debug, PartialEq, Eq)]
pub enum FormFault {
    /// The message ends inside a field.
    Short,
    /// A reply is wanted, and the message isn't one.
    NotReply,
    /// A name can't be read.
    Name(NameFault),
    /// There isn't exactly one question.
    QuestionCount,
    /// A section has records in which there may be none.
    SectionCount,
    /// A record's data aren't of its type's form on the wire.
    BadRdata,
    /// A record is a second OPT record (RFC 6891 6.1.1).
    TwoOpts,
    /// Bytes follow the last field.
    Trailing,
}

/// Why bytes aren't a message, and the place of the byte at fault, from 0. The place of a field that the message's end
/// cuts is the message's length.
#[derive(Clone, Copy, Debug, PartialEq, Eq)]
pub struct FormError {
    pub place: usize,
    pub kind: FormFault,
}

/// Why a message wasn't read into memory.
#[derive(Clone, Copy, Debug, PartialEq, Eq)]
pub enum ReadError {
    /// The bytes aren't a message.
    Form(FormError),
    /// Memory wasn't to be had.
    OutOfMemory,
}

impl From<FormError> for ReadError {
    ghost use Rattle.std.specs.Prelude.{◌≡◌};
    ghost use Rattle.dn_message.specs.declared.error.ReadError.TheVariants as errors;

    ghost from_gives = { λ fault error. error ≡ errors.Form fault };

    fn from(fault: FormError) -> Self {
        ReadError::Form(fault)
    }
}

impl From<OutOfMemory> for ReadError {
    ghost use Rattle.std.specs.Prelude.{◌≡◌};
    ghost use Rattle.dn_message.specs.declared.error.ReadError.TheVariants as errors;

    ghost from_gives = { λ _ error. error ≡ errors.OutOfMemory };

    fn from(_refused: OutOfMemory) -> Self {
        ReadError::OutOfMemory
    }
}

// A field that the message's end cuts.
pub(crate) fn cut(bytes: &[u8]) -> FormError {
    FormError {
        place: bytes.len(),
        kind: FormFault::Short,
    }
}

pub(crate) fn name_fault(error: NameError) -> FormError
    ensures { result ≡ record { place = error.place; kind = faults.Name error.kind } }
{
    FormError {
        place: error.place,
        kind: FormFault::Name(error.kind),
    }
}

pub(crate) fn trailing(place: usize) -> FormError {
    FormError {
        place,
        kind: FormFault::Trailing,
    }
}
