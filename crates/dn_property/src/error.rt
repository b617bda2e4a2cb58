use dn_io::OutOfMemory;

/// Why bytes aren't a stored property.
#[derive(Clone, Copy, Debug, PartialEq, Eq)]
pub enum PropertyFault {
    /// The bytes end inside a field, or before the first byte of the tail.
    Short,
    /// The version isn't 1.
    BadVersion,
    /// More than four bytes stand behind the content.
    LongTail,
}

/// Why bytes aren't a stored property, and the place of the byte at fault, from 0. The place of a field that the end cuts is
/// the number of bytes.
#[derive(Clone, Copy, Debug, PartialEq, Eq)]
pub struct PropertyError {
    pub place: usize,
    pub kind: PropertyFault,
}

/// Why a stored property wasn't read into memory.
#[derive(Clone, Copy, Debug, PartialEq, Eq)]
pub enum PropertyReadError {
    /// The bytes aren't a stored property.
    Bad(PropertyError),
    /// Memory wasn't to be had.
    OutOfMemory,
}

impl From<PropertyError> for PropertyReadError {
    ghost use Rattle.std.specs.Prelude.{◌≡◌};
    ghost use Rattle.dn_property.specs.declared.error.PropertyReadError.TheVariants as errors;

    ghost from_gives = { λ fault error. error ≡ errors.Bad fault };

    fn from(fault: PropertyError) -> Self {
        PropertyReadError::Bad(fault)
    }
}

impl From<OutOfMemory> for PropertyReadError {
    ghost use Rattle.std.specs.Prelude.{◌≡◌};
    ghost use Rattle.dn_property.specs.declared.error.PropertyReadError.TheVariants as errors;

    ghost from_gives = { λ _ error. error ≡ errors.OutOfMemory };

    fn from(_refused: OutOfMemory) -> Self {
        PropertyReadError::OutOfMemory
    }
}
