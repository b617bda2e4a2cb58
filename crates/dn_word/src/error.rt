ghost use Rattle.std.specs.Prelude.{◌≡◌};
ghost use Rattle.dn_word.specs.declared.error.TextError.TheVariants as errors;

use dn_io::OutOfMemory;
use std::alloc::{AllocError, AllocFailed};

/// Why a text gave nothing.
#[derive(Clone, Copy, Debug, PartialEq, Eq)]
pub enum TextError {
    /// The text isn't of the form.
    BadText,
    /// Memory wasn't to be had.
    OutOfMemory,
}

impl From<OutOfMemory> for TextError {
    ghost from_gives = { λ _ why. why ≡ errors.OutOfMemory };

    fn from(_refused: OutOfMemory) -> Self {
        TextError::OutOfMemory
    }
}

impl From<AllocError> for TextError {
    ghost from_gives = { λ _ why. why ≡ errors.OutOfMemory };

    fn from(_refused: AllocError) -> Self {
        TextError::OutOfMemory
    }
}

impl<T: Drop> From<AllocFailed<T>> for TextError {
    ghost from_gives = { λ _ why. why ≡ errors.OutOfMemory };

    fn from(_refused: AllocFailed<T>) -> Self {
        TextError::OutOfMemory
    }
}
