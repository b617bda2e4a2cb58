ghost use Rattle.std.specs.Prelude.{◌≡◌, ◌++◌, IfOk, OnErr, OnOk};
ghost use Rattle.dn_word.specs.Hex.{bytes_of_hex, hex_text};
ghost use Rattle.dn_word.specs.Print.{as_line};
ghost use Rattle.dn_word.specs.Reading.{Reads};

use crate::error::TextError;
use dn_io::{List, OutOfMemory};
use hex::FromHexError;
use std::alloc::Global;

/// The bytes that a word spells: an even number of hex digits of either case, two a byte (RFC 4648 8).
///
/// # Errors
/// `BadText` exactly where the word isn't that, `OutOfMemory`.
#[tactic(auto, unfolding(crate::specs::Hex::bytes_of_hex))]
pub fn bytes_of_hex(alloc: Global, word: &[u8]) -> Result<List<u8>, TextError>
    ensures { Reads result (bytes_of_hex word.now) }
{
    match hex::decode(alloc, word) {
        Ok(bytes) => Ok(List::of(bytes)),
        Err(FromHexError::OutOfMemory) => Err(TextError::OutOfMemory),
        Err(_) => Err(TextError::BadText),
    }
}

/// The line of a text that has bytes as hex digits in lower case.
///
/// # Errors
/// `OutOfMemory`.
#[tactic(auto, unfolding(crate::specs::Hex::hex_text))]
pub fn hex_line(alloc: Global, bytes: &[u8]) -> Result<List<u8>, OutOfMemory>
    ensures { IfOk result (λ line. line ≡ as_line (hex_text bytes.now)) }
{
    let digits = hex::encode(alloc, bytes)?;
    let mut line = List::from_slice(alloc, digits.as_bytes())?;
    line.extend(b"\n")?;
    Ok(line)
}

/// Prints bytes as hex digits in lower case.
///
/// # Errors
/// `OutOfMemory`; nothing is printed then.
#[tactic(auto, unfolding(crate::specs::Hex::hex_text))]
pub fn push_hex(alloc: Global, out: &mut List<u8>, bytes: &[u8]) -> Result<(), OutOfMemory>
    ensures ok { OnOk result (out.new ≡ out.old ++ hex_text bytes.now) }
    ensures err { OnErr result (out.new ≡ out.old) }
{
    let digits = hex::encode(alloc, bytes)?;
    out.extend(digits.as_bytes())
}
