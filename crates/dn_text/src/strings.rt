ghost use Rattle.std.specs.Prelude.{◌≡◌, ◌++◌, OnOk};
ghost use Rattle.dn_text.specs.Strings.{open_text, string_byte, strings_text};

use dn_io::{List, OutOfMemory};

// A byte of a string, behind a backslash where it would be read otherwise.
fn push_string_byte(out: &mut List<u8>, byte: u8) -> Result<(), OutOfMemory>
    ensures { OnOk result (out.new ≡ out.old ++ string_byte byte) }
{
    match byte {
        b'"' | b'\\' => out.extend(&[b'\\', byte]),
        0x20..=0x7E => out.push(byte),
        _ => out.extend(&[
            b'\\',
            b'0' + byte / 100,
            b'0' + byte / 10 % 10,
            b'0' + byte % 10,
        ]),
    }
}

// What is behind a string's length byte: so many bytes of it, and the strings behind it.
#[tactic(auto, unfolding(crate::specs::Strings::open_text))]
fn push_open(out: &mut List<u8>, len: u8, bytes: &[u8]) -> Result<(), OutOfMemory>
    ensures { OnOk result (out.new ≡ out.old ++ open_text len bytes.now) }
{
    let mut left = len;
    for byte in bytes {
        if left == 0 {
            out.extend(b"\" \"")?;
            left = *byte;
        } else {
            push_string_byte(out, *byte)?;
            left -= 1;
        }
    }
    out.extend(b"\"")
}

/// Prints strings, of which each stands behind its length byte: in double quotes, with a space between each two (RFC 1035
/// 3.3 and 5.1).
#[tactic(auto, unfolding(crate::specs::Strings::strings_text))]
pub(crate) fn push_strings(out: &mut List<u8>, bytes: &[u8]) -> Result<(), OutOfMemory>
    ensures { OnOk result (out.new ≡ out.old ++ strings_text bytes.now) }
{
    let Some((len, rest)) = bytes.split_first() else {
        return Ok(());
    };
    out.extend(b"\"")?;
    push_open(out, *len, rest)
}
