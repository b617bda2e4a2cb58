//! Names as text.

ghost use Rattle.dn_name.specs.Reading.{byte_in, IsHopeless, IsPart, IsRead, IsUnread};
ghost use Rattle.dn_name.specs.Text.{Begun, byte_text, IsReadBack, is_plain, label_text, name_of_text, OneDigit, Outside, text_of, TwoDigits};
ghost use Rattle.dn_name.specs.Writing.{Prints};
ghost use Rattle.std.specs.Prelude.{◌≡◌, ◌+◌, ◌*◌, ◌≤◌, ◌<◌, ◌++◌, drop, None, IfOk, IfSome, length, MatchOption, OnErr, option_map, take};
ghost use Rattle.std.specs.Result.{result_ok};

use crate::error::{NameError, NameFault};
use crate::name::Name;
use crate::wire::split_label;

// The bytes of one label.
#[derive(Clone, Copy)]
struct Label {
    bytes: [u8; 63],
    len: usize,
}

impl Name {
    /// The name that a text spells. Names are absolute, and one final dot may be written (RFC 1035 5.1).
    ///
    /// # Errors
    /// `BadText`, `LabelTooLong` or `NameTooLong`, exactly where the text spells no name.
    pub fn from_text(text: &[u8]) -> Result<Name, NameError>
        ensures { result_ok result ≡ name_of_text text.now }
    {
        if text == b".".as_slice() {
            return Ok(Name::root());
        }
        let mut name = Name::root();
        let mut rest = text;
        while !rest.is_empty() {
            let (label, behind) = read_label(rest, text.len(), 255 - name.wire_len())?;
            let Some(longer) = name.pushed(&label.bytes[..label.len]) else {
                unreachable!()
            };
            name = longer;
            rest = behind;
        }
        // only an empty text has no label
        if name.wire_len() == 1 {
            return Err(NameError {
                kind: NameFault::BadText,
                place: 0,
            });
        }
        Ok(name)
    }

    /// Writes the name as text at the front of the buffer, and answers how many bytes that takes (RFC 1035 5.1).
    pub fn write_text(&self, out: &mut [u8]) -> usize
        requires { 1020 ≤ length out.old }
        ensures len { result ≡ length (text_of self.now) }
        ensures most { result ≤ 1020 }
        ensures text { out.new ≡ text_of self.now ++ drop result out.old }
    {
        let Some((first, behind)) = split_label(self.wire()) else {
            out[0] = b'.';
            return 1;
        };
        let mut wire = behind;
        let mut at = write_label(first, out, 0);
        while let Some((label, behind)) = split_label(wire) {
            out[at] = b'.';
            at = write_label(label, out, at + 1);
            wire = behind;
        }
        at
    }
}

/// The law that reading the text of a name gives the name: it stands in the contract, and nothing runs.
pub fn text_is_read_back()
    ensures { IsReadBack }
{}

// Reads a label and the dot behind it, if one stands there, at the front of the rest of a text, where the whole text
// has so many bytes, and the label may take so many bytes on the wire, its length included.
fn read_label(text: &[u8], whole: usize, room: usize) -> Result<(Label, &[u8]), NameError>
    requires some { 1 ≤ length text.now }
    requires within { length text.now ≤ whole }
    ensures read { IfOk result (λ found. IsRead room text.now (take found.0.len found.0.bytes) found.1.now) }
    ensures len { IfOk result (λ found. length (take found.0.len found.0.bytes) ≡ found.0.len) }
    ensures unread { OnErr result (IsUnread room text.now) }
{
    let place = whole - text.len();
    let Some((label, rest)) = read_bytes(text) else {
        return Err(NameError {
            kind: NameFault::LabelTooLong,
            place,
        });
    };
    if label.len > 0 && label.len >= room {
        return Err(NameError {
            kind: NameFault::NameTooLong,
            place,
        });
    }
    let Some((end, behind)) = rest.split_first() else {
        return Ok((label, rest));
    };
    if *end == b'.' && label.len > 0 {
        return Ok((label, behind));
    }
    Err(NameError {
        kind: NameFault::BadText,
        place: whole - rest.len(),
    })
}

// The bytes of a label at the front of the text, and the text behind them, which begins with none; none where there
// are more than 63.
fn read_bytes(text: &[u8]) -> Option<(Label, &[u8])>
    ensures part { MatchOption result (IsHopeless text.now) (λ found. IsPart text.now (take found.0.len found.0.bytes) found.1.now) }
    ensures len { IfSome result (λ found. length (take found.0.len found.0.bytes) ≡ found.0.len) }
    ensures stops { IfSome result (λ found. byte_in Outside found.1.now ≡ None) }
{
    let mut label = Label {
        bytes: [0; 63],
        len: 0,
    };
    let mut rest = text;
    while let Some((byte, behind)) = spelled_byte(rest) {
        if label.len == 63 {
            return None;
        }
        label.bytes[label.len] = byte;
        label.len += 1;
        rest = behind;
    }
    Some((label, rest))
}

// The byte of a label at the front of the text, and the text behind it; none where no such byte is spelled, as at a
// dot.
fn spelled_byte(text: &[u8]) -> Option<(u8, &[u8])>
    ensures less { IfSome result (λ found. length found.1.now < length text.now) }
    ensures byte { option_map (λ found. (found.0, found.1.now)) result ≡ byte_in Outside text.now }
{
    let (first, rest) = text.split_first()?;
    match *first {
        b'.' => None,
        b'\\' => escaped_byte(rest),
        0x21..=0x7E => Some((*first, rest)),
        _ => None,
    }
}

// The byte behind a backslash.
fn escaped_byte(text: &[u8]) -> Option<(u8, &[u8])>
    ensures less { IfSome result (λ found. length found.1.now < length text.now) }
    ensures byte { option_map (λ found. (found.0, found.1.now)) result ≡ byte_in Begun text.now }
{
    let (first, rest) = text.split_first()?;
    match *first {
        b'0'..=b'9' => after_one_digit(*first - b'0', rest),
        0x20..=0x7E => Some((*first, rest)),
        _ => None,
    }
}

// The byte whose number began with this digit.
fn after_one_digit(number: u8, text: &[u8]) -> Option<(u8, &[u8])>
    requires { number ≤ 9 }
    ensures less { IfSome result (λ found. length found.1.now < length text.now) }
    ensures byte { option_map (λ found. (found.0, found.1.now)) result ≡ byte_in (OneDigit number) text.now }
{
    let (second, rest) = text.split_first()?;
    match *second {
        b'0'..=b'9' => after_two_digits(10 * number + (*second - b'0'), rest),
        _ => None,
    }
}

// The byte whose number began with these two digits.
fn after_two_digits(number: u8, text: &[u8]) -> Option<(u8, &[u8])>
    requires { number ≤ 99 }
    ensures less { IfSome result (λ found. length found.1.now < length text.now) }
    ensures byte { option_map (λ found. (found.0, found.1.now)) result ≡ byte_in (TwoDigits number) text.now }
{
    let (third, rest) = text.split_first()?;
    match *third {
        b'0'..=b'9' => {
            let whole = 10 * u16::from(number) + u16::from(*third - b'0');
            if whole <= 255 {
                Some((whole as u8, rest))
            } else {
                None
            }
        }
        _ => None,
    }
}

// Writes a byte of a label as text at a place of the buffer, and answers the place behind.
fn write_byte(byte: u8, out: &mut [u8], at: usize) -> usize
    requires { at + 4 ≤ length out.old }
    ensures { Prints at out.old (byte_text byte) result out.new }
{
    if is_plain(byte) {
        out[at] = byte;
        return at + 1;
    }
    out[at] = b'\\';
    out[at + 1] = b'0' + byte / 100;
    out[at + 2] = b'0' + byte / 10 % 10;
    out[at + 3] = b'0' + byte % 10;
    at + 4
}

// Whether the byte is written as it is.
fn is_plain(byte: u8) -> bool
    ensures { result ≡ is_plain byte }
{
    matches!(byte, b'0'..=b'9' | b'A'..=b'Z' | b'a'..=b'z' | b'-' | b'_' | b'*')
}

// Writes a label as text at a place of the buffer, and answers the place behind.
fn write_label(label: &[u8], out: &mut [u8], start: usize) -> usize
    requires { start + 4 * length label.now ≤ length out.old }
    ensures { Prints start out.old (label_text label.now) result out.new }
{
    let mut at = start;
    for byte in label {
        at = write_byte(*byte, out, at);
    }
    at
}
