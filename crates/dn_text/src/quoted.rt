ghost use Rattle.std.specs.Prelude.{◌≡◌, ◌++◌, length, nat_eq, nat_le, if◌then◌else◌, Some, None, OnOk, []};
ghost use Rattle.dn_rdata.specs.Layout.{text_bytes};
ghost use Rattle.dn_word.specs.Reading.{Reads};
ghost use Rattle.dn_text.specs.Strings.{strings_from, strings_of, turn_at, with_digit};
ghost use Rattle.dn_text.specs.Turns.{Steps, Turns};
ghost use Rattle.dn_text.specs.declared.quoted.Place.TheVariants as places;
ghost use Rattle.dn_text.specs.declared.quoted.Turn.TheVariants as turns;

use dn_io::List;
use dn_word::TextError;
use std::alloc::Global;

// Where a text of strings stands.
#[derive(Clone, Copy)]
pub(crate) enum Place {
    // Before a string.
    Start,
    // In a string.
    Inside,
    // Behind a backslash.
    Escaped,
    // Behind the first digit of an escape, with its value.
    OneDigit(u8),
    // Behind two digits, with their value.
    TwoDigits(u8),
    // Behind a string.
    Behind,
}

// What a byte of the text does.
#[derive(Clone, Copy)]
pub(crate) enum Turn {
    Goes(Place),
    // The string has this byte.
    Spells(u8),
    // The string ends.
    Ends,
}

// The number with one more digit behind it, where it is a byte.
fn with_digit(number: u8, byte: u8) -> Option<u8>
    ensures { result ≡ with_digit number byte }
{
    if !byte.is_ascii_digit() {
        return None;
    }
    let whole = 10 * u16::from(number) + u16::from(byte - b'0');
    u8::try_from(whole).ok()
}

// What a byte does in a string.
#[tactic(auto, unfolding(crate::specs::Strings::turn_at))]
fn turn_inside(byte: u8) -> Option<Turn>
    ensures { result ≡ turn_at places.Inside byte }
{
    match byte {
        b'"' => Some(Turn::Ends),
        b'\\' => Some(Turn::Goes(Place::Escaped)),
        b'\t' | 0x20..=0x7E => Some(Turn::Spells(byte)),
        _ => None,
    }
}

// What a byte does behind a backslash.
#[tactic(auto, unfolding(crate::specs::Strings::turn_at))]
fn turn_escaped(byte: u8) -> Option<Turn>
    ensures { result ≡ turn_at places.Escaped byte }
{
    match byte {
        b'0'..=b'9' => Some(Turn::Goes(Place::OneDigit(byte - b'0'))),
        0x20..=0x7E => Some(Turn::Spells(byte)),
        _ => None,
    }
}

// What a byte does outside of strings: the only one that can stand there goes on to another place.
fn turn_outside(byte: u8, only: u8, next: Place) -> Option<Turn>
    ensures { result ≡ (if nat_eq byte only then Some (turns.Goes next) else None) }
{
    if byte == only {
        Some(Turn::Goes(next))
    } else {
        None
    }
}

// What a byte of the text does at a place.
#[tactic(auto, unfolding(crate::specs::Strings::turn_at))]
fn turn_at(place: Place, byte: u8) -> Option<Turn>
    ensures { result ≡ turn_at place byte }
{
    match place {
        Place::Start => turn_outside(byte, b'"', Place::Inside),
        Place::Inside => turn_inside(byte),
        Place::Escaped => turn_escaped(byte),
        Place::OneDigit(number) => Some(Turn::Goes(Place::TwoDigits(with_digit(number, byte)?))),
        Place::TwoDigits(number) => Some(Turn::Spells(with_digit(number, byte)?)),
        Place::Behind => turn_outside(byte, b' ', Place::Start),
    }
}

// Puts a string behind its length byte; there is none for more than 255 bytes.
fn push_string(out: &mut List<u8>, string: &[u8]) -> Result<(), TextError>
    ensures bytes { OnOk result (out.new ≡ out.old ++ text_bytes string.now) }
    ensures fits { Reads result (if nat_le (length string.now) 255 then Some tt else None) }
{
    let Ok(len) = u8::try_from(string.len()) else {
        return Err(TextError::BadText);
    };
    out.push(len)?;
    out.extend(string)?;
    Ok(())
}

// Takes a turn behind the strings that are done, in the string that is begun, and answers the next place.
fn take_turn(
    alloc: Global,
    turn: Turn,
    done: &mut List<u8>,
    begun: &mut List<u8>,
) -> Result<Place, TextError>
    ensures { Turns result turn done.old begun.old done.new begun.new }
{
    match turn {
        Turn::Goes(place) => Ok(place),
        Turn::Spells(byte) => {
            begun.push(byte)?;
            Ok(Place::Inside)
        }
        Turn::Ends => {
            push_string(done, begun.as_slice())?;
            *begun = List::new(alloc);
            Ok(Place::Behind)
        }
    }
}

// Goes over a byte of the text, and answers the next place.
#[tactic(auto, unfolding(crate::specs::Strings::strings_from))]
fn step(
    alloc: Global,
    place: Place,
    byte: u8,
    done: &mut List<u8>,
    begun: &mut List<u8>,
) -> Result<Place, TextError>
    ensures { Steps result place byte done.old begun.old done.new begun.new }
{
    match turn_at(place, byte) {
        Some(turn) => take_turn(alloc, turn, done, begun),
        None => Err(TextError::BadText),
    }
}

// What was read where a text ends.
#[tactic(auto, unfolding(crate::specs::Strings::strings_from))]
fn ended(place: Place, done: List<u8>, begun: List<u8>) -> Result<List<u8>, TextError>
    ensures { Reads result (strings_from place done begun []) }
{
    match place {
        Place::Behind => Ok(done),
        _ => Err(TextError::BadText),
    }
}

/// The strings that a text spells, each behind its length byte: one or more, in double quotes, with a space between each two
/// (RFC 1035 3.3 and 5.1).
///
/// # Errors
/// `BadText` exactly where it spells none, `OutOfMemory`.
#[tactic(auto, unfolding(crate::specs::Strings::strings_of))]
pub(crate) fn strings_of(alloc: Global, text: &[u8]) -> Result<List<u8>, TextError>
    ensures { Reads result (strings_of text.now) }
{
    let mut done = List::new(alloc);
    let mut begun = List::new(alloc);
    let mut place = Place::Start;
    for byte in text {
        place = step(alloc, place, *byte, &mut done, &mut begun)?;
    }
    ended(place, done, begun)
}
