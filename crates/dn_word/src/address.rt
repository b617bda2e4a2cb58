ghost use Rattle.std.specs.Prelude.{◌≡◌, [], ◌∷◌, ◌++◌, false, length, nat_eq, position, IfOk, MatchOption, OnErr, OnOk};
ghost use Rattle.std.specs.List.{slice_split};
ghost use Rattle.dn_word.specs.Addresses.{address_of, all_within, decimals_behind, dotted_decimals};
ghost use Rattle.dn_word.specs.Numbers.{number_within};

use crate::number::number_within;
use crate::print::push_number;
use dn_io::{List, OutOfMemory};
use std::alloc::Global;

// Where the separator stands first.
fn place_of(word: &[u8], separator: u8) -> Option<usize>
    ensures { result ≡ position (λ byte. nat_eq byte separator) word.now }
{
    word.iter().position(|byte| *byte == separator)
}

/// What stands before and behind the first separator of a word, where it has one: the parts of `IP:PORT` and of a
/// dotted quad are cut off it one after another.
#[tactic(auto, using(crate::proofs::AddressLemmas::cut_none, crate::proofs::AddressLemmas::cut_some))]
pub fn cut(word: &[u8], separator: u8) -> Option<(&[u8], &[u8])>
    ensures { MatchOption result (slice_split (λ byte. nat_eq byte separator) word.now ≡ word.now ∷ []) (λ parts.
        slice_split (λ byte. nat_eq byte separator) word.now
        ≡ parts.0.now ∷ slice_split (λ byte. nat_eq byte separator) parts.1.now) }
{
    let place = place_of(word, separator)?;
    let (before, rest) = word.split_at(place);
    let (_, behind) = rest.split_first()?;
    Some((before, behind))
}

// The four parts of a word with three dots.
#[tactic(auto, using(crate::proofs::AddressLemmas::has_parts))]
fn quarters(word: &[u8]) -> Option<(&[u8], &[u8], &[u8], &[u8])>
    ensures { let parts = slice_split (λ byte. nat_eq byte 46) word.now in
        MatchOption result (nat_eq (length parts) 4 ≡ false) (λ four.
        parts ≡ four.0.now ∷ four.1.now ∷ four.2.now ∷ four.3.now ∷ []) }
{
    let (first, rest) = cut(word, b'.')?;
    let (second, rest) = cut(rest, b'.')?;
    let (third, fourth) = cut(rest, b'.')?;
    match cut(fourth, b'.') {
        None => Some((first, second, third, fourth)),
        Some(_) => None,
    }
}

// The number of eight bits that a word is.
fn octet_of(word: &[u8]) -> Option<u8>
    ensures { result ≡ number_within 255 word.now }
{
    u8::try_from(number_within(255, word)?).ok()
}

#[tactic(auto, unfolding(crate::specs::Addresses::all_within), using(crate::proofs::AddressLemmas::fourth_missing))]
fn octets_of(first: &[u8], second: &[u8], third: &[u8], fourth: &[u8]) -> Option<[u8; 4]>
    ensures { result ≡ all_within 255 (first.now ∷ second.now ∷ third.now ∷ fourth.now ∷ []) }
{
    Some([
        octet_of(first)?,
        octet_of(second)?,
        octet_of(third)?,
        octet_of(fourth)?,
    ])
}

/// The address of IPv4 that a word is: a dotted quad, four decimal numbers up to 255 without leading zeros, joined by
/// dots (RFC 1035 3.4.1).
#[tactic(auto, unfolding(crate::specs::Addresses::address_of))]
pub fn ip_of(word: &[u8]) -> Option<[u8; 4]>
    ensures { result ≡ address_of word.now }
{
    let (first, second, third, fourth) = quarters(word)?;
    octets_of(first, second, third, fourth)
}

fn push_decimals_behind(
    alloc: Global,
    out: &mut List<u8>,
    separator: &[u8],
    bytes: &[u8],
) -> Result<(), OutOfMemory>
    ensures { OnOk result (out.new ≡ out.old ++ decimals_behind separator.now bytes.now) }
{
    for byte in bytes {
        out.extend(separator)?;
        push_number(alloc, out, u64::from(*byte))?;
    }
    Ok(())
}

// The text of bytes as decimals between dots.
fn dotted(alloc: Global, bytes: &[u8]) -> Result<List<u8>, OutOfMemory>
    ensures { IfOk result (λ text. text ≡ dotted_decimals bytes.now) }
{
    let mut text = List::new(alloc);
    if let [first, rest @ ..] = bytes {
        push_number(alloc, &mut text, u64::from(*first))?;
        push_decimals_behind(alloc, &mut text, b".", rest)?;
    }
    Ok(text)
}

/// Prints bytes as decimals between dots.
///
/// # Errors
/// `OutOfMemory`; nothing is printed then.
pub fn push_dotted(alloc: Global, out: &mut List<u8>, bytes: &[u8]) -> Result<(), OutOfMemory>
    ensures ok { OnOk result (out.new ≡ out.old ++ dotted_decimals bytes.now) }
    ensures err { OnErr result (out.new ≡ out.old) }
{
    // All of it is made first, so that no front of it stays where memory runs out.
    let text = dotted(alloc, bytes)?;
    out.extend(text.as_slice())
}
