ghost use Rattle.std.specs.Prelude.{◌≡◌, ◌++◌, ◌+◌, ◌<◌, ◌≤◌, ◌∷◌, [], false, nat_eq, length, take, drop, replicate, map, IfSome, OnOk};
ghost use Rattle.std.specs.Result.{result_ok};
ghost use Rattle.hex.specs.Hex.{decode_sized};
ghost use Rattle.dn_word.specs.Hex.{hex_text};
ghost use Rattle.dn_text.specs.LongAddresses.{cut_groups, double_from, filled, group_of, groups_behind, groups_from, groups_of, groups_text, long_address_of, whole_groups};
ghost use Rattle.dn_word.specs.Reading.{Adds, Reads};

use dn_io::{List, OutOfMemory};
use dn_word::{TextError, parts_between, push_hex};
use std::alloc::Global;

// Two bytes behind a separator.
fn push_group(
    alloc: Global,
    out: &mut List<u8>,
    separator: &[u8],
    high: u8,
    low: u8,
) -> Result<(), OutOfMemory>
    ensures { OnOk result (out.new ≡ out.old ++ separator.now ++ hex_text (high ∷ low ∷ [])) }
{
    out.extend(separator)?;
    push_hex(alloc, out, &[high, low])
}

// Groups, each behind a colon.
#[tactic(auto, unfolding(crate::specs::LongAddresses::groups_behind))]
fn push_groups_behind(alloc: Global, out: &mut List<u8>, bytes: &[u8]) -> Result<(), OutOfMemory>
    ensures { OnOk result (out.new ≡ out.old ++ groups_behind bytes.now) }
{
    let mut rest = bytes;
    while let [high, low, behind @ ..] = rest {
        push_group(alloc, out, b":", *high, *low)?;
        rest = behind;
    }
    Ok(())
}

/// Prints bytes as groups of four lower-case hex digits, two bytes each, with a colon between each two (RFC 4291 2.2).
#[tactic(auto, unfolding(crate::specs::LongAddresses::groups_text))]
pub(crate) fn push_groups(
    alloc: Global,
    out: &mut List<u8>,
    bytes: &[u8],
) -> Result<(), OutOfMemory>
    ensures { OnOk result (out.new ≡ out.old ++ groups_text bytes.now) }
{
    let [high, low, behind @ ..] = bytes else {
        return Ok(());
    };
    push_group(alloc, out, b"", *high, *low)?;
    push_groups_behind(alloc, out, behind)
}

// The two bytes of four hex digits.
fn pair_of(digits: &[u8; 4]) -> Option<[u8; 2]>
    ensures { result ≡ result_ok (decode_sized digits.now 2) }
{
    let mut pair = [0u8; 2];
    match hex::decode_to_slice(digits, &mut pair) {
        Ok(()) => Some(pair),
        Err(_) => None,
    }
}

// The two bytes of a group of one to four digits.
#[tactic(auto, unfolding(crate::specs::LongAddresses::group_of))]
fn group_of(word: &[u8]) -> Option<[u8; 2]>
    ensures { result ≡ group_of word.now }
{
    match word {
        [d] => pair_of(&[b'0', b'0', b'0', *d]),
        [c, d] => pair_of(&[b'0', b'0', *c, *d]),
        [b, c, d] => pair_of(&[b'0', *b, *c, *d]),
        [a, b, c, d] => pair_of(&[*a, *b, *c, *d]),
        _ => None,
    }
}

// Adds the two bytes of a group.
fn push_group_of(out: &mut List<u8>, word: &[u8]) -> Result<(), TextError>
    ensures { Adds result (group_of word.now) out.old out.new }
{
    match group_of(word) {
        Some(pair) => Ok(out.extend(&pair)?),
        None => Err(TextError::BadText),
    }
}

// The bytes of groups, where each word is one.
#[tactic(auto, unfolding(crate::specs::LongAddresses::groups_from))]
fn all_groups(alloc: Global, words: &[&[u8]]) -> Result<List<u8>, TextError>
    ensures { Reads result (groups_from [] (map (λ word. word.now) words.now)) }
{
    let mut out = List::new(alloc);
    for word in words {
        push_group_of(&mut out, word)?;
    }
    Ok(out)
}

// The bytes of groups with a colon between each two.
#[tactic(auto, unfolding(crate::specs::LongAddresses::groups_of))]
fn groups_of(alloc: Global, text: &[u8]) -> Result<List<u8>, TextError>
    ensures { Reads result (groups_of text.now) }
{
    if text.is_empty() {
        return Ok(List::new(alloc));
    }
    let words = parts_between(alloc, text, b':')?;
    all_groups(alloc, &words)
}

// The bytes of an address without `::`.
#[tactic(auto, unfolding(crate::specs::LongAddresses::whole_groups))]
fn whole_groups(alloc: Global, word: &[u8]) -> Result<List<u8>, TextError>
    ensures { Reads result (whole_groups word.now) }
{
    let groups = groups_of(alloc, word)?;
    if groups.len() == 16 {
        Ok(groups)
    } else {
        Err(TextError::BadText)
    }
}

// Adds so many zeros.
#[tactic(auto, using(crate::proofs::ZerosLemmas::zeros_front))]
fn push_zeros(out: &mut List<u8>, count: usize) -> Result<(), OutOfMemory>
    requires { count ≤ 16 }
    ensures { OnOk result (out.new ≡ out.old ++ replicate count 0) }
{
    let (zeros, _) = [0u8; 16].split_at(count);
    out.extend(zeros)
}

// Adds zeros and the bytes behind them, so that there are 16 bytes; one group is zero at least.
#[tactic(auto, unfolding(crate::specs::LongAddresses::filled))]
fn filled(front: List<u8>, back: &[u8]) -> Result<List<u8>, TextError>
    ensures { Reads result (filled front back.now) }
{
    let mut out = front;
    if out.len() > 14 || back.len() > 14 - out.len() {
        return Err(TextError::BadText);
    }
    let zeros = 16 - (out.len() + back.len());
    push_zeros(&mut out, zeros)?;
    out.extend(back)?;
    Ok(out)
}

// The bytes of an address with `::` between these texts.
#[tactic(auto, unfolding(crate::specs::LongAddresses::cut_groups))]
fn cut_groups(alloc: Global, before: &[u8], behind: &[u8]) -> Result<List<u8>, TextError>
    ensures { Reads result (cut_groups before.now behind.now) }
{
    let front = groups_of(alloc, before)?;
    let back = groups_of(alloc, behind)?;
    filled(front, back.as_slice())
}

// The place of the second colon of the first `::` of a word.
#[tactic(auto, unfolding(crate::specs::LongAddresses::double_from))]
fn double_colon(word: &[u8]) -> Option<usize>
    ensures place { result ≡ double_from 0 false word.now }
    ensures within { IfSome result (λ place. place < length word.now) }
{
    let mut colon = false;
    for (at, byte) in word.iter().enumerate() {
        if colon && *byte == b':' {
            return Some(at);
        }
        colon = *byte == b':';
    }
    None
}

/// The address of IPv6 that a word is: eight groups of one to four hex digits of either case, joined by colons, or fewer of
/// them with one `::` for one or more groups of zeros (RFC 4291 2.2).
///
/// # Errors
/// `BadText` exactly where the word isn't one, `OutOfMemory`.
#[tactic(auto, unfolding(crate::specs::LongAddresses::long_address_of))]
pub(crate) fn long_address_of(alloc: Global, word: &[u8]) -> Result<List<u8>, TextError>
    ensures { Reads result (long_address_of word.now) }
{
    match double_colon(word) {
        None => whole_groups(alloc, word),
        Some(place) => {
            let (_, behind) = word.split_at(place + 1);
            let (before, _) = word.split_at(place.saturating_sub(1));
            cut_groups(alloc, before, behind)
        }
    }
}
