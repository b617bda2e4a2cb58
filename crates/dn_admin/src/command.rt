ghost use Rattle.std.specs.Prelude.{◌≡◌, None, Some, MatchOption, map};
ghost use Rattle.dn_admin.specs.Command.{add_of, add_words, address_command, aging_of, command_of, dated, hour_at_end, interval_command, interval_of};
ghost use Rattle.dn_word.specs.Reading.{Reads};

use dn_rdata::A;
use dn_text::{is_type_a, read_rdata};
use dn_word::{TextError, cut_last_word, cut_word, is_word, name_of, number_of, trimmed, words_of};
use dn_zone::{AdminCmd, INTERVAL_LIMIT};
use std::alloc::Global;

// The command that adds an address at a name, by the text of its data, with an hour as its time stamp.
#[tactic(auto, unfolding(crate::specs::Command::address_command))]
fn address_command(
    alloc: Global,
    name: &[u8],
    ttl: &[u8],
    text: &[u8],
    hour: u32,
) -> Result<AdminCmd, TextError>
    ensures { Reads result (address_command name.now ttl.now text.now hour) }
{
    let Some(name) = name_of(name) else {
        return Err(TextError::BadText);
    };
    let Some(ttl) = number_of(u32::MAX, ttl) else {
        return Err(TextError::BadText);
    };
    let rdata = read_rdata(alloc, A, trimmed(text))?;
    Ok(AdminCmd::Add {
        name,
        ttl,
        rtype: A,
        rdata,
        hour,
    })
}

// What stands before `hour H` at the end of a text, and that hour.
#[tactic(auto, unfolding(crate::specs::Command::hour_at_end))]
fn hour_at_end(text: &[u8]) -> Option<(&[u8], u32)>
    ensures { let there = hour_at_end text.now in
        MatchOption result (there ≡ None) (λ found. there ≡ Some (found.0.now, found.1)) }
{
    let (rest, number) = cut_last_word(text)?;
    let (data, label) = cut_last_word(rest)?;
    if !is_word(label, b"hour") {
        return None;
    }
    let hour = number_of(u32::MAX, number)?;
    Some((data, hour))
}

// The text of data, and the hour behind it.
#[tactic(auto, unfolding(crate::specs::Command::dated))]
fn dated(text: &[u8]) -> (&[u8], u32)
    ensures { (result.0.now, result.1) ≡ dated text.now }
{
    match hour_at_end(text) {
        Some(found) => found,
        None => (text, 0),
    }
}

// A name, a time to live, a type, and what stands behind them.
#[tactic(auto, unfolding(crate::specs::Command::add_words))]
fn add_words(text: &[u8]) -> Option<(&[u8], &[u8], &[u8], &[u8])>
    ensures { let there = add_words text.now in
        MatchOption result (there ≡ None) (λ found. there ≡ Some (found.0.now, found.1.now, found.2.now, found.3.now)) }
{
    let (name, rest) = cut_word(text)?;
    let (ttl, rest) = cut_word(rest)?;
    let (rtype, rest) = cut_word(rest)?;
    Some((name, ttl, rtype, rest))
}

// `NAME TTL TYPE DATA`, with or without `hour H`, behind `add`.
#[tactic(auto, unfolding(crate::specs::Command::add_of))]
fn add_of(alloc: Global, text: &[u8]) -> Result<AdminCmd, TextError>
    ensures { Reads result (add_of text.now) }
{
    let Some((name, ttl, rtype, rest)) = add_words(text) else {
        return Err(TextError::BadText);
    };
    if !is_type_a(rtype) {
        return Err(TextError::BadText);
    }
    let (data, hour) = dated(rest);
    address_command(alloc, name, ttl, data, hour)
}

// `on` or `off`, behind `aging`.
#[tactic(auto, unfolding(crate::specs::Command::aging_of))]
fn aging_of(words: &[&[u8]]) -> Option<AdminCmd>
    ensures { result ≡ aging_of (map (λ word. word.now) words.now) }
{
    match words {
        [word] if is_word(word, b"on") => Some(AdminCmd::AgingOn),
        [word] if is_word(word, b"off") => Some(AdminCmd::AgingOff),
        _ => None,
    }
}

// The hours of an interval, at most ten years of them.
#[tactic(auto, unfolding(crate::specs::Command::interval_of))]
fn interval_of(words: &[&[u8]]) -> Option<u32>
    ensures { result ≡ interval_of (map (λ word. word.now) words.now) }
{
    let [hours] = words else {
        return None;
    };
    number_of(INTERVAL_LIMIT, hours)
}

// `norefresh H` or `refresh H`.
#[tactic(auto, unfolding(crate::specs::Command::interval_command))]
fn interval_command(verb: &[u8], words: &[&[u8]]) -> Option<AdminCmd>
    ensures { result ≡ interval_command verb.now (map (λ word. word.now) words.now) }
{
    let hours = interval_of(words)?;
    if is_word(verb, b"norefresh") {
        Some(AdminCmd::NoRefresh(hours))
    } else if is_word(verb, b"refresh") {
        Some(AdminCmd::Refresh(hours))
    } else {
        None
    }
}

/// The command of administration that a text is: `add NAME TTL TYPE DATA` with or without `hour H`, `aging on`, `aging off`,
/// `norefresh H` or `refresh H`, with any blanks between words. The data stand as in a row's line.
///
/// # Errors
/// `BadText` exactly where it is none, `OutOfMemory`.
#[tactic(auto, unfolding(crate::specs::Command::command_of))]
pub fn command_of(alloc: Global, text: &[u8]) -> Result<AdminCmd, TextError>
    ensures { Reads result (command_of text.now) }
{
    let Some((verb, rest)) = cut_word(text) else {
        return Err(TextError::BadText);
    };
    if is_word(verb, b"add") {
        return add_of(alloc, rest);
    }
    let words = words_of(alloc, rest)?;
    if is_word(verb, b"aging") {
        aging_of(&words).ok_or(TextError::BadText)
    } else {
        interval_command(verb, &words).ok_or(TextError::BadText)
    }
}
