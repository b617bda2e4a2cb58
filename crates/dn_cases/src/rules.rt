//! The rules of a zone by its properties, and what they allow at an hour.

use crate::reading::{bad_line, bytes_of, number32, push_truth};
use dn_io::{List, OutOfMemory};
use dn_property::{Property, ZoneRules, is_due, is_stale, refresh_allowed, rules_of};
use dn_word::{cut, is_word, push_count, words_of};
use std::alloc::Global;

/// Adds the rules.
pub fn push_rules(alloc: Global, rules: ZoneRules, out: &mut List<u8>) -> Result<(), OutOfMemory> {
    push_count(alloc, out, b"allow ", u64::from(rules.allow))?;
    push_truth(out, b" aging ", rules.aging)?;
    push_count(alloc, out, b" norefresh ", u64::from(rules.norefresh))?;
    push_count(alloc, out, b" refresh ", u64::from(rules.refresh))?;
    push_count(alloc, out, b" available ", u64::from(rules.available))
}

/// The rules of a zone with one property.
pub fn of_one(alloc: Global, item: Property, out: &mut List<u8>) -> Result<(), OutOfMemory> {
    let mut list = List::new(alloc);
    list.push(item)?;
    push_rules(alloc, rules_of(list.as_slice()), out)
}

// The property of the word `ID=CONTENT`.
fn property_of(alloc: Global, word: &[u8]) -> Option<Property> {
    let (id, content) = cut(word, b'=')?;
    Some(Property {
        name_length: 1,
        flag: 0,
        id: number32(id)?,
        content: bytes_of(alloc, content)?,
        tail: List::from_slice(alloc, &[0]).ok()?,
    })
}

/// The rules of a zone with the properties of these words.
pub fn of_words(alloc: Global, text: &[u8], out: &mut List<u8>) -> Result<(), OutOfMemory> {
    let mut list = List::new(alloc);
    for word in words_of(alloc, text)? {
        if let Some(item) = property_of(alloc, word) {
            list.push(item)?;
        }
    }
    push_rules(alloc, rules_of(list.as_slice()), out)
}

// The rules of a zone whose records age or not, and that removes stale ones from hour 1168 on.
fn rules_with(aging: bool) -> ZoneRules {
    ZoneRules {
        allow: 0,
        aging,
        norefresh: 168,
        refresh: 168,
        available: 1168,
    }
}

// Whether a record of one hour is stale at another, and whether it may be refreshed then.
fn of_record(
    rules: &ZoneRules,
    stamp_hour: u32,
    hour: u32,
    out: &mut List<u8>,
) -> Result<(), OutOfMemory> {
    push_truth(out, b"stale ", is_stale(stamp_hour, rules, hour))?;
    push_truth(
        out,
        b" refreshed ",
        refresh_allowed(stamp_hour, rules, hour),
    )
}

/// What holds in a zone that ages or not at an hour: whether a pass is due, or what may happen to a record of another hour.
pub fn at_hour(alloc: Global, text: &[u8], out: &mut List<u8>) -> Result<(), OutOfMemory> {
    let words = words_of(alloc, text)?;
    match words.as_slice() {
        [aging, hour] => match number32(hour) {
            Some(hour) => push_truth(out, b"", is_due(&rules_with(is_word(aging, b"on")), hour)),
            None => bad_line(out),
        },
        [aging, stamp, hour] => match (number32(stamp), number32(hour)) {
            (Some(stamp), Some(hour)) => {
                of_record(&rules_with(is_word(aging, b"on")), stamp, hour, out)
            }
            _ => bad_line(out),
        },
        _ => bad_line(out),
    }
}
