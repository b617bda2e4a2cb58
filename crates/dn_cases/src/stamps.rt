//! Stamps of writes: `VERSION.SECOND.REPLICA`, where a replica is a number that is each byte of its identity.

ghost use Rattle.std.specs.Prelude.{◌≡◌};

use crate::reading::{bad_line, number8, number32, push_truth};
use dn_io::{List, OutOfMemory};
use dn_stamp::{Join, ReplicaId, Stamp, Stamped, order_makes_no_difference};
use dn_word::{is_word, number_within, parts_between, push_count, words_of};
use std::alloc::Global;

// The replica that writes.
const OWN: ReplicaId = ReplicaId([2; 16]);

fn stamp_with(version: &[u8], seconds: &[u8], replica: &[u8]) -> Option<Stamp> {
    let number = number8(replica)?;
    Some(Stamp {
        version: number32(version)?,
        seconds: number_within(u64::MAX, seconds)?,
        id: ReplicaId([number; 16]),
    })
}

// The stamp that a word is.
fn stamp_of(alloc: Global, word: &[u8]) -> Option<Stamp> {
    let parts = parts_between(alloc, word, b'.').ok()?;
    match parts.as_slice() {
        [version, seconds, replica] => stamp_with(version, seconds, replica),
        _ => None,
    }
}

fn push_stamp(alloc: Global, stamp: Stamp, out: &mut List<u8>) -> Result<(), OutOfMemory> {
    push_count(alloc, out, b"", u64::from(stamp.version))?;
    push_count(alloc, out, b".", stamp.seconds)?;
    push_count(alloc, out, b".", u64::from(stamp.id.0[0]))
}

// The stamp of the next write, by replica 2 in second 5, and whether the version is the last.
fn next(alloc: Global, before: Stamp, out: &mut List<u8>) -> Result<(), OutOfMemory> {
    push_truth(out, b"last ", before.is_last())?;
    out.extend(b" next ")?;
    match before.next(OWN, 5) {
        Some(next) => push_stamp(alloc, next, out),
        None => out.extend(b"none"),
    }
}

// The value under a stamp.
fn stamped(stamp: Stamp, value: u32) -> Stamped<u32> {
    Stamped { stamp, value }
}

// Whether either of two stamps is newer, and which of the values 1 and 2 under them stays.
fn newer(
    alloc: Global,
    first: Stamp,
    second: Stamp,
    out: &mut List<u8>,
) -> Result<(), OutOfMemory> {
    push_truth(out, b"newer ", first.is_newer(&second))?;
    push_truth(out, b" ", second.is_newer(&first))?;
    let stays = stamped(first, 1).join(stamped(second, 2)).value;
    push_count(alloc, out, b" stays ", u64::from(stays))
}

// Of any values that join, the join of three is the same from the left and from the right.
fn from_the_left<J: Join>(first: J, second: J, third: J) -> J
    requires one { J.agree first second }
    requires two { J.agree second third }
    requires three { J.agree first third }
    ensures { result ≡ J.joined first (J.joined second third) }
{
    first.join(second).join(third)
}

// Of any values that join, the second joined with the first is the first joined with the second.
fn the_other_way<J: Join>(first: J, second: J) -> J
    requires { J.agree first second }
    ensures { result ≡ J.joined first second }
{
    second.join(first)
}

// A value of this version.
fn of_version(version: u32) -> Stamped<u32>
    ensures { result.value ≡ 5 }
{
    let stamp = Stamp {
        version,
        seconds: 0,
        id: ReplicaId([0; 16]),
    };
    Stamped { stamp, value: 5 }
}

// The versions that stay of 1, 3 and 2 joined from the left, and of 1 and 2 joined the other way.
fn joins(alloc: Global, out: &mut List<u8>) -> Result<(), OutOfMemory> {
    order_makes_no_difference::<Stamped<u32>>();
    let three = from_the_left(of_version(1), of_version(3), of_version(2));
    push_count(alloc, out, b"", u64::from(three.stamp.version))?;
    let two = the_other_way(of_version(1), of_version(2));
    push_count(alloc, out, b" ", u64::from(two.stamp.version))
}

fn of_word(alloc: Global, call: &[u8], word: &[u8], out: &mut List<u8>) -> Result<(), OutOfMemory> {
    if is_word(call, b"first") {
        return match number_within(u64::MAX, word) {
            Some(seconds) => push_stamp(alloc, Stamp::first(OWN, seconds), out),
            None => bad_line(out),
        };
    }
    match stamp_of(alloc, word) {
        Some(stamp) => next(alloc, stamp, out),
        None => bad_line(out),
    }
}

/// The answer to a call.
pub fn answer(
    alloc: Global,
    call: &[u8],
    text: &[u8],
    out: &mut List<u8>,
) -> Result<(), OutOfMemory> {
    let words = words_of(alloc, text)?;
    match words.as_slice() {
        [] => joins(alloc, out),
        [word] => of_word(alloc, call, word, out),
        [first, second] => match (stamp_of(alloc, first), stamp_of(alloc, second)) {
            (Some(first), Some(second)) => newer(alloc, first, second, out),
            _ => bad_line(out),
        },
        _ => bad_line(out),
    }
}
