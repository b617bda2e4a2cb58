//! A world of replicas, and what happens in it.

use crate::reading::{bad_line, number32, place_of, replica_of};
use dn_admin::answer_line;
use dn_io::{List, Moment, OutOfMemory};
use dn_word::{is_word, name_of, push_count, words_of};
use dn_world::{World, WorldAnswer, WorldEvent, WorldNo};
use dn_zone::Event;
use std::alloc::Global;

// The word of a refusal.
fn refusal(no: WorldNo) -> &'static [u8] {
    match no {
        WorldNo::IdTaken => b"IdTaken",
        WorldNo::NoReplica => b"NoReplica",
        WorldNo::NoZone => b"NoZone",
        WorldNo::ZoneThere => b"ZoneThere",
        WorldNo::NoPacket => b"NoPacket",
        WorldNo::SelfPull => b"SelfPull",
        WorldNo::Full => b"Full",
    }
}

fn push_answer(alloc: Global, answer: WorldAnswer, out: &mut List<u8>) -> Result<(), OutOfMemory> {
    match answer {
        WorldAnswer::Made => out.extend(b"made"),
        WorldAnswer::Sent { packet } => push_count(alloc, out, b"sent ", u64::from(packet)),
        WorldAnswer::No(no) => out.extend(refusal(no)),
        WorldAnswer::Zone(answer) => {
            let line = answer_line(alloc, answer)?;
            out.extend(line.as_slice().strip_suffix(b"\n").unwrap_or(b"no line"))
        }
    }
}

// A replica makes a zone, joins one, or steps on in a pass.
fn at_replica(call: &[u8], at: usize, apex: &[u8]) -> Option<WorldEvent> {
    let apex = name_of(apex)?;
    if is_word(call, b"create") {
        Some(WorldEvent::Create {
            at,
            apex,
            mailbox: apex,
            moment: Moment::first(),
        })
    } else if is_word(call, b"join") {
        Some(WorldEvent::Join { at, apex })
    } else {
        Some(WorldEvent::Act {
            at,
            apex,
            event: Event::Step { most: 1 },
        })
    }
}

// A replica is there from now on.
fn replica(id: &[u8], host: &[u8]) -> Option<WorldEvent> {
    Some(WorldEvent::Replica {
        id: replica_of(id)?,
        host: name_of(host)?,
    })
}

fn pull(by: &[u8], of: &[u8], apex: &[u8]) -> Option<WorldEvent> {
    Some(WorldEvent::Pull {
        by: place_of(by)?,
        of: place_of(of)?,
        apex: name_of(apex)?,
    })
}

// The event of a call.
fn event_of(call: &[u8], words: &[&[u8]]) -> Option<WorldEvent> {
    match words {
        [packet] => number32(packet).map(|packet| WorldEvent::Deliver { packet }),
        [id, host] if is_word(call, b"replica") => replica(id, host),
        [at, apex] => at_replica(call, place_of(at)?, apex),
        [by, of, apex] => pull(by, of, apex),
        _ => None,
    }
}

// How many units the zone of a replica has.
fn units(
    alloc: Global,
    world: &World,
    words: &[&[u8]],
    out: &mut List<u8>,
) -> Result<(), OutOfMemory> {
    let [at, apex] = words else {
        return bad_line(out);
    };
    let (Some(at), Some(apex)) = (place_of(at), name_of(apex)) else {
        return bad_line(out);
    };
    match world.zone(at, &apex) {
        Some(zone) => push_count(alloc, out, b"", zone.table().count() as u64),
        None => out.extend(b"none"),
    }
}

fn happens(
    alloc: Global,
    world: &mut World,
    call: &[u8],
    words: &[&[u8]],
    out: &mut List<u8>,
) -> Result<(), OutOfMemory> {
    match event_of(call, words) {
        Some(event) => {
            let answer = world.step(alloc, &event)?;
            push_answer(alloc, answer, out)
        }
        None => bad_line(out),
    }
}

/// The answer to a call.
pub fn answer(
    alloc: Global,
    world: &mut World,
    call: &[u8],
    text: &[u8],
    out: &mut List<u8>,
) -> Result<(), OutOfMemory> {
    let words = words_of(alloc, text)?;
    if is_word(call, b"new") {
        *world = World::new(alloc);
        out.extend(b"made")
    } else if is_word(call, b"units") {
        units(alloc, world, words.as_slice(), out)
    } else {
        happens(alloc, world, call, words.as_slice(), out)
    }
}
