//! Two zones `x` and what happens to them: `own`, of replica 1, and `supplier`, of replica 2.

use crate::reading::{bad_line, bytes_of, moment_of, parts_of, push_truth, push_wire, replica_of};
use crate::shown::{push_properties, push_rows, push_rules, push_unit};
use crate::values::{OWN, key_of};
use dn_admin::{answer_line, command_of};
use dn_io::{Duplicate, List, OutOfMemory};
use dn_link::{CHANGES_ROOM, Changes, Packet};
use dn_property::rules_of;
use dn_stamp::ReplicaId;
use dn_store::{Table, properties_of, props_number, rows_at};
use dn_word::{cut, is_word, name_of, number_within, push_count, words_of};
use dn_zone::{AdminCmd, Answer, Cursors, Event, Prepared, Zone, changes_of};
use std::alloc::Global;

/// The replica whose changes are taken.
const SUPPLIER: ReplicaId = ReplicaId([2; 16]);

/// The two zones.
#[derive(Drop)]
pub struct Pair {
    own: Zone,
    supplier: Zone,
}

impl Pair {
    /// Two zones that have nothing yet; none where memory is wanting.
    pub fn new(alloc: Global) -> Option<Pair> {
        Some(Pair {
            own: joined(alloc, OWN)?,
            supplier: joined(alloc, SUPPLIER)?,
        })
    }
}

// The zone X on the replica `ns2.x`, which has nothing of it yet.
fn joined(alloc: Global, id: ReplicaId) -> Option<Zone> {
    Zone::join(alloc, id, name_of(b"ns2.x")?, name_of(b"X")?).ok()
}

// The zone X of the replica `ns1.x`, made at hour 1000.
fn created(alloc: Global, id: ReplicaId) -> Option<Zone> {
    let (host, apex) = (name_of(b"ns1.x")?, name_of(b"X")?);
    let (mailbox, moment) = (name_of(b"admin.x")?, moment_of(b"36000000000000")?);
    Zone::create(alloc, id, host, apex, mailbox, moment).ok()
}

// The zone that a word names, and the identity of its replica.
fn chosen<'a>(pair: &'a mut Pair, word: &[u8]) -> (&'a mut Zone, ReplicaId) {
    if is_word(word, b"own") {
        (&mut pair.own, OWN)
    } else {
        (&mut pair.supplier, SUPPLIER)
    }
}

fn counts(alloc: Global, zone: &Zone, out: &mut List<u8>) -> Result<(), OutOfMemory> {
    push_count(alloc, out, b" units ", zone.table().count() as u64)?;
    push_count(alloc, out, b" top ", zone.table().top())
}

fn cursors(alloc: Global, zone: &Zone, out: &mut List<u8>) -> Result<(), OutOfMemory> {
    push_count(alloc, out, b" cursors ", zone.cursor(&SUPPLIER))?;
    push_count(alloc, out, b" ", zone.cursor(&OWN))
}

// A zone's names, its replica, its cursors, whether a pass runs, and how much is in its table.
fn facts(alloc: Global, zone: &Zone, out: &mut List<u8>) -> Result<(), OutOfMemory> {
    out.extend(b"apex ")?;
    push_wire(alloc, out, zone.apex())?;
    out.extend(b" host ")?;
    push_wire(alloc, out, zone.host())?;
    push_count(alloc, out, b" by ", u64::from(zone.id().0[0]))?;
    cursors(alloc, zone, out)?;
    push_truth(out, b" pass ", zone.pass().is_some())?;
    counts(alloc, zone, out)
}

// Adds the line of an answer, without its end.
fn push_answer(alloc: Global, answer: Answer, out: &mut List<u8>) -> Result<(), OutOfMemory> {
    let line = answer_line(alloc, answer)?;
    match line.as_slice().strip_suffix(b"\n") {
        Some(text) => out.extend(text),
        None => out.extend(b"no line"),
    }
}

// What a zone answers to an event, and then whether a pass runs and how much is in its table.
fn act(
    alloc: Global,
    zone: &mut Zone,
    event: &Event,
    out: &mut List<u8>,
) -> Result<(), OutOfMemory> {
    let answer = zone.act(alloc, event)?;
    push_answer(alloc, answer, out)?;
    push_truth(out, b", pass ", zone.pass().is_some())?;
    counts(alloc, zone, out)
}

// The command of this text at hour 1000.
fn command(alloc: Global, text: &[u8]) -> Option<Event> {
    Some(Event::Admin {
        cmd: command_of(alloc, text).ok()?,
        moment: moment_of(b"36000000000000")?,
    })
}

// The command that adds a text record of these bytes at a name, at hour 1000.
fn text_added(alloc: Global, text: &[u8]) -> Option<Event> {
    let (name, bytes) = parts_of(text);
    let (name, moment) = (name_of(name)?, moment_of(b"36000000000000")?);
    let cmd = AdminCmd::Add {
        name,
        ttl: 300,
        rtype: 16,
        rdata: bytes_of(alloc, bytes)?,
        hour: 0,
    };
    Some(Event::Admin { cmd, moment })
}

// The event of a call.
fn event_of(alloc: Global, call: &[u8], text: &[u8]) -> Option<Event> {
    if is_word(call, b"begin") {
        let moment = moment_of(text)?;
        Some(Event::Begin { moment })
    } else if is_word(call, b"step") {
        Some(Event::Step { most: 1 })
    } else if is_word(call, b"text") {
        text_added(alloc, text)
    } else {
        command(alloc, text)
    }
}

// What an event is prepared as, how much is in the zone's table then, and what it answers when it is put in place.
fn prepare(
    alloc: Global,
    zone: &mut Zone,
    event: &Event,
    out: &mut List<u8>,
) -> Result<(), OutOfMemory> {
    let made = zone.prepare(alloc, event)?;
    push_truth(out, b"same ", matches!(made, Prepared::Same(_)))?;
    counts(alloc, zone, out)?;
    out.extend(b", then ")?;
    let answer = zone.commit(made);
    push_answer(alloc, answer, out)?;
    counts(alloc, zone, out)
}

fn happens(
    alloc: Global,
    zone: &mut Zone,
    call: &[u8],
    text: &[u8],
    out: &mut List<u8>,
) -> Result<(), OutOfMemory> {
    match event_of(alloc, call, text) {
        Some(event) if is_word(call, b"prepare") => prepare(alloc, zone, &event, out),
        Some(event) => act(alloc, zone, &event, out),
        None => bad_line(out),
    }
}

// The properties of a zone, and the number of their unit.
fn properties(alloc: Global, zone: &Zone, out: &mut List<u8>) -> Result<(), OutOfMemory> {
    push_count(alloc, out, b"number ", props_number(zone.table()))?;
    push_properties(alloc, properties_of(zone.table()), out)
}

// The unit at a key of a zone.
fn unit(alloc: Global, zone: &Zone, word: &[u8], out: &mut List<u8>) -> Result<(), OutOfMemory> {
    let Some(key) = key_of(word) else {
        return bad_line(out);
    };
    match zone.table().find(&key) {
        Some(unit) => push_unit(alloc, unit, out),
        None => out.extend(b"none"),
    }
}

// The records at a key of a zone.
fn rows(alloc: Global, zone: &Zone, word: &[u8], out: &mut List<u8>) -> Result<(), OutOfMemory> {
    match key_of(word) {
        Some(key) => push_rows(alloc, rows_at(zone.table(), &key), out),
        None => bad_line(out),
    }
}

// Changes of the supplier between two numbers, without units.
fn no_units(alloc: Global, zone: &Zone, from: u64, to: u64) -> Changes {
    Changes {
        zone: *zone.apex(),
        supplier: SUPPLIER,
        from,
        to,
        units: List::new(alloc),
    }
}

// What a zone answers to changes between two numbers, and its cursors then.
fn merge(
    alloc: Global,
    zone: &mut Zone,
    text: &[u8],
    out: &mut List<u8>,
) -> Result<(), OutOfMemory> {
    let (from, to) = parts_of(text);
    let (Some(from), Some(to)) = (number_within(u64::MAX, from), number_within(u64::MAX, to)) else {
        return bad_line(out);
    };
    let made = zone.merge(alloc, &no_units(alloc, zone, from, to))?;
    let answer = zone.commit(made);
    push_answer(alloc, answer, out)?;
    cursors(alloc, zone, out)
}

// Adds a packet: what it asks for, or whose changes it has.
fn push_packet(alloc: Global, packet: &Packet, out: &mut List<u8>) -> Result<(), OutOfMemory> {
    match packet {
        Packet::Pull {
            zone,
            from_id,
            after,
        } => {
            push_wire(alloc, out, zone)?;
            push_count(alloc, out, b" by ", u64::from(from_id.0[0]))?;
            push_count(alloc, out, b" after ", *after)
        }
        Packet::Changes(changes) => push_changes(alloc, changes, out),
    }
}

fn push_changes(alloc: Global, changes: &Changes, out: &mut List<u8>) -> Result<(), OutOfMemory> {
    push_wire(alloc, out, &changes.zone)?;
    push_count(alloc, out, b" of ", u64::from(changes.supplier.0[0]))?;
    push_count(alloc, out, b" from ", changes.from)?;
    push_count(alloc, out, b" to ", changes.to)?;
    push_count(alloc, out, b" units ", changes.units.len() as u64)
}

// The changes of a zone above a number.
fn above(alloc: Global, zone: &Zone, word: &[u8], out: &mut List<u8>) -> Result<(), OutOfMemory> {
    let Some(after) = number_within(u64::MAX, word) else {
        return bad_line(out);
    };
    let packet = changes_of(alloc, zone.table(), zone.apex(), zone.id(), after)?;
    push_packet(alloc, &packet, out)
}

// A zone takes the changes in a packet.
fn take(
    alloc: Global,
    zone: &mut Zone,
    packet: Packet,
    out: &mut List<u8>,
) -> Result<(), OutOfMemory> {
    match packet {
        Packet::Changes(changes) => act(alloc, zone, &Event::Merge { changes }, out),
        Packet::Pull { .. } => bad_line(out),
    }
}

// The own zone takes the supplier's changes above a number.
fn copied(
    alloc: Global,
    pair: &mut Pair,
    word: &[u8],
    out: &mut List<u8>,
) -> Result<(), OutOfMemory> {
    let Some(after) = number_within(u64::MAX, word) else {
        return bad_line(out);
    };
    let other = &pair.supplier;
    let packet = changes_of(alloc, other.table(), other.apex(), other.id(), after)?;
    take(alloc, &mut pair.own, packet, out)
}

// The own zone takes the table as changes of the supplier.
fn taken(
    alloc: Global,
    zone: &mut Zone,
    table: &Table,
    out: &mut List<u8>,
) -> Result<(), OutOfMemory> {
    let packet = changes_of(alloc, table, zone.apex(), SUPPLIER, 0)?;
    take(alloc, zone, packet, out)
}

fn push_cursors(alloc: Global, cursors: &Cursors, out: &mut List<u8>) -> Result<(), OutOfMemory> {
    push_count(alloc, out, b"", cursors.of(SUPPLIER))?;
    push_count(alloc, out, b" ", cursors.of(OWN))?;
    out.extend(b" | ")
}

// The cursors with those that the words `REPLICA=NUMBER` set one after another: of the supplier and of the own replica.
fn moves(alloc: Global, text: &[u8], out: &mut List<u8>) -> Result<(), OutOfMemory> {
    let mut cursors = Cursors::new(alloc);
    push_cursors(alloc, &cursors, out)?;
    for word in words_of(alloc, text)? {
        let after = moved(alloc, &cursors, word)?;
        push_cursors(alloc, &cursors, out)?;
        push_cursors(alloc, &after, out)?;
        cursors = after;
    }
    push_cursors(alloc, &cursors.copy(alloc)?, out)
}

// The cursors after a word set one.
fn moved(alloc: Global, cursors: &Cursors, word: &[u8]) -> Result<Cursors, OutOfMemory> {
    let Some((replica, seen)) = cut(word, b'=') else {
        return cursors.copy(alloc);
    };
    match (replica_of(replica), number_within(u64::MAX, seen)) {
        (Some(replica), Some(seen)) => cursors.with(alloc, replica, seen),
        _ => cursors.copy(alloc),
    }
}

// The answer to a call that looks at a zone.
fn seen(
    alloc: Global,
    zone: &Zone,
    call: &[u8],
    text: &[u8],
    out: &mut List<u8>,
) -> Result<(), OutOfMemory> {
    if is_word(call, b"facts") {
        facts(alloc, zone, out)
    } else if is_word(call, b"unit") {
        unit(alloc, zone, text, out)
    } else if is_word(call, b"rows") {
        rows(alloc, zone, text, out)
    } else if is_word(call, b"properties") {
        properties(alloc, zone, out)
    } else if is_word(call, b"rules") {
        push_rules(alloc, rules_of(properties_of(zone.table())), out)
    } else if is_word(call, b"changes") {
        above(alloc, zone, text, out)
    } else if is_word(call, b"pull") {
        push_packet(alloc, &zone.pull(&SUPPLIER), out)
    } else {
        bad_line(out)
    }
}

// Whether a call changes its zone.
fn changes(call: &[u8]) -> bool {
    is_word(call, b"begin")
        || is_word(call, b"step")
        || is_word(call, b"command")
        || is_word(call, b"text")
        || is_word(call, b"prepare")
}

// A zone is made anew.
fn made(
    alloc: Global,
    zone: &mut Zone,
    new: Option<Zone>,
    out: &mut List<u8>,
) -> Result<(), OutOfMemory> {
    match new {
        Some(new) => {
            *zone = new;
            facts(alloc, zone, out)
        }
        None => bad_line(out),
    }
}

// The answer to a call of one zone.
fn of_zone(
    alloc: Global,
    pair: &mut Pair,
    call: &[u8],
    text: &[u8],
    out: &mut List<u8>,
) -> Result<(), OutOfMemory> {
    let (which, text) = parts_of(text);
    let (zone, id) = chosen(pair, which);
    if is_word(call, b"create") {
        made(alloc, zone, created(alloc, id), out)
    } else if is_word(call, b"join") {
        made(alloc, zone, joined(alloc, id), out)
    } else if is_word(call, b"merge") {
        merge(alloc, zone, text, out)
    } else if changes(call) {
        happens(alloc, zone, call, text, out)
    } else {
        seen(alloc, zone, call, text, out)
    }
}

/// The answer to a call.
pub fn answer(
    alloc: Global,
    pair: &mut Pair,
    table: &Table,
    call: &[u8],
    text: &[u8],
    out: &mut List<u8>,
) -> Result<(), OutOfMemory> {
    if is_word(call, b"room") {
        push_count(alloc, out, b"", CHANGES_ROOM as u64)
    } else if is_word(call, b"cursors") {
        moves(alloc, text, out)
    } else if is_word(call, b"copy") {
        copied(alloc, pair, text, out)
    } else if is_word(call, b"take") {
        taken(alloc, &mut pair.own, table, out)
    } else {
        of_zone(alloc, pair, call, text, out)
    }
}
