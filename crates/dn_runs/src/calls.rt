//! Lines that are calls.

use crate::reading::{asked, parts_of};
use crate::zones::Pair;
use crate::{answers, passes, tables, updates, worlds, zones};
use dn_io::{List, OutOfMemory};
use dn_pass::Pass;
use dn_store::Table;
use dn_word::is_word;
use dn_world::World;
use std::alloc::Global;

/// What the calls act on.
#[derive(Drop)]
pub struct Session {
    pub table: Table,
    pub pass: Option<Pass>,
    pub zones: Pair,
    pub world: World,
}

impl Session {
    /// A table without units, two zones that have nothing yet, and a world without replicas; none where memory is wanting.
    pub fn new(alloc: Global) -> Option<Session> {
        Some(Session {
            table: Table::empty(alloc).ok()?,
            pass: None,
            zones: Pair::new(alloc)?,
            world: World::new(alloc),
        })
    }
}

// The answer to a call of a topic.
fn answer(
    alloc: Global,
    session: &mut Session,
    topic: &[u8],
    call: &[u8],
    text: &[u8],
    out: &mut List<u8>,
) -> Result<(), OutOfMemory> {
    if is_word(topic, b"table") {
        tables::answer(alloc, &mut session.table, call, text, out)
    } else if is_word(topic, b"value") {
        tables::of_value(alloc, call, text, out)
    } else if is_word(topic, b"pass") {
        passes::answer(alloc, &session.table, &mut session.pass, call, text, out)
    } else if is_word(topic, b"update") {
        updates::answer(alloc, &session.table, call, text, out)
    } else if is_word(topic, b"ask") {
        answers::answer(alloc, &session.table, call, text, out)
    } else if is_word(topic, b"zone") {
        zones::answer(alloc, &mut session.zones, &session.table, call, text, out)
    } else if is_word(topic, b"world") {
        worlds::answer(alloc, &mut session.world, call, text, out)
    } else {
        out.extend(b"no such call")
    }
}

// A line with its answer.
fn answered(alloc: Global, session: &mut Session, line: &[u8]) -> Result<List<u8>, OutOfMemory> {
    let asked = asked(line);
    let (topic, rest) = parts_of(asked);
    let (call, text) = parts_of(rest);
    let mut out = List::from_slice(alloc, asked)?;
    out.extend(b" -> ")?;
    answer(alloc, session, topic, call, text, &mut out)?;
    out.extend(b"\n")?;
    Ok(out)
}

/// What is printed of a line: comments and empty lines as they are.
pub fn printed(alloc: Global, session: &mut Session, line: &[u8]) -> Result<List<u8>, OutOfMemory> {
    match line.first() {
        None | Some(b'#') => {
            let mut out = List::from_slice(alloc, line)?;
            out.extend(b"\n")?;
            Ok(out)
        }
        Some(_) => answered(alloc, session, line),
    }
}
