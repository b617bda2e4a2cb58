use crate::fixtures::{TXT, live, stamp, zeros};
use dn_io::List;
use dn_name::Name;
use dn_store::{ChangeRun, Table, Unit, UnitKey, UnitValue, Write, fits, value_len};
use std::alloc::Global;
use std::process::Abort;

// The table of pages beside a plain list, which has the node of each write: the nodes are numbers below 300, written in a
// scrambled order, so that pages are split at many places.

const NODES: usize = 300;

/// The bytes of a unit of such a node in a packet, but for its value: its key, of 10, and its stamp.
const HEAD: usize = 38;

/// The key of a node: n and four digits under x, so that keys and numbers have one order.
fn key_of(rt: &impl Abort, node: usize) -> UnitKey {
    let digits = b"0123456789";
    let (thousands, hundreds) = (node / 1000 % 10, node / 100 % 10);
    let (tens, ones) = (node / 10 % 10, node % 10);
    let text = [
        b'n',
        digits[thousands],
        digits[hundreds],
        digits[tens],
        digits[ones],
        b'.',
        b'x',
    ];
    UnitKey::Node(Name::from_text(&text).ok().expect(rt, "the text is a name"))
}

/// The value of a node: each third has a text.
fn value_of(rt: &impl Abort, alloc: Global, node: usize) -> UnitValue {
    if node % 3 == 0 {
        let bytes = zeros(rt, alloc, 700);
        live(rt, alloc, &[(TXT, 0, &bytes)])
    } else {
        UnitValue::Gone
    }
}

/// The table after a write of this value of a node.
fn put_value(
    rt: &impl Abort,
    alloc: Global,
    table: &Table,
    node: usize,
    value: UnitValue,
) -> Table {
    assert!(rt; fits(&value));
    assert!(rt; table.top() < 10_000);
    let mut batch = List::new(alloc);
    batch
        .push(Write {
            key: key_of(rt, node),
            stamp: stamp(1),
            value,
        })
        .expect(rt, "memory");
    table.put(&batch).expect(rt, "memory")
}

/// The table after a write of a node.
fn put_node(rt: &impl Abort, alloc: Global, table: &Table, node: usize) -> Table {
    put_value(rt, alloc, table, node, value_of(rt, alloc, node))
}

/// The number of the last write of a node, 0 where there is none.
fn last_of(writes: &[usize], node: usize) -> u64 {
    let mut last = 0;
    for at in 0..writes.len() {
        if writes[at] == node {
            last = at as u64 + 1;
        }
    }
    last
}

/// The number of the last write of the next node that was written, 0 where there is none.
fn next_of(writes: &[usize], from: usize) -> u64 {
    for node in from..NODES {
        let last = last_of(writes, node);
        if last > 0 {
            return last;
        }
    }
    0
}

fn number(found: Option<&Unit>) -> u64 {
    match found {
        Some(unit) => unit.usn,
        None => 0,
    }
}

/// The units at a node and behind it are those of the list.
fn check_node(rt: &impl Abort, table: &Table, writes: &[usize], node: usize) {
    let key = key_of(rt, node);
    assert_eq!(rt; number(table.find(&key)), last_of(writes, node));
    let next = next_of(writes, node.saturating_add(1));
    assert_eq!(rt; number(table.next_after(Some(&key))), next);
}

/// The units at each node and behind it are those of the list.
fn check_nodes(rt: &impl Abort, table: &Table, writes: &[usize]) {
    assert_eq!(rt; number(table.next_after(None)), next_of(writes, 0));
    for node in 0..NODES {
        check_node(rt, table, writes, node);
    }
}

/// How many bytes the unit of a node takes in a packet.
fn size_of(rt: &impl Abort, table: &Table, node: usize) -> usize {
    let unit = table
        .find(&key_of(rt, node))
        .expect(rt, "the node was written");
    value_len(&unit.value).saturating_add(HEAD)
}

/// Whether the write at a place is the last of its node.
fn is_last(writes: &[usize], at: usize) -> bool {
    match writes.get(at) {
        Some(node) => last_of(writes, *node) == (at as u64).saturating_add(1),
        None => false,
    }
}

/// The number of each write that is the last of its node, with its unit's bytes in a packet.
fn newest(rt: &impl Abort, alloc: Global, table: &Table, writes: &[usize]) -> Vec<(u64, usize)> {
    let mut newest = Vec::new(alloc);
    for at in 0..writes.len() {
        if is_last(writes, at) {
            let size = size_of(rt, table, writes[at]);
            newest.push((at as u64 + 1, size)).expect(rt, "memory");
        }
    }
    newest
}

/// The numbers above one, as far as there is room.
fn run_of(
    rt: &impl Abort,
    alloc: Global,
    newest: &[(u64, usize)],
    from: u64,
    room: usize,
) -> Vec<u64> {
    let mut run = Vec::new(alloc);
    let mut left = room;
    for (number, size) in newest {
        if *number > from {
            match left.checked_sub(*size) {
                None => break,
                Some(rest) => left = rest,
            }
            run.push(*number).expect(rt, "memory");
        }
    }
    run
}

/// The numbers of units.
fn numbers(rt: &impl Abort, alloc: Global, units: &[Unit]) -> Vec<u64> {
    let mut found = Vec::new(alloc);
    for unit in units {
        found.push(unit.usn).expect(rt, "memory");
    }
    found
}

/// The run of changes above a number.
fn changes_of(rt: &impl Abort, table: &Table, usn: u64) -> ChangeRun {
    assert!(rt; usn <= table.top());
    table.changes_after(usn, 61_000).expect(rt, "memory")
}

/// The run of changes above a number has those of these numbers that there is room for.
fn check_run(rt: &impl Abort, alloc: Global, table: &Table, newest: &[(u64, usize)], from: u64) {
    let run = changes_of(rt, table, from);
    let want = run_of(rt, alloc, newest, from, 61_000);
    assert_eq!(rt;
        numbers(rt, alloc, run.units.as_slice()).as_slice(),
        want.as_slice()
    );
}

/// The run of changes above each number is that of the list.
fn check_runs(rt: &impl Abort, alloc: Global, table: &Table, writes: &[usize]) {
    let newest = newest(rt, alloc, table, writes);
    for from in 0..writes.len() {
        check_run(rt, alloc, table, &newest, from as u64);
    }
}

/// A table holds what the list has.
fn check_table(rt: &impl Abort, alloc: Global, table: &Table, writes: &[usize], count: usize) {
    assert_eq!(rt; (table.top(), table.count()), (writes.len() as u64, count));
    check_nodes(rt, table, writes);
    check_runs(rt, alloc, table, writes);
}

/// The node of each of so many writes: all nodes once in a scrambled order, and then once more in another.
fn scrambled(rt: &impl Abort, alloc: Global, count: usize) -> Vec<usize> {
    let mut writes = Vec::new(alloc);
    for at in 0..count {
        let step = if at < NODES { 119 } else { 113 };
        writes.push(at % NODES * step % NODES).expect(rt, "memory");
    }
    writes
}

/// The table after the writes of these nodes.
fn written(rt: &impl Abort, alloc: Global, start: &Table, writes: &[usize]) -> Table {
    let mut table = start.share().expect(rt, "memory");
    for node in writes {
        table = put_node(rt, alloc, &table, *node);
    }
    table
}

#[test]
fn pages_hold_what_a_plain_list_holds(rt: HostRuntime) {
    let alloc = rt.alloc();
    let writes = scrambled(&rt, alloc, 400);
    let empty = Table::empty(alloc).expect(&rt, "memory");
    let table = written(&rt, alloc, &empty, &writes);
    check_table(&rt, alloc, &table, &writes, 300);
}

#[test]
fn writes_leave_shared_pages_alone(rt: HostRuntime) {
    let alloc = rt.alloc();
    let writes = scrambled(&rt, alloc, 400);
    let empty = Table::empty(alloc).expect(&rt, "memory");
    assert!(rt; writes.len() >= 200);
    let (first, rest) = writes.as_slice().split_at(200);
    let early = written(&rt, alloc, &empty, first);
    let later = written(&rt, alloc, &early, rest);
    check_table(&rt, alloc, &early, first, 200);
    check_nodes(&rt, &later, &writes);
    check_nodes(&rt, &empty, &[]);
}

/// The nodes below a number, in their order.
fn in_order(rt: &impl Abort, alloc: Global, count: usize) -> Vec<usize> {
    let mut writes = Vec::new(alloc);
    for node in 0..count {
        writes.push(node).expect(rt, "memory");
    }
    writes
}

#[test]
fn pages_that_grow_at_the_end(rt: HostRuntime) {
    let alloc = rt.alloc();
    let writes = in_order(&rt, alloc, 200);
    let empty = Table::empty(alloc).expect(&rt, "memory");
    let table = written(&rt, alloc, &empty, &writes);
    check_table(&rt, alloc, &table, &writes, 200);
}

// So many nodes, each written once in a scrambled order, have more pages than a row takes. A write's place in that order and
// its node give each other.

const MANY: usize = 4500;

/// The number of the write of a node, 0 behind the last node.
fn number_of(node: usize) -> u64 {
    if node < MANY {
        (node * 3479 % MANY) as u64 + 1
    } else {
        0
    }
}

/// The table of all these nodes.
fn many_written(rt: &impl Abort, alloc: Global) -> Table {
    let mut table = Table::empty(alloc).expect(rt, "memory");
    for at in 0..MANY {
        let node = at % MANY * 119 % MANY;
        table = put_value(rt, alloc, &table, node, UnitValue::Gone);
    }
    table
}

/// The node is found, and the next behind it.
fn check_many(rt: &impl Abort, table: &Table, node: usize) {
    let key = key_of(rt, node);
    let next = number_of(node.saturating_add(1));
    assert_eq!(rt; number(table.find(&key)), number_of(node));
    assert_eq!(rt; number(table.next_after(Some(&key))), next);
}

/// The numbers of the units are those behind a number, one after another.
fn check_in_a_row(rt: &impl Abort, units: &[Unit], from: u64) {
    let mut last = from;
    for unit in units {
        last = last.saturating_add(1);
        assert_eq!(rt; unit.usn, last);
    }
}

/// The run of changes above a number has as many units as there is room for: the value of each takes one byte.
fn check_many_run(rt: &impl Abort, table: &Table, from: u64) {
    let run = changes_of(rt, table, from);
    let behind = MANY.saturating_sub(from as usize);
    assert_eq!(rt; run.units.len(), behind.min(61_000 / (HEAD + 1)));
    check_in_a_row(rt, run.units.as_slice(), from);
}

#[test]
fn rows_of_many_pages(rt: HostRuntime) {
    let alloc = rt.alloc();
    let table = many_written(&rt, alloc);
    assert_eq!(&rt; table.count(), MANY);
    for node in 0..MANY {
        check_many(&rt, &table, node);
    }
    for step in 0..46u64 {
        check_many_run(&rt, &table, step * 100 % 4501);
    }
}
