//! Sources and sinks that fail at a call, below a script.

use crate::fixtures::{check_bytes, fails_at, list_of};
use dn_io::{List, MemSink, MemSource, Source, Status, SureSource};
use dn_script::replay;
use std::alloc::Global;
use std::process::Abort;

const SCRIPT: &[u8] = b"\
replica a 000102030405060708090a0b0c0d0e0f ns1.x
at 36000000000000
zone create a x admin.x
admin a x add h.x 3600 A 10.0.0.1
";

/// The script of a source has this status and this output, where the sink fails at these writes.
fn check_replay<S: Source>(
    rt: &impl Abort,
    alloc: Global,
    source: &mut S,
    fails: List<u64>,
    want: Status,
    output: &[u8],
) {
    let mut sink = MemSink::of(fails);
    assert_eq!(rt; replay(alloc, source, &mut sink), want);
    check_bytes(rt, sink.written(), output, "the script");
}

#[test]
fn a_script_that_cannot_be_read(rt: HostRuntime) {
    let alloc = rt.alloc();
    let mut source = MemSource::of(list_of(&rt, alloc, SCRIPT), fails_at(&rt, alloc, 0));
    check_replay(
        &rt,
        alloc,
        &mut source,
        List::new(alloc),
        Status::ReadFault,
        b"",
    );
}

#[test]
fn a_script_whose_output_cannot_be_written(rt: HostRuntime) {
    let alloc = rt.alloc();
    let mut source = MemSource::of(list_of(&rt, alloc, SCRIPT), List::new(alloc));
    check_replay(
        &rt,
        alloc,
        &mut source,
        fails_at(&rt, alloc, 0),
        Status::WriteFault,
        b"",
    );
}

#[test]
fn a_script_from_a_source_that_never_fails(rt: HostRuntime) {
    let alloc = rt.alloc();
    let mut source = SureSource::of(list_of(&rt, alloc, SCRIPT));
    check_replay(
        &rt,
        alloc,
        &mut source,
        List::new(alloc),
        Status::Done,
        b"ok 1\n",
    );
}
