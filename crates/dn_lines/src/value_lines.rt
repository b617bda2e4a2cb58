//! `show` and `pack`: each line of an input gives its output by itself.

ghost use Rattle.std.specs.Prelude.{◌≡◌, ◌≢◌, ◌≤◌, ⊤};
ghost use Rattle.dn_io.specs.Outside.{Rose, WhereTold};
ghost use Rattle.dn_lines.specs.Said.{EndedLines, by_itself};
ghost use Rattle.dn_lines.specs.Values.{IsPacked, IsShown};

use crate::bad::Bad;
use crate::lines_run::{LineCommand, run_lines};
use crate::packing::packed_line;
use crate::showing::shown_line;
use crate::words::work_of;
use dn_io::{List, Sink, Source, Status};
use std::alloc::Global;
use std::marker::Model;

// The command `show`, which has no state.
#[derive(Drop)]
struct ShowLines;

impl Model for ShowLines {
    ghost Value = { Unit {0} };

    ghost view = { λ _. tt };
}

impl LineCommand for ShowLines {
    ghost ready = { λ _. ⊤ };

    ghost gives = { by_itself IsShown };

    fn output(&mut self, alloc: Global, text: &[u8]) -> Result<List<u8>, Bad> {
        match work_of(alloc, text)? {
            Some(words) => shown_line(alloc, &words),
            None => Ok(List::new(alloc)),
        }
    }
}

// The command `pack`, which has none either.
#[derive(Drop)]
struct PackLines;

impl Model for PackLines {
    ghost Value = { Unit {0} };

    ghost view = { λ _. tt };
}

impl LineCommand for PackLines {
    ghost ready = { λ _. ⊤ };

    ghost gives = { by_itself IsPacked };

    fn output(&mut self, alloc: Global, text: &[u8]) -> Result<List<u8>, Bad> {
        match work_of(alloc, text)? {
            Some(_) => packed_line(alloc, text),
            None => Ok(List::new(alloc)),
        }
    }
}

/// Shows stored values: reads lines `record HEX` and `property HEX` (MS-DNSP 2.2.2.2 and 2.3.2.1) from the source, and writes to
/// the sink the text of the value that the bytes of each are, or of what is wrong first with them.
pub fn show<S: Source, K: Sink>(alloc: Global, source: &mut S, sink: &mut K) -> Status
    // Where the source tells, what was written is what its lines give, by how it ended.
    ensures shown { WhereTold (S.left source.old) (S.left source.new) (λ before now.
        EndedLines IsShown before result now (K.written sink.old) (K.written sink.new)) }
    ensures read { result ≡ Status.ReadFault → Rose (S.faults source.old) (S.faults source.new) }
    ensures write { result ≡ Status.WriteFault → Rose (K.faults sink.old) (K.faults sink.new) }
    ensures usage { result ≢ Status.Usage }
    ensures link { result ≢ Status.LinkFault }
    ensures reads { S.faults source.old ≤ S.faults source.new }
    ensures writes { K.faults sink.old ≤ K.faults sink.new }
{
    run_lines(alloc, &mut ShowLines, source, sink)
}

/// Packs stored values: reads lines of records and properties, as [`show`] writes them, from the source, and writes to the sink
/// a line `record HEX` or `property HEX` with the bytes of each.
pub fn pack<S: Source, K: Sink>(alloc: Global, source: &mut S, sink: &mut K) -> Status
    // Where the source tells, what was written is what its lines give, by how it ended.
    ensures packed { WhereTold (S.left source.old) (S.left source.new) (λ before now.
        EndedLines IsPacked before result now (K.written sink.old) (K.written sink.new)) }
    ensures read { result ≡ Status.ReadFault → Rose (S.faults source.old) (S.faults source.new) }
    ensures write { result ≡ Status.WriteFault → Rose (K.faults sink.old) (K.faults sink.new) }
    ensures usage { result ≢ Status.Usage }
    ensures link { result ≢ Status.LinkFault }
    ensures reads { S.faults source.old ≤ S.faults source.new }
    ensures writes { K.faults sink.old ≤ K.faults sink.new }
{
    run_lines(alloc, &mut PackLines, source, sink)
}
