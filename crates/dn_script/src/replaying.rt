ghost use Rattle.std.specs.Prelude.{◌≡◌, ◌≢◌, ◌≤◌};
ghost use Rattle.dn_io.specs.Outside.{Rose, WhereTold};
ghost use Rattle.dn_world.specs.Runs.{IsValidWorld};
ghost use Rattle.dn_script.specs.Play.{Ended, play};
ghost use Rattle.dn_script.specs.Play.Stepped.{Replays};

use crate::script::Script;
use dn_io::{List, Sink, Source, Status};
use dn_lines::{Bad, LineCommand, run_lines};
use std::alloc::Global;

// A replay runs each line in the script so far.
impl LineCommand for Script {
    ghost ready = { λ script. IsValidWorld script.world };

    ghost gives = { Replays };

    fn output(&mut self, alloc: Global, text: &[u8]) -> Result<List<u8>, Bad> {
        self.step(alloc, text)
    }
}

/// Replays a script: reads it from the source, line by line, and writes its transcript to the sink.
pub fn replay<S: Source, K: Sink>(alloc: Global, source: &mut S, sink: &mut K) -> Status
    // Where the source tells, what was written is the transcript of the script that was read, by how it ended.
    ensures transcript { WhereTold (S.left source.old) (S.left source.new) (λ before now.
        Ended (play before) result now (K.written sink.old) (K.written sink.new)) }
    ensures read { result ≡ Status.ReadFault → Rose (S.faults source.old) (S.faults source.new) }
    ensures write { result ≡ Status.WriteFault → Rose (K.faults sink.old) (K.faults sink.new) }
    ensures usage { result ≢ Status.Usage }
    ensures link { result ≢ Status.LinkFault }
    ensures reads { S.faults source.old ≤ S.faults source.new }
    ensures writes { K.faults sink.old ≤ K.faults sink.new }
{
    let mut script = Script::opening(alloc);
    run_lines(alloc, &mut script, source, sink)
}
