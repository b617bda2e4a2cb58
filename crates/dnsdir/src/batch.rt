ghost use Rattle.std.specs.Prelude.{◌≡◌, ◌≢◌, ◌≤◌, ◌↔◌, ℕ, List, false, map};
ghost use Rattle.dn_io.specs.Outside.{Rose, WhereTold};
ghost use Rattle.dn_world.specs.declared.event.WorldEvent.{WorldEvent};
ghost use Rattle.dn_world.specs.Aging.{TraceAges, nothing_given};
ghost use Rattle.dn_world.specs.Datagram.{IsReadRightly, reply_to};
ghost use Rattle.dn_world.specs.Laws.{AnswersAlike};
ghost use Rattle.dn_world.specs.Runs.{AreProper, IsValidWorld, trace, wrun};
ghost use Rattle.dn_script.specs.Laws.{IsOneRun, PassesAreWhole};
ghost use Rattle.dn_script.specs.Play.{play};
ghost use Rattle.dn_lines.specs.ValueLaws.{PackedIsShown, ShownIsPacked};
ghost use Rattle.dnsdir.specs.Batch.{EndedAs, IsDoneOrWant, IsValid, is_batch};
ghost use Rattle.dn_command.specs.Command.{command_in};

use dn_command::{Command, command_of};
use dn_io::{Sink, Source, Status};
use dn_script::{
    a_play_is_one_run, pack, packed_texts_are_one, packed_values_are_shown, replay, show,
    shown_texts_are_one, shown_values_are_packed, whole_passes_end,
};
use dn_world::{
    replicas_answer_alike, replies_are_read_rightly, worlds_stay_valid, zones_age_rightly,
};
use std::alloc::Global;

/// Does what the words of the command line ask for, but for serving: reads the source, writes to the sink, and answers
/// how it ended.
pub fn batch<S: Source, K: Sink>(
    alloc: Global,
    words: &[&str],
    source: &mut S,
    sink: &mut K,
) -> Status
    // Where the source tells: `replay` wrote the transcript of the script that was read, `show` and `pack` what the lines that
    // were read give; whole where each line is valid, and up to the first line that isn't, or is over-long; a front of it where a
    // read, a write or a growth failed.
    ensures written { WhereTold (S.left source.old) (S.left source.new) (λ before now.
        EndedAs (command_in (map (λ word. word.now) words.now)) before result now (K.written sink.old) (K.written sink.new)) }

    // Usage is answered exactly where the words are no command of these, and nothing was read or written then.
    ensures usage { (result ≡ Status.Usage) ↔ (is_batch (command_in (map (λ word. word.now) words.now)) ≡ false) }
    ensures nothing { result ≡ Status.Usage → (source.new ≡ source.old) × (sink.new ≡ sink.old) }

    // A fault of reading or writing has its cause in the source or the sink.
    ensures read { result ≡ Status.ReadFault → Rose (S.faults source.old) (S.faults source.new) }
    ensures write { result ≡ Status.WriteFault → Rose (K.faults sink.old) (K.faults sink.new) }
    ensures link { result ≢ Status.LinkFault }
    // Neither count of faults ever falls.
    ensures reads { S.faults source.old ≤ S.faults source.new }
    ensures writes { K.faults sink.old ≤ K.faults sink.new }

    // Where each line is valid and neither count has risen, it is done, or wanted memory.
    ensures complete { WhereTold (S.left source.old) (S.left source.new) (λ before now.
        IsValid (command_in (map (λ word. word.now) words.now)) before
        → ¬ Rose (S.faults source.old) (S.faults source.new)
        → ¬ Rose (K.faults sink.old) (K.faults sink.new)
        → IsDoneOrWant result) }

    // The play of a script, of which `written` speaks, is one run: each of its events is proper, and each line was answered in
    // the world of the events before it. The last of these worlds is valid, its replicas answer alike, and its replies are read
    // rightly. In the play's trace, as in that of whatever events come behind it, each event ages the zone that it reaches
    // rightly.
    ensures run { (script : List ℕ) → IsOneRun (play script) }

    // So it is behind any list of proper events, in any order: in the world that they run to, two replicas whose units of a
    // zone are equal by key, stamp and value answer each query alike, whatever its bytes: what both reply to a datagram that
    // reaches this zone is read as the same reply, with number, RD, question, opcode, flags, code and sections, save for the
    // primary server and the serial of each SOA.
    ensures alike { (list : List WorldEvent) → AreProper list → AnswersAlike (wrun list) }

    // In the trace of every list of events each one changes no zone but the one that it reaches. Before each step of a pass that
    // isn't void that zone is due at the pass's hour; the records that the step takes away are stale at that hour, and no other
    // record changes; and a finished pass leaves no stale record on a node that nothing but its own steps has touched since it
    // began, save those at their last version, which it counted. A begin, and a step that is void or idle, change no record.
    ensures aging { (list : List WorldEvent) → TraceAges nothing_given (trace list) }

    // The events of a whole pass, in the world behind any events, are its begin and, where that is answered `begun`, steps of
    // which each but the last is answered `moved`, and the last isn't.
    ensures passes { (list : List WorldEvent) → PassesAreWhole (wrun list) }

    // Replicas have different ids and hosts that are names. Each zone is valid (its units for its apex, their data for their
    // types, under names, with different numbers up to its change count) and belongs to a replica, which has no other with the
    // same apex. Each packet that was sent is valid, from one replica to another, and both have its zone. There are at most 64
    // replicas, 16 zones of a replica and 2^32 - 1 packets.
    ensures valid { (list : List WorldEvent) → AreProper list → IsValidWorld (wrun list) }

    // What a replica there replies to the bytes of a datagram, whatever they are, is read by the grammar of replies as what it
    // has to say: to a query that reaches a zone the zone's reply, with the query's number, RD and question; else nothing, or a
    // header alone with the request's number, opcode and RD, and the code.
    ensures replies { (list : List WorldEvent) → AreProper list → (at : ℕ) (request : List ℕ)
        → IsReadRightly (wrun list) at request (reply_to (wrun list) at request) }

    // What `show` writes of the bytes of a value is packed into the line of the same bytes, and that line is shown as what `show`
    // wrote, for every value.
    ensures packed { ShownIsPacked }
    ensures shown { PackedIsShown }
{
    a_play_is_one_run();
    worlds_stay_valid();
    replicas_answer_alike();
    zones_age_rightly();
    whole_passes_end();
    replies_are_read_rightly();
    shown_texts_are_one();
    packed_texts_are_one();
    shown_values_are_packed();
    packed_values_are_shown();
    match command_of(words) {
        Command::Replay => replay(alloc, source, sink),
        Command::Show => show(alloc, source, sink),
        Command::Pack => pack(alloc, source, sink),
        _ => Status::Usage,
    }
}
