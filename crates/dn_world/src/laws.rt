//! What holds of the worlds that lists of events run to.

ghost use Rattle.std.specs.Prelude.{List, ℕ};
ghost use Rattle.dn_world.specs.Datagram.{IsReadRightly, reply_to};
ghost use Rattle.dn_world.specs.Aging.{TraceAges, nothing_given};
ghost use Rattle.dn_world.specs.Laws.{AgesRightly, AnswersAlike};
ghost use Rattle.dn_world.specs.Runs.{AreProper, IsValidWorld, trace, wrun};
ghost use Rattle.dn_world.specs.declared.event.WorldEvent.{WorldEvent};
ghost use Rattle.dn_world.specs.State.{WorldState};

use dn_answer::{answers_are_sendable, equal_replicas_reply_alike};

/// The law that proper events, in any order, run to a valid world: replicas have different ids and hosts that are names; each
/// zone is valid and belongs to a replica, which has no other with the same apex; each packet that was sent is valid, and its
/// sender and its receiver are two replicas that have its zone; and there are no more of them than the limits say. It stands
/// in the contract, and nothing runs.
pub fn worlds_stay_valid()
    ensures { (list : List WorldEvent) → AreProper list → IsValidWorld (wrun list) }
{}

/// The law that in the world behind any proper events two replicas whose units of a zone are equal by key, stamp and value
/// reply to the bytes of each query in bytes that are read as the same reply, number, RD, question, opcode, flags and all three
/// sections, save for the primary server and the serial of an SOA. It stands in the contract, and nothing is changed.
pub fn replicas_answer_alike()
    ensures { (list : List WorldEvent) → AreProper list → AnswersAlike (wrun list) }
{
    equal_replicas_reply_alike();
    worlds_stay_valid();
}

/// The law of aging over the trace of any list of events, from the world without replicas on: each event changes no zone but
/// the one that it reaches. Before each step of a pass that isn't void that zone is due at the pass's hour, the records that
/// the step takes away are stale at that hour and no other record changes, and a finished pass leaves no stale record on a
/// node that nothing else has touched since it began, but for nodes at their last version, which it counted. A begin, and a
/// step that is void or idle, change no record. The same holds of each zone alone, whatever events may happen to it next.
/// It stands in the contract, and nothing runs.
pub fn zones_age_rightly()
    ensures runs { (list : List WorldEvent) → TraceAges nothing_given (trace list) }
    ensures zones { (list : List WorldEvent) → AgesRightly (wrun list) }
{}

/// The law that what a replica of a valid world replies to the bytes of a datagram, whatever they are, is read by the grammar
/// of replies as what it has to say: to a query that reaches a zone the zone's reply, with the query's number, RD and question.
/// It stands in the contract, and nothing is changed.
pub fn replies_are_read_rightly()
    ensures { (world : WorldState) → IsValidWorld world → (at : ℕ) (request : List ℕ) → IsReadRightly world at request (reply_to world at request) }
{
    answers_are_sendable();
}
