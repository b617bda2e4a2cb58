//! What holds of the play of every script.

ghost use Rattle.std.specs.Prelude.{◌≡◌, ℕ, false, List};
ghost use Rattle.dn_name.specs.Name.{Labels};
ghost use Rattle.dn_world.specs.declared.event.WorldAnswer.TheVariants.{Made};
ghost use Rattle.dn_world.specs.declared.event.WorldEvent.{WorldEvent};
ghost use Rattle.dn_world.specs.Runs.{run_from, wrun};
ghost use Rattle.dn_script.specs.Laws.{IsOneRun, PassesAreWhole};
ghost use Rattle.dn_script.specs.Passes.{is_moved, pass_events};
ghost use Rattle.dn_script.specs.Play.{play};

use dn_world::{
    replicas_answer_alike, replies_are_read_rightly, worlds_stay_valid, zones_age_rightly,
};

/// The law that the play of a script is one run: each of its events is proper, and each line was answered in the world of the
/// events before it. The last of these worlds is valid; in it two replicas whose units of a zone are equal by key, stamp and
/// value give the same reply to each question, save for the primary server and the serial of an SOA; and what a replica replies
/// to the bytes of a datagram is read by the grammar of replies as what it has to say. In the play's trace, and in that of
/// whatever events come behind it, each event ages the zone that it reaches rightly. It stands in the contract, and nothing is
/// changed.
pub fn a_play_is_one_run()
    ensures { (script : List ℕ) → IsOneRun (play script) }
{
    worlds_stay_valid();
    replicas_answer_alike();
    zones_age_rightly();
    replies_are_read_rightly();
}

/// The law of a whole pass over a zone, in the world behind any events: its events are the one list that is its begin and,
/// where that is answered `begun`, steps of which each but the last is answered `moved`, and the last isn't. So it comes to
/// its end. It stands in the contract, and nothing runs.
pub fn whole_passes_end()
    ensures whole { (list : List WorldEvent) → PassesAreWhole (wrun list) }
    ensures last { (list : List WorldEvent) (at moment : ℕ) (apex : Labels) → is_moved (run_from (wrun list, Made) (pass_events (wrun list) at apex moment)).1 ≡ false }
{}
