ghost use Rattle.dn_link.specs.Sent.{CanBeTaken, IsValidRun, Run};

/// The law that a value of `Changes` may be any valid changes: its invariant admits each valid run. It stands in the contract,
/// and nothing runs.
pub fn valid_changes_can_be_taken()
    ensures { (run : Run) → IsValidRun run → CanBeTaken run.units }
{}
