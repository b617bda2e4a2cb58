ghost use Rattle.std.specs.Prelude.{◌≡◌, ℕ, List, if◌then◌else◌};
ghost use Rattle.dn_name.specs.Name.{IsName, Labels};
ghost use Rattle.dn_stamp.specs.declared.stamp.ReplicaId.{ReplicaId};
ghost use Rattle.dn_stamp.specs.Stamp.{is_id};
ghost use Rattle.dn_link.specs.Sent.{IsValidRun};
ghost use Rattle.dn_zone.specs.declared.event.Event.{Event};
ghost use Rattle.dn_zone.specs.State.{ZoneState};
ghost use Rattle.dn_zone.specs.Creation.{created, joined_zone};
ghost use Rattle.dn_zone.specs.Merge.{changes_of, cursor_of, with_cursor};
ghost use Rattle.dn_zone.specs.Valid.{IsValidZone, Meets};
ghost use Rattle.dn_zone.specs.Writes.{TakesItsWrites};
ghost use Rattle.dn_zone.specs.Zone.{zstep};

/// The law that zones stay valid: a new zone and one that is copied are valid, each event that a valid zone may meet leaves it
/// valid, and the changes that it sends are valid. It stands in the contract, and nothing runs.
pub fn zones_stay_valid()
    ensures created { (id : ReplicaId) (host apex mailbox : Labels) (ticks : ℕ) → IsName host → IsName apex → IsName mailbox → IsValidZone (created id host apex mailbox ticks) }
    ensures joined { (id : ReplicaId) (host apex : Labels) → IsName host → IsName apex → IsValidZone (joined_zone id host apex) }
    ensures events { (zone : ZoneState) (event : Event) → IsValidZone zone → Meets zone event → IsValidZone (zstep zone event).0 }
    ensures changes { (zone : ZoneState) (after : ℕ) → IsValidZone zone → IsValidRun (changes_of zone.table zone.apex zone.id after) }
{}

/// The law of cursors: they are a function of the supplier. Moving one moves that one alone, and one that stays where it is
/// changes nothing. It stands in the contract, and nothing runs.
pub fn cursors_move_apart()
    ensures moved { (cursors : List (ReplicaId × ℕ)) (supplier other : ReplicaId) (seen : ℕ) → cursor_of other (with_cursor supplier seen cursors) ≡ (if is_id other supplier then seen else cursor_of other cursors) }
    ensures kept { (cursors : List (ReplicaId × ℕ)) (supplier : ReplicaId) → with_cursor supplier (cursor_of supplier cursors) cursors ≡ cursors }
{}

/// The law of an event's writes: the table behind each event of a zone is the table before with the writes taken that the event
/// makes, one after another. It stands in the contract, and nothing runs.
pub fn events_take_their_writes()
    ensures { (zone : ZoneState) (event : Event) → TakesItsWrites zone event }
{}
