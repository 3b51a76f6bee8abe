//! Laws of beginnings, of deliveries and of restarts, which hold whatever the code does.

ghost use Rattle.std.specs.Prelude.{◌≡◌, ◌≢◌, ◌⊎◌, ℕ, ◌<◌, ◌≤◌, List, length, Option, Some};
ghost use Rattle.std.specs.Prelude.{Result, Ok, Err};
ghost use Rattle.osm_model.specs.Change.{ChangeValue};
ghost use Rattle.osm_model.specs.Data.{IsData};
ghost use Rattle.osm_model.specs.Filter.{AreKept, FilterValue, everything, kept};
ghost use Rattle.osm_model.specs.declared.kind.Key.{Key};
ghost use Rattle.osm_mirror.specs.Mirror.{object_at};
ghost use Rattle.osm_state.specs.StateText.{StateOf};
ghost use Rattle.osm_follow.specs.Begin.{kept_objects};
ghost use Rattle.osm_follow.specs.Delivery.{Delivers};
ghost use Rattle.osm_follow.specs.Follower.{FollowerValue, Follows};
ghost use Rattle.osm_publisher.specs.Published.{AreSequences, PublishedValue, changes_at};
ghost use Rattle.osm_publisher.specs.Published.{sequence_at};
ghost use Rattle.osm_save.specs.Save.{SpellsSave};
ghost use Rattle.osm_follow.specs.Restart.{Restarts, follower_of, saved_of};
ghost use Rattle.osm_follow.specs.declared.delivery.Delivered.{Delivered};
ghost use Rattle.osm_follow.specs.declared.delivery.DeliverError.{DeliverError};
ghost use Rattle.osm_follow.specs.declared.restart.RestartError.{RestartError};

use osm_model::form::ChangeForm;
use osm_save::save::laws_of_saves;
use osm_state::laws::laws_of_state;

/// Tells the prover what a follower begins with: exactly the given objects that its filter keeps.
/// If the filter keeps all of them, as the filter of all objects does, these are all of the given
/// objects. Does nothing at run time.
pub fn laws_of_beginnings()
    ensures at { (f : FilterValue) (objects : List ChangeValue) → IsData objects
        → (k : Key) → object_at (kept_objects f objects) k ≡ kept f (object_at objects) k }
    ensures kept { (f : FilterValue) (objects : List ChangeValue)
        → AreKept f (kept_objects f objects) }
    ensures all { (f : FilterValue) (objects : List ChangeValue)
        → AreKept f objects → kept_objects f objects ≡ objects }
    ensures everything { (objects : List ChangeValue) → IsData objects
        → AreKept everything objects }
{}

/// Tells the prover that a follower of what was published stays one after each delivery of a
/// published sequence, except after the answer `Broke`. The state text may be any text that names
/// the sequence with its time, and the bytes may be any that spell its changes. No delivery changes
/// the filter. Does nothing at run time.
pub fn laws_of_deliveries<F: ChangeForm>()
    ensures follows { (published : List PublishedValue) (f g : FollowerValue) (k : ℕ)
        (state bytes : List ℕ) (answer : Result Delivered DeliverError)
        → AreSequences published → Follows published f → 0 < k → k ≤ length published
        → StateOf state (record { sequence = k; time = (sequence_at published k).time })
        → F.spells bytes (changes_at published k)
        → Delivers F.spells F.fault_place f state bytes answer g
        → (answer ≡ Err DeliverError.Broke → ⊥) → Follows published g }
    ensures same_filter { (f g : FollowerValue) (state bytes : List ℕ)
        (answer : Result Delivered DeliverError)
        → Delivers F.spells F.fault_place f state bytes answer g → g.filter ≡ f.filter }
{
    F::laws();
    laws_of_state();
}

/// Tells the prover that a follower restarted from the save text of a follower with an equal filter
/// has that follower's number, time and mirror, and holds nothing, unless memory was refused. The
/// text of a follower with another filter is refused. No restart changes the filter. Does nothing
/// at run time.
pub fn laws_of_restarts()
    ensures as_saved { (saved f g : FollowerValue) (text : List ℕ)
        (answer : Result (Unit {0}) RestartError)
        → SpellsSave text (saved_of saved) → saved.filter ≡ f.filter
        → Restarts f (Some text) answer g
        → ((answer ≡ Ok tt) × (g ≡ follower_of (saved_of saved)))
        ⊎ (answer ≡ Err RestartError.WantOfMemory) }
    ensures other_filter { (saved f g : FollowerValue) (text : List ℕ)
        (answer : Result (Unit {0}) RestartError)
        → SpellsSave text (saved_of saved) → saved.filter ≢ f.filter
        → Restarts f (Some text) answer g
        → (answer ≡ Err RestartError.OtherFilter) ⊎ (answer ≡ Err RestartError.WantOfMemory) }
    ensures same_filter { (f g : FollowerValue) (text : Option (List ℕ))
        (answer : Result (Unit {0}) RestartError)
        → Restarts f text answer g → g.filter ≡ f.filter }
{
    laws_of_saves();
}
