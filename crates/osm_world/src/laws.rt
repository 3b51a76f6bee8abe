//! Laws of runs and of histories, which hold whatever the code does.

ghost use Rattle.std.specs.Prelude.{◌≡◌, ℕ, ◌+◌, ◌<◌, List, [], ◌∷◌, ◌++◌, length, slice_index};
ghost use Rattle.std.specs.Prelude.{◌≤◌, ◌↔◌, Contains, IsSome, true, false};
ghost use Rattle.std.specs.List.Sorted.{IsStrictlySortedBy};
ghost use Rattle.std.specs.Ordering.{nat_cmp};
ghost use Rattle.osm_holding.specs.Holding.{window};
ghost use Rattle.osm_model.specs.Filter.{FilterValue, everything};
ghost use Rattle.osm_o5c.specs.Written.{o5c_text};
ghost use Rattle.osm_opl.specs.Written.{opl_text};
ghost use Rattle.osm_state.specs.StateText.{state_text};
ghost use Rattle.osm_follow.specs.Follower.{held_at, is_held};
ghost use Rattle.osm_publisher.specs.Published.{PublishedValue, texts_at};
ghost use Rattle.osm_follow.specs.Reach.{Reaches, missing_numbers, numbers};
ghost use Rattle.osm_follow.specs.View.{ViewValue};
ghost use Rattle.osm_world.specs.Alike.{AcceptAlike, AreAlike, IsExtract};
ghost use Rattle.osm_world.specs.Correct.{IsInStep, IsRun};
ghost use Rattle.osm_world.specs.Due.{due_delivery};
ghost use Rattle.osm_world.specs.Deliveries.{IsSubsequence, delivered_of, is_confirmed};
ghost use Rattle.osm_world.specs.History.{History, accepted_of, is_broken, published_of};
ghost use Rattle.osm_world.specs.History.{reported_of, start_of};
ghost use Rattle.osm_world.specs.Legal.{Allowed, IsLegal, IsNumber, is_want_of_memory};
ghost use Rattle.osm_world.specs.New.{IsNew};
ghost use Rattle.osm_world.specs.Step.{Step};
ghost use Rattle.osm_world.specs.World.{WorldValue, new_world_of};
ghost use Rattle.osm_world.specs.declared.event.Event.{Event};
ghost use Rattle.osm_world.specs.declared.event.Form.{Form};
ghost use Rattle.osm_world.specs.declared.event.Reply.{Reply};

use osm_model::form::ChangeForm;
use osm_o5c::o5c::O5c;
use osm_opl::opl::Opl;
use osm_save::save::laws_of_saves;
use osm_state::laws::laws_of_state;

/// Tells the prover the laws of runs: a run of no events gives exactly the new world with its
/// filter, and a run with one more step is a run. So a caller may step a world itself, and keep
/// only the replies that it needs. Does nothing at run time.
pub fn laws_of_runs()
    ensures first { (f : FilterValue) → IsRun f [] [] (new_world_of f) }
    ensures only { (f : FilterValue) (w : WorldValue) → IsRun f [] [] w → IsNew f w }
    ensures next { (f : FilterValue) (events : List Event) (replies : List Reply) (w : WorldValue)
        (e : Event) (r : Reply) (v : WorldValue) → IsRun f events replies w → Step w e r v
        → IsRun f (events ++ e ∷ []) (replies ++ r ∷ []) v }
{
    Opl::laws();
    O5c::laws();
    laws_of_state();
    laws_of_saves();
}

/// Tells the prover that after a history at most one reply to an event is allowed, apart from the
/// replies that memory was refused. For a delivery, this reply is the first row of `due_delivery`
/// that applies. Does nothing at run time.
pub fn laws_of_replies()
    ensures one_reply { (f : FilterValue) (h : History) (e : Event) (q r : Reply)
        → Allowed f h e q → Allowed f h e r
        → is_want_of_memory q ≡ false → is_want_of_memory r ≡ false → q ≡ r }
    ensures delivery { (f : FilterValue) (h : History) (k n high : ℕ) (form : Form) (r : Reply)
        → IsNumber h n → Reaches (accepted_of h) k high → Allowed f h (Event.Deliver k form) r
        → is_want_of_memory r ≡ false → r ≡ due_delivery h k n high }
{}

/// Tells the prover that a legal history has reported as applied exactly the numbers after its
/// start up to its number, each once and in order, unless its follower is broken. The reports are
/// those since the last restart or beginning. Does nothing at run time.
pub fn laws_of_histories()
    ensures count { (f : FilterValue) (h : History) (n : ℕ) → IsLegal f h → is_broken h ≡ false
        → IsNumber h n → start_of h + length (reported_of h) ≡ n }
    ensures order { (f : FilterValue) (h : History) (n i : ℕ) → IsLegal f h → is_broken h ≡ false
        → IsNumber h n → i < length (reported_of h)
        → slice_index (reported_of h) i ≡ start_of h + i + 1 }
{}

/// Tells the prover which deliveries a legal history has accepted, and that it catches up. The
/// history has accepted exactly the numbers above its start that were delivered since the last
/// restart or beginning and answered `Held`, `Applied`, `Old` or `Again`. Suppose that since then
/// the numbers after its start up to some number were delivered in order, with anything in between.
/// Suppose also that none of these deliveries was of an unpublished number or was refused for
/// memory. Then the history has reached that number, unless its follower is broken. For the first
/// 64 numbers after its start, the order of the deliveries doesn't matter. Does nothing at run
/// time.
pub fn laws_of_progress()
    ensures accepted { (f : FilterValue) (h : History) (j : ℕ) → IsLegal f h
        → (accepted_of h j ≡ true) ↔ ((start_of h < j) × (is_confirmed h j ≡ true)) }
    ensures catches_up { (f : FilterValue) (h : History) (n count : ℕ) → IsLegal f h
        → is_broken h ≡ false
        → IsNumber h n → IsSubsequence (numbers (start_of h) count) (delivered_of h)
        → start_of h + count ≤ n }
    ensures any_order { (f : FilterValue) (h : History) (n count : ℕ) → IsLegal f h
        → is_broken h ≡ false
        → IsNumber h n → count ≤ window
        → ((j : ℕ) → start_of h < j → j ≤ start_of h + count → Contains (delivered_of h) j)
        → start_of h + count ≤ n }
{}

/// Tells the prover that a world in step with its history has archived one set of texts for each
/// published sequence. The texts are those of its number, counted from 1: the state text, and the
/// changes as an o5c file and as an OPL file. Does nothing at run time.
pub fn laws_of_archives()
    ensures count { (f : FilterValue) (h : History) (w : WorldValue) → IsInStep f h w
        → length w.archive ≡ length (published_of h) }
    ensures texts { (f : FilterValue) (h : History) (w : WorldValue)
        (before after : List PublishedValue) (p : PublishedValue) → IsInStep f h w
        → published_of h ≡ before ++ p ∷ after
        → texts_at w.archive (length before + 1) ≡ record {
          number = length before + 1;
          state = state_text (record { sequence = length before + 1; time = p.time });
          o5c = o5c_text p.changes;
          opl = opl_text p.changes;
        } }
{}

/// Tells the prover that a follower that isn't broken is at the number of its history, and holds
/// exactly the accepted numbers above its own. These come after the next number, and are among the
/// 64 after the follower's own, so they are at most 63. The numbers that the follower names as
/// missing are those that weren't accepted. Does nothing at run time.
pub fn laws_of_holding()
    ensures number { (f : FilterValue) (h : History) (w : WorldValue) → IsInStep f h w
        → is_broken h ≡ false → IsNumber h w.follower.number }
    ensures held { (f : FilterValue) (h : History) (w : WorldValue) (j : ℕ) → IsInStep f h w
        → is_broken h ≡ false
        → IsSome (held_at w.follower j)
        ↔ ((w.follower.number < j) × (accepted_of h j ≡ true)) }
    ensures window { (f : FilterValue) (h : History) (w : WorldValue) (j : ℕ) → IsInStep f h w
        → is_broken h ≡ false
        → IsSome (held_at w.follower j)
        → (w.follower.number + 1 < j) × (j ≤ w.follower.number + window) }
    ensures few { (f : FilterValue) (h : History) (w : WorldValue) (js : List ℕ) → IsInStep f h w
        → is_broken h ≡ false → IsStrictlySortedBy nat_cmp js
        → ((j : ℕ) → Contains js j → IsSome (held_at w.follower j)) → length js < window }
    ensures missing { (f : FilterValue) (h : History) (w : WorldValue) (top : ℕ) → IsInStep f h w
        → is_broken h ≡ false → missing_numbers (is_held w.follower) w.follower.number top
        ≡ missing_numbers (accepted_of h) w.follower.number top }
{}

/// Tells the prover that a legal history shows only published numbers, and that a filter changes
/// only the objects. The numbers held come after the next number, and are among the 64 after the
/// number shown, so they are at most 63. With a filter, a history may show exactly the objects that
/// the filter keeps of those that it may show without one; all else is the same. Does nothing at
/// run time.
pub fn laws_of_views()
    ensures number { (f : FilterValue) (h : History) (v : ViewValue) → IsLegal f h
        → Allowed f h Event.Show (Reply.Shown v) → v.number ≤ length (published_of h) }
    ensures held { (f : FilterValue) (h : History) (v : ViewValue) (j : ℕ) → IsLegal f h
        → Allowed f h Event.Show (Reply.Shown v) → Contains v.held j
        → (v.number + 1 < j) × (j ≤ v.number + window) × (j ≤ length (published_of h)) }
    ensures few { (f : FilterValue) (h : History) (v : ViewValue) → IsLegal f h
        → Allowed f h Event.Show (Reply.Shown v) → length v.held < window }
    ensures extract { (f : FilterValue) (h : History) (v w : ViewValue)
        → Allowed everything h Event.Show (Reply.Shown v) → Allowed f h Event.Show (Reply.Shown w)
        → IsExtract f v w }
{}

/// Tells the prover that neither the order of deliveries nor repeats matter. If two histories
/// published and accepted the same from the same start and with the same base, followers with the
/// same filter are the same, and so are the views that they show. Does nothing at run time.
pub fn laws_of_order()
    ensures followers { (f : FilterValue) (g h : History) (v w : WorldValue) → AcceptAlike g h
        → IsInStep f g v → IsInStep f h w → AreAlike v.follower w.follower }
    ensures views { (f : FilterValue) (g h : History) (v w : ViewValue) → AcceptAlike g h
        → Allowed f g Event.Show (Reply.Shown v) → Allowed f h Event.Show (Reply.Shown w)
        → v ≡ w }
{}
