//! Laws of histories and of published sequences, which hold whatever the code does.

ghost use Rattle.std.specs.Prelude.{◌≡◌, ℕ, List, ◌<◌, ◌≤◌, ◌++◌, ◌∷◌, [], length};
ghost use Rattle.osm_model.specs.Filter.{FilterValue};
ghost use Rattle.osm_save.specs.Head.{head_of};
ghost use Rattle.osm_save.specs.declared.save.Saved.{Saved};
ghost use Rattle.osm_publisher.specs.Published.{PublishedValue};
ghost use Rattle.osm_store.specs.Files.{Files};
ghost use Rattle.osm_runs.specs.Following.{IsInStep, IsSaved};
ghost use Rattle.osm_runs.specs.Keeping.{IsKept};
ghost use Rattle.osm_operations.specs.Allowed.{AreAllowed};
ghost use Rattle.osm_operations.specs.History.{History, Pair, published_of};
ghost use Rattle.osm_operations.specs.Publications.{Answers, AreOfNumber, IsAnswered};
ghost use Rattle.osm_operations.specs.Publications.{IsPublishedOnce};

/// States that in an allowed history exactly one run published each number, and that this run is
/// the first that answered the number. Each run that answers a number was asked to publish it with
/// the same changes at the same time. Further publications of that number publish nothing. Does
/// nothing at run time.
pub fn laws_of_publications()
    ensures once { (given : FilterValue) (extract : List ℕ) (h : History) (n : ℕ)
        → AreAllowed given extract h → 0 < n → n ≤ length (published_of h)
        → IsPublishedOnce h n }
    ensures answered { (given : FilterValue) (extract : List ℕ) (h later : History) (pair : Pair)
        (before : History) (p : PublishedValue)
        → AreAllowed given extract h → Answers h later pair before p → IsAnswered h p }
    ensures repeats { (given : FilterValue) (extract : List ℕ) (later : History) (pair : Pair)
        (before : History) (p : PublishedValue)
        → AreAllowed given extract (pair ∷ before) → Answers (pair ∷ before) [] pair before p
        → AreOfNumber p.number later
        → published_of (later ++ pair ∷ before) ≡ published_of (pair ∷ before) }
{}

/// States that under one filter, the head of a save that is in step with a folder's sequences
/// determines everything in the save. So two saves with the same head hold the same, and a journal
/// that belongs to one belongs to the other. A save without its journal has the base of the two
/// files together, and no later number. Does nothing at run time.
pub fn laws_of_saves()
    ensures one { (published : List PublishedValue) (given : FilterValue) (v w : Saved)
        → IsInStep published given v → IsInStep published given w → head_of v ≡ head_of w
        → v ≡ w }
    ensures older { (given : FilterValue) (save : List ℕ) (files : Files) (v w : Saved)
        → IsKept given save files v → IsSaved given (files save) w
        → (w.base ≡ v.base) × (w.number ≤ v.number) }
{}
