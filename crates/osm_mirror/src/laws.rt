//! Laws of mirrors, which hold whatever the code does.

ghost use Rattle.std.specs.Prelude.{List, Contains};
ghost use Rattle.osm_model.specs.Change.{ChangeValue};
ghost use Rattle.osm_model.specs.Filter.{FilterValue};
ghost use Rattle.osm_mirror.specs.Mirror.{IsKnownEdit, IsKnownRemoval, KeepsWhatIsLeft};
ghost use Rattle.osm_mirror.specs.Mirror.{MirrorValue};
ghost use Rattle.osm_mirror.specs.Mirror.{NeedsMemory, StaysKept};

/// Tells the prover when changes need no memory, and that an extract stays an extract. Changes by
/// users and in changesets that already have edits need no memory if all of them remove their
/// objects, as deletions do. Neither do they if the filter keeps all of them and the mirror has all
/// their objects. Changes applied to a mirror of what a filter keeps leave what the filter keeps of
/// that mirror with the changes applied. Does nothing at run time.
pub fn laws_of_mirrors()
    ensures removals { (f : FilterValue) (m : MirrorValue) (changes : List ChangeValue)
        → ((c : ChangeValue) → Contains changes c → IsKnownRemoval f m c)
        → NeedsMemory f m changes → ⊥ }
    ensures edits { (f : FilterValue) (m : MirrorValue) (changes : List ChangeValue)
        → ((c : ChangeValue) → Contains changes c → IsKnownEdit f m c)
        → NeedsMemory f m changes → ⊥ }
    ensures kept { StaysKept }
    ensures left { KeepsWhatIsLeft }
{}
