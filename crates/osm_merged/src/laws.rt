//! Laws of a save text read with net changes laid over it, which hold whatever the code does.

ghost use Rattle.osm_mirror.specs.Mirror.{Counted};
ghost use Rattle.osm_model.specs.Change.{ChangeValue};
ghost use Rattle.osm_merged.specs.Laws.{AllIsSaved, BothAreNext, FirstIsGiven, SavedIsAhead};

/// States what the reading of an opened save text gives: what the text saves, with the entries laid
/// over it. An opened file that can be read to its end is a save text. If the values that a reading
/// will give are known, it gives the first of them next. Does nothing at run time.
pub fn laws_of_merged_saves()
    ensures found { SavedIsAhead }
    ensures made { AllIsSaved }
    ensures next { BothAreNext }
    ensures objects { FirstIsGiven ChangeValue }
    ensures counts { FirstIsGiven Counted }
{}
