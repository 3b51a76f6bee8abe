//! Laws of what a list of changes leaves, for the crates that apply change files.

ghost use Rattle.osm_model.specs.ContentLaws.{ContentsJoin, EditsAdd, KeysAreTold, KindsAreOrdered};

/// Tells the prover the laws of content: two lists of changes joined leave what the second list
/// makes of the content of the first, and their edits add up. Kinds are ordered as change files
/// list them, and two keys are equal exactly if their kinds and ids are. Does nothing at run time.
pub fn laws_of_content()
    ensures kinds { KindsAreOrdered }
    ensures keys { KeysAreTold }
    ensures contents { ContentsJoin }
    ensures edits { EditsAdd }
{}
