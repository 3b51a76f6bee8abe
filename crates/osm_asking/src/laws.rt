//! Laws of fingerprints, which hold whatever the code does.

ghost use Rattle.osm_asking.specs.Laws.{KeyIsNamed};

/// States that the line of a block begins with the key of its first object, as OPL writes it. Does
/// nothing at run time.
pub fn laws_of_fingerprints()
    ensures named { KeyIsNamed }
{}
