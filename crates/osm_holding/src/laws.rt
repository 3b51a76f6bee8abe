//! Laws of holding areas, which hold whatever the code does.

ghost use Rattle.osm_holding.specs.HoldingLaws.{AtMostWindow, FewerThanWindow, OneArea};

/// Tells the prover the laws of holding areas: two areas are equal if they are at the same number
/// and hold the same at each number. An area holds at most 64 sequences, and at most 63 if it
/// doesn't hold the next one. Does nothing at run time.
pub fn laws_of_holding()
    ensures one_area { OneArea }
    ensures few { AtMostWindow }
    ensures fewer { FewerThanWindow }
{}
