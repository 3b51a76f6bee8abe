//! Laws of tallies, which hold whatever the code does.

ghost use Rattle.osm_range.specs.TallyLaws.{AddUp, AreTheOnly, CountAll, OneChoice, RangesAddUp};

/// Tells the prover that a word is that of one choice of columns, that changes have one list of
/// rows, and that all rows together count each change once. Except for changesets, the rows of some
/// changes and of those after them add up, and so do those of the numbers N to K of a folder and of
/// K + 1 to M. Does nothing at run time.
pub fn laws_of_tallies()
    ensures columns { OneChoice }
    ensures one { AreTheOnly }
    ensures all { CountAll }
    ensures parts { AddUp }
    ensures ranges { RangesAddUp }
{}
