//! Laws of changes that are handed on, which hold whatever the code does.

ghost use Rattle.osm_range.specs.ChangesLaws.{ApplyTheSame, AreTheOnly, KeepMirrorsUp};
ghost use Rattle.osm_range.specs.ChangesLaws.{LeaveTheSame};

/// Tells the prover that changes come to one list of changes to be handed on. Laid over objects by
/// who filters nothing, the list leaves what the changes leave under the filter. Applied without a
/// filter to the mirror of earlier changes under the filter, the list gives the objects of the
/// mirror of all changes under that filter. Does nothing at run time.
pub fn laws_of_changes()
    ensures one { AreTheOnly }
    ensures left { LeaveTheSame }
    ensures applied { ApplyTheSame }
    ensures kept_up { KeepMirrorsUp }
{}
