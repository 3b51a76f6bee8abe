//! Laws of net changes, which hold whatever the code does.

ghost use Rattle.osm_net.specs.NetLaws.{AppliedIsLaid, CountsAreFew, HaveRoom, HaveRoomForAll};
ghost use Rattle.osm_net.specs.NetLaws.{JoinedApplies, JoinedIsLaid, NetsApply, NetsJoin};
ghost use Rattle.osm_net.specs.NetLaws.{NoneChangesNothing, NothingIsNone, OneIsApplied};
ghost use Rattle.osm_net.specs.NetLaws.{StaysKeptBy, StaysMirror, StaysOrderly};

/// Tells the prover that net changes, laid over a mirror, give the mirror that applying the changes
/// in order gives, and no other. The net of no changes changes no mirror. A mirror with net changes
/// laid over it stays in order, within the limits and kept by its filter. No count of net changes
/// is above the number of changes, so there is room for more. Net changes with later net changes
/// appended are the net of all changes. Laid over a mirror, they give what the earlier ones and
/// then the later ones give. Does nothing at run time.
pub fn laws_of_nets()
    ensures laid { NetsApply }
    ensures same { OneIsApplied }
    ensures applied { AppliedIsLaid }
    ensures none { NothingIsNone }
    ensures unchanged { NoneChangesNothing }
    ensures orderly { StaysOrderly }
    ensures mirror { StaysMirror }
    ensures kept { StaysKeptBy }
    ensures few { CountsAreFew }
    ensures room { HaveRoom }
    ensures joined { NetsJoin }
    ensures laid_after { JoinedIsLaid }
    ensures applied_after { JoinedApplies }
    ensures room_for_all { HaveRoomForAll }
{}
