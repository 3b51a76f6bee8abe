//! Applies consecutive sequences.

ghost use Rattle.std.specs.Prelude.{◌≡◌, ◌+◌, ◌*◌, ◌<◌, None, OnOk, OnErr, IfOk};
ghost use Rattle.osm_follow.specs.Follower.{sequence_in};
ghost use Rattle.osm_follow.specs.Steps.Taking.{Drains, Stops, WidensBy};
ghost use Rattle.osm_mirror.specs.Mirror.{Applies, IsWithin, NeedsMemory};
ghost use Rattle.osm_model.specs.Limits.{max_changes, max_sequence};

use osm_holding::holding::{Held, HoldingArea};
use osm_mirror::mirror::Mirror;
use osm_model::batch::Batch;
use osm_model::filter::Filter;
use osm_model::memory::WantOfMemory;

/// Applies the sequence after the number reached under the filter, and then those that the area
/// holds, up to the first gap. Gives the time of the last one applied, in seconds since
/// 1970-01-01T00:00:00Z.
pub(crate) fn drain(
    filter: &Filter,
    mirror: &mut Mirror,
    holding: &mut HoldingArea,
    first: Held,
) -> Result<u32, WantOfMemory>
    requires room { holding.old.reached < max_sequence }
    requires next { sequence_in holding.old (holding.old.reached + 1) ≡ None }
    requires counts { IsWithin (max_changes * holding.old.reached) mirror.old }
    ensures drained { IfOk result (λ time.
        Drains filter.now mirror.old holding.old first mirror.new holding.new time) }
    ensures stopped { OnErr result (Stops filter.now mirror.old holding.old first) }
{
    let mut time = first.time;
    apply_next(filter, mirror, holding, first.batch)?;
    while let Some(held) = holding.take_next() {
        time = held.time;
        apply_next(filter, mirror, holding, held.batch)?;
    }
    Ok(time)
}

// Applies the sequence after the number reached, which the area doesn't hold, and advances it.
fn apply_next(
    filter: &Filter,
    mirror: &mut Mirror,
    holding: &mut HoldingArea,
    batch: Batch,
) -> Result<(), WantOfMemory>
    requires room { holding.old.reached < max_sequence }
    requires next { sequence_in holding.old (holding.old.reached + 1) ≡ None }
    requires counts { IsWithin (max_changes * holding.old.reached) mirror.old }
    ensures applied { OnOk result (Applies filter.now mirror.old batch mirror.new) }
    ensures moved { OnOk result (holding.new
        ≡ record holding.old { reached = holding.old.reached + 1 }) }
    ensures within { OnOk result (IsWithin (max_changes * holding.new.reached) mirror.new) }
    ensures widened { OnOk result (WidensBy max_changes mirror.old mirror.new) }
    ensures refused { OnErr result (NeedsMemory filter.now mirror.old batch) }
{
    mirror.apply(filter, batch.into_changes())?;
    holding.advance();
    Ok(())
}
