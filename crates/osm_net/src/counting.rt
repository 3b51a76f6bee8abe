//! Adding counts of edits to other counts.

ghost use Rattle.std.specs.Prelude.{◌≡◌, ℕ, ◌+◌, ◌<◌, ◌^◌, OnOk, OnErr};
ghost use Rattle.osm_mirror.specs.Mirror.{count_at};
ghost use Rattle.osm_net.specs.Net.{HasNewNumber};

use osm_mirror::counts::Counts;
use osm_model::memory::WantOfMemory;

/// Adds `more` to `counts`. After a refusal some of the counts may have been added.
pub(crate) fn add_counts(counts: &mut Counts, more: &Counts) -> Result<(), WantOfMemory>
    requires room { (n : ℕ) → count_at counts.old n + count_at more.now n < 2 ^ 64 }
    ensures added { OnOk result ((n : ℕ) →
        count_at counts.new n ≡ count_at counts.old n + count_at more.now n) }
    ensures refused { OnErr result (HasNewNumber counts.old more.now) }
{
    more.limits();
    for (number, count) in more.iter() {
        let Ok(()) = counts.add(*number, *count) else {
            return Err(WantOfMemory);
        };
    }
    Ok(())
}
