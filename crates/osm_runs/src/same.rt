//! Whether two batches are the same.

ghost use Rattle.std.specs.Prelude.{◌≡◌, ◌↔◌, IsTrue};

use osm_model::batch::Batch;

/// Whether two batches have the same changes, in the same order.
pub fn are_same(left: &Batch, right: &Batch) -> bool
    ensures { IsTrue result ↔ (left.now ≡ right.now) }
{
    left == right
}
