//! The show text of a view.

ghost use Rattle.std.specs.Prelude.{◌≡◌, ◌++◌, OnOk};
ghost use Rattle.osm_follow.specs.Show.{view_text};

use osm_follow::view::View;
use osm_model::memory::WantOfMemory;
use osm_reading::number_lines::write_numbered;
use osm_save::shown::{write_base, write_counts, write_held, write_objects, write_time};

/// Appends the show text of a view: number, base if it isn't 0, time, objects, users and changesets
/// with their counts of edits, and the held numbers. If memory is refused, a part may have been
/// appended.
#[tactic(auto, unfolding(osm_follow::specs::Show::view_text))]
pub fn write_view(view: &View, text: &mut Vec<u8>) -> Result<(), WantOfMemory>
    ensures { OnOk result (text.new.items ≡ text.old.items ++ view_text view.now) }
{
    write_numbered(b"number ", view.number() as u64, text)?;
    write_base(view.base(), text)?;
    write_time(view.time(), text)?;
    write_objects(view.objects(), text)?;
    write_counts(b"users ", view.users(), text)?;
    write_counts(b"changesets ", view.changesets(), text)?;
    write_held(view.held(), text)
}
