//! The lines of a show text.

ghost use Rattle.std.specs.Prelude.{◌≡◌, ◌+◌, ◌<◌, ◌≤◌, ◌++◌, OnErr, OnOk, length};
ghost use Rattle.std.specs.Prelude.{vec_capacity, vec_len};
ghost use Rattle.std.specs.List.{flat_map};
ghost use Rattle.osm_save.specs.Shown.{base_line, counts_text, held_text, object_line};
ghost use Rattle.osm_save.specs.Shown.{objects_text, time_line};

use osm_model::change::Change;
use osm_model::memory::WantOfMemory;
use osm_model::time::time_write;
use osm_opl::lines::write_line;
use osm_reading::number_lines::{
    write_bytes, write_count_lines, write_numbered, write_numbered_lines,
};

/// Appends the line of the base, unless the base is 0.
pub fn write_base(base: u32, text: &mut Vec<u8>) -> Result<(), WantOfMemory>
    ensures appended { OnOk result (text.new.items ≡ text.old.items ++ base_line base) }
    ensures room { vec_capacity text.old ≤ vec_capacity text.new }
    ensures refused { OnErr result
        (vec_capacity text.old < vec_len text.old + length (base_line base)) }
{
    if base == 0 {
        return Ok(());
    }
    write_numbered(b"base ", base as u64, text)
}

/// Appends the line of the time.
pub fn write_time(time: Option<u32>, text: &mut Vec<u8>) -> Result<(), WantOfMemory>
    ensures appended { OnOk result (text.new.items ≡ text.old.items ++ time_line time) }
    ensures room { vec_capacity text.old ≤ vec_capacity text.new }
    ensures refused { OnErr result
        (vec_capacity text.old < vec_len text.old + length (time_line time)) }
{
    match time {
        None => write_bytes(b"time none\n", text),
        Some(seconds) => {
            write_bytes(b"time ", text)?;
            write_bytes(&time_write(seconds), text)?;
            write_bytes(b"\n", text)
        }
    }
}

/// Appends the number of objects, and a line for each. If memory is refused, a part may have been
/// appended.
#[tactic(auto, unfolding(crate::specs::Shown::objects_text))]
pub fn write_objects(objects: &[Change], text: &mut Vec<u8>) -> Result<(), WantOfMemory>
    ensures { OnOk result (text.new.items ≡ text.old.items ++ objects_text objects.now) }
{
    write_numbered(b"objects ", objects.len() as u64, text)?;
    write_object_lines(objects, text)
}

fn write_object_lines(objects: &[Change], text: &mut Vec<u8>) -> Result<(), WantOfMemory>
    ensures { OnOk result (text.new.items ≡ text.old.items ++ flat_map object_line objects.now) }
{
    for object in objects {
        write_line(object, text)?;
        write_bytes(b"\n", text)?;
    }
    Ok(())
}

/// Appends the number of counts behind `name`, and a line for each.
#[tactic(auto, unfolding(crate::specs::Shown::counts_text))]
pub fn write_counts(
    name: &[u8],
    counts: &[(u32, u64)],
    text: &mut Vec<u8>,
) -> Result<(), WantOfMemory>
    ensures appended { OnOk result
        (text.new.items ≡ text.old.items ++ counts_text name.now counts.now) }
    ensures room { vec_capacity text.old ≤ vec_capacity text.new }
    ensures refused { OnErr result
        (vec_capacity text.old < vec_len text.old + length (counts_text name.now counts.now)) }
{
    write_numbered(name, counts.len() as u64, text)?;
    write_count_lines(counts, text)
}

/// Appends how many numbers are held, and a line for each. If memory is refused, a part may have
/// been appended.
#[tactic(auto, unfolding(crate::specs::Shown::held_text))]
pub fn write_held(numbers: &[u32], text: &mut Vec<u8>) -> Result<(), WantOfMemory>
    ensures appended { OnOk result (text.new.items ≡ text.old.items ++ held_text numbers.now) }
    ensures room { vec_capacity text.old ≤ vec_capacity text.new }
    ensures refused { OnErr result
        (vec_capacity text.old < vec_len text.old + length (held_text numbers.now)) }
{
    write_numbered(b"held ", numbers.len() as u64, text)?;
    write_numbered_lines(b"", numbers, text)
}
