//! The name of the journal beside a save.

ghost use Rattle.std.specs.Prelude.{◌≡◌, ◌≢◌, IfOk, string_bytes};
ghost use Rattle.osm_kept.specs.Names.{journal_name_of};

use osm_model::memory::WantOfMemory;
use std::alloc::Global;

/// Gives the name of a save's journal: `NAME.journal` for a save `NAME`.
pub fn journal_name(alloc: Global, save: &str) -> Result<String, WantOfMemory>
    ensures name { IfOk result (λ name. string_bytes name ≡ journal_name_of save.now) }
    ensures other { IfOk result (λ name. string_bytes name ≢ save.now) }
{
    Ok(format!(in alloc; "{save}.journal")?)
}
