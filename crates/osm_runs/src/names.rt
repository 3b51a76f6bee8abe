//! Names of a folder's files: the folder, `/` and the path.

ghost use Rattle.std.specs.Prelude.{◌≡◌, ◌≤◌, IfOk, string_bytes};
ghost use Rattle.osm_model.specs.Limits.{max_sequence};
ghost use Rattle.osm_runs.specs.Names.{file_name_of, top_name_of};

use osm_model::memory::WantOfMemory;
use osm_state::paths::{Suffix, path};
use std::alloc::Global;

/// Gives the name of the folder's newest state: `DIR/state.txt`.
#[tactic(auto, unfolding(crate::specs::Names::top_name_of))]
pub fn top_name(alloc: Global, dir: &str) -> Result<String, WantOfMemory>
    ensures { IfOk result (λ name. string_bytes name ≡ top_name_of dir.now) }
{
    Ok(format!(in alloc; "{dir}/state.txt")?)
}

/// Gives the name of a file of a sequence, such as `DIR/000/000/001.o5c`.
#[tactic(auto, unfolding(crate::specs::Names::file_name_of))]
pub fn file_name(
    alloc: Global,
    dir: &str,
    number: u32,
    suffix: Suffix,
) -> Result<String, WantOfMemory>
    requires { number ≤ max_sequence }
    ensures { IfOk result (λ name. string_bytes name ≡ file_name_of dir.now number suffix) }
{
    let path = path(alloc, number, suffix)?;
    Ok(format!(in alloc; "{dir}/{path}")?)
}
