//! What rows have in their columns, as texts.

ghost use Rattle.std.specs.Prelude.{◌≡◌, ◌∷◌, []};
ghost use Rattle.osm_range.specs.Steps.Counting.{names_in};
ghost use Rattle.osm_range.specs.Texts.{kind_letter};

use osm_model::text::Text;
use std::collections::BTreeMap;

// Stands in for the number of a user who isn't known (docs/DECISIONS.md).
const NOBODY: u32 = 2_147_483_647;

/// Gives the name of a user: `anonymous` for nobody.
pub(crate) fn name_of(names: &BTreeMap<u32, Text>, uid: u32) -> &str
    ensures { result.now ≡ names_in names.now uid }
{
    if uid == NOBODY {
        return "anonymous";
    }
    match names.get(&uid) {
        Some(name) => name.as_str(),
        None => "",
    }
}

/// Gives the letter of a kind.
pub(crate) fn kind_name(position: u32) -> &'static [u8]
    ensures { result.now ≡ kind_letter position ∷ [] }
{
    match position {
        0 => b"n",
        1 => b"w",
        _ => b"r",
    }
}
