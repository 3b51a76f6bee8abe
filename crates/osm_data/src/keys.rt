//! The keys of a data file's objects, each above the one before.

ghost use Rattle.std.specs.Prelude.{◌↔◌, IsTrue};
ghost use Rattle.osm_data.specs.Steps.Keys.{IsBelow};

use osm_model::kind::Key;

/// Whether a key is above the last one, if there is one.
pub fn is_below(last: Option<Key>, key: Key) -> bool
    ensures { IsTrue result ↔ IsBelow last key }
{
    match last {
        Some(last) => last < key,
        None => true,
    }
}
