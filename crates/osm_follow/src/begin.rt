//! How a follower begins with the objects of a mirror.

ghost use Rattle.std.specs.Prelude.{◌≡◌, [], ◌∷◌, ◌++◌, IfOk, OnOk};
ghost use Rattle.osm_mirror.specs.Mirror.{AreRising};
ghost use Rattle.osm_model.specs.Data.{IsData, IsLeft};
ghost use Rattle.osm_model.specs.Filter.{AreKept};
ghost use Rattle.osm_follow.specs.Begin.{kept_objects};

use osm_mirror::counts::Counts;
use osm_mirror::mirror::Mirror;
use osm_mirror::objects::Objects;
use osm_model::change::Change;
use osm_model::filter::Filter;
use osm_model::memory::WantOfMemory;
use std::alloc::Global;
use thiserror::Error;

/// Why a follower didn't begin with the given objects, which are dropped.
#[derive(Clone, Copy, Debug, PartialEq, Eq, Error)]
pub enum BeginError {
    /// The state names sequence 0, the empty start, after which a new follower counts.
    #[error("BadSequence")]
    BadSequence,
    /// The number, counted from 1, of the first object that is a deletion or whose key isn't above
    /// the key before it.
    #[error("NotData")]
    NotData { index: u64 },
    /// Memory was refused.
    #[error("WantOfMemory")]
    WantOfMemory,
}

/// The mirror of the objects that the filter keeps, with no edits counted.
pub(crate) fn mirror_of(
    alloc: Global,
    filter: &Filter,
    objects: Vec<Change>,
) -> Result<Mirror, WantOfMemory>
    requires { IsData objects.items }
    ensures mirror { IfOk result (λ m. m ≡ record {
      objects = kept_objects filter.now objects.items;
      users = [];
      changesets = [];
    }) }
    ensures kept { IfOk result (λ m. AreKept filter.now m.objects) }
{
    let mut kept = Objects::new(alloc);
    for object in objects {
        let Ok(()) = add(&mut kept, filter, object) else {
            return Err(WantOfMemory);
        };
    }
    Ok(Mirror::from_parts(kept, Counts::new(alloc), Counts::new(alloc)))
}

// Adds an object whose key is above all others, if the filter keeps it.
fn add(kept: &mut Objects, filter: &Filter, object: Change) -> Result<(), WantOfMemory>
    requires rising { AreRising (kept.old ++ object ∷ []) }
    requires is_left { IsLeft object }
    ensures { OnOk result (kept.new ≡ kept.old ++ kept_objects filter.now (object ∷ [])) }
{
    if filter.keeps(&object) {
        kept.push(object)?;
    }
    Ok(())
}
