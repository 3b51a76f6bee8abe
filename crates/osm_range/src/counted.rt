//! What a row of a tally counts.

ghost use Rattle.std.specs.Prelude.{◌≡◌};
ghost use Rattle.osm_range.specs.Steps.Counting.{IsBelow, no_changes, one_more};

use osm_model::change::Change;

/// How many changes of a combination there are, by what they do, and in how many changesets.
#[derive(Clone, Copy)]
pub(crate) struct Counted {
    /// Version 1 of an object.
    pub(crate) created: u64,
    /// A later version.
    pub(crate) modified: u64,
    /// A deletion, whatever its version.
    pub(crate) deleted: u64,
    /// Different changesets.
    pub(crate) changesets: u64,
}

impl Counted {
    pub(crate) fn none() -> Counted
        ensures { result ≡ no_changes }
    {
        Counted {
            created: 0,
            modified: 0,
            deleted: 0,
            changesets: 0,
        }
    }

    // With one change more. Unless it is given whether the change is the first one of its
    // changeset, all changes of the row have one changeset.
    #[tactic(auto, unfolding(crate::specs::Steps::Counting::one_more))]
    pub(crate) fn with(self, change: &Change, is_first: Option<bool>) -> Counted
        requires { IsBelow self }
        ensures { result ≡ one_more self change.now is_first }
    {
        let is_deleted = change.is_deletion();
        let is_new = change.meta().version() == 1;
        let is_first = is_first.unwrap_or(self.changesets == 0);
        Counted {
            created: self.created + (!is_deleted && is_new) as u64,
            modified: self.modified + (!is_deleted && !is_new) as u64,
            deleted: self.deleted + is_deleted as u64,
            changesets: self.changesets + is_first as u64,
        }
    }
}
