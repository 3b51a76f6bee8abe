//! The definitions of content and counts as slow, plain functions: each contract is the definition
//! that the function computes.

ghost use Rattle.std.specs.Prelude.{◌≡◌, option_copied};
ghost use Rattle.osm_model.specs.Content.{content_of, edits_by_changeset, edits_by_user, last_of};
ghost use Rattle.osm_model.specs.Filter.{kept};

use osm_model::change::Change;
use osm_model::filter::Filter;
use osm_model::kind::Key;

/// The last change in the list that has this key.
pub fn plain_last_of<'a>(changes: &'a [Change], key: Key) -> Option<&'a Change>
    ensures { option_copied result ≡ last_of changes.entry.now key }
{
    let mut last = None;
    for change in changes {
        if change.key().cmp(&key).is_eq() {
            last = Some(change);
        }
    }
    last
}

/// The object with this key that the changes leave.
pub fn plain_content_of<'a>(changes: &'a [Change], key: Key) -> Option<&'a Change>
    ensures { option_copied result ≡ content_of changes.entry.now key }
{
    match plain_last_of(changes, key) {
        Some(change) => {
            if change.is_deletion() {
                None
            } else {
                Some(change)
            }
        }
        None => None,
    }
}

/// The object with this key that the changes leave, if the filter keeps it.
pub fn plain_kept<'a>(filter: &Filter, changes: &'a [Change], key: Key) -> Option<&'a Change>
    ensures { option_copied result ≡ kept filter.now (content_of changes.entry.now) key }
{
    match plain_content_of(changes, key) {
        Some(object) => {
            if filter.keeps(object) {
                Some(object)
            } else {
                None
            }
        }
        None => None,
    }
}

/// The number of edits of this user among the changes.
pub fn plain_edits_by_user(changes: &[Change], uid: u32) -> usize
    ensures { result ≡ edits_by_user changes.now uid }
{
    let mut count = 0;
    for change in changes {
        if change.meta().uid() == uid {
            count += 1;
        }
    }
    count
}

/// The number of edits of this changeset among the changes.
pub fn plain_edits_by_changeset(changes: &[Change], id: u32) -> usize
    ensures { result ≡ edits_by_changeset changes.now id }
{
    let mut count = 0;
    for change in changes {
        if change.meta().changeset() == id {
            count += 1;
        }
    }
    count
}
