//! What follows a list whose items are spelled as `write_line` writes them.

ghost use Rattle.std.specs.Prelude.{IfSome};
ghost use Rattle.osm_model.specs.Change.{AreMembers, AreRefs, AreTags};
ghost use Rattle.osm_model.specs.Limits.{IsId};
ghost use Rattle.osm_model.specs.Lists.{IsTag};
ghost use Rattle.osm_opl.specs.Flat.{IsMember};
ghost use Rattle.osm_opl.specs.Steps.Begins.{Begins, BeginsWith};
ghost use Rattle.osm_opl.specs.Written.{member_text, members_field, ref_text, refs_field};
ghost use Rattle.osm_opl.specs.Written.{items_text, tag_text, tags_field};

use crate::after::{after_byte, after_id, after_key, after_mark};
use crate::after_texts::after_text;
use osm_model::limits::{MAX_REFS, MAX_TAGS};

/// Whether no item of a list follows.
pub(crate) fn is_list_end(bytes: &[u8]) -> bool {
    match bytes.first() {
        None | Some(b' ') => true,
        _ => false,
    }
}

/// What follows ` TTAGS`.
pub(crate) fn after_tags_field(bytes: &[u8]) -> Option<&[u8]>
    ensures { IfSome result (λ rest. Begins tags_field AreTags bytes.now rest.now) }
{
    let items = after_mark(b'T', bytes)?;
    if is_list_end(items) {
        return Some(items);
    }
    let rest = after_tags(items)?;
    Some(rest)
}

/// What follows the tags, if there is one.
pub(crate) fn after_tags(bytes: &[u8]) -> Option<&[u8]>
    ensures { IfSome result (λ rest. Begins (items_text tag_text) AreTags bytes.now rest.now) }
{
    let mut rest = after_tag(bytes)?;
    let mut count = 1;
    while count < MAX_TAGS {
        let Some(items) = after_byte(b',', rest) else {
            return Some(rest);
        };
        rest = after_tag(items)?;
        count += 1;
    }
    Some(rest)
}

// `KEY=VALUE`
fn after_tag(bytes: &[u8]) -> Option<&[u8]>
    ensures { IfSome result (λ rest. Begins tag_text IsTag bytes.now rest.now) }
{
    let value = after_byte(b'=', after_text(bytes))?;
    Some(after_text(value))
}

/// What follows ` NREFS`.
pub(crate) fn after_refs_field(bytes: &[u8]) -> Option<&[u8]>
    ensures { IfSome result (λ rest. Begins refs_field AreRefs bytes.now rest.now) }
{
    let items = after_mark(b'N', bytes)?;
    if is_list_end(items) {
        return Some(items);
    }
    let rest = after_refs(items)?;
    Some(rest)
}

/// What follows the nodes, if there is one.
pub(crate) fn after_refs(bytes: &[u8]) -> Option<&[u8]>
    ensures { IfSome result (λ rest. Begins (items_text ref_text) AreRefs bytes.now rest.now) }
{
    let (_first, mut rest) = after_ref(bytes)?;
    let mut count = 1;
    while count < MAX_REFS {
        let Some(items) = after_byte(b',', rest) else {
            return Some(rest);
        };
        let (_id, after) = after_ref(items)?;
        rest = after;
        count += 1;
    }
    Some(rest)
}

/// The id of `nID`, and what follows it.
pub(crate) fn after_ref(bytes: &[u8]) -> Option<(i64, &[u8])>
    ensures { IfSome result (λ r. BeginsWith ref_text IsId r.0 bytes.now r.1.now) }
{
    after_id(after_byte(b'n', bytes)?)
}

/// What follows ` MMEMBERS`.
pub(crate) fn after_members_field(bytes: &[u8]) -> Option<&[u8]>
    ensures { IfSome result (λ rest. Begins members_field AreMembers bytes.now rest.now) }
{
    let items = after_mark(b'M', bytes)?;
    if is_list_end(items) {
        return Some(items);
    }
    let rest = after_members(items)?;
    Some(rest)
}

/// What follows the members, if there is one.
pub(crate) fn after_members(bytes: &[u8]) -> Option<&[u8]>
    ensures { IfSome result (λ rest.
        Begins (items_text member_text) AreMembers bytes.now rest.now) }
{
    let mut rest = after_member(bytes)?;
    let mut count = 1;
    while count < MAX_REFS {
        let Some(items) = after_byte(b',', rest) else {
            return Some(rest);
        };
        rest = after_member(items)?;
        count += 1;
    }
    Some(rest)
}

// `nID@ROLE`, `wID@ROLE` or `rID@ROLE`
fn after_member(bytes: &[u8]) -> Option<&[u8]>
    ensures { IfSome result (λ rest. Begins member_text IsMember bytes.now rest.now) }
{
    let (_key, rest) = after_key(bytes)?;
    Some(after_text(after_byte(b'@', rest)?))
}
