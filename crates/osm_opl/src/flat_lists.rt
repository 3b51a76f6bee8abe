//! The lists that a line has, taken apart item by item.

ghost use Rattle.std.specs.Prelude.{◌<◌, ◌∷◌, IfSome, IsSomeAnd, List, ℤ, length};
ghost use Rattle.osm_model.specs.declared.lists.Member.{Member};
ghost use Rattle.osm_model.specs.declared.lists.Tag.{Tag};
ghost use Rattle.osm_opl.specs.Flat.{AreFlatMembers, AreFlatRefs, AreFlatTags};
ghost use Rattle.osm_opl.specs.Flat.{IsFirstMember, IsFirstRef, IsFirstTag};

use crate::after::{after_byte, after_key};
use crate::lists::{next_ref, read_kind};
use crate::numbers::read_id;
use osm_model::kind::Key;
use osm_reading::pieces::{cut, cut_near};

/// The key and the value of the first tag in a line's list of tags, and the tags after it, if there
/// are any.
pub fn first_tag(tags: &[u8]) -> (&[u8], &[u8], Option<&[u8]>)
    ensures first { (tag : Tag) (more : List Tag) → AreFlatTags tags.now (tag ∷ more)
        → IsFirstTag tag more result.0.now result.1.now result.2 }
    ensures shorter { IfSome result.2 (λ rest. length rest.now < length tags.now) }
{
    let (key, rest) = cut_near(tags, b'=');
    let Some(rest) = rest else {
        return (key, &[], None);
    };
    let (value, more) = cut_near(rest, b',');
    (key, value, more)
}

/// The first node in a line's list of nodes, and the nodes after it, if there are any.
pub fn first_ref(refs: &[u8]) -> Option<(i64, Option<&[u8]>)>
    ensures first { (id : ℤ) (more : List ℤ) → AreFlatRefs refs.now (id ∷ more)
        → IsSomeAnd result (λ r. IsFirstRef id more r.0 r.1) }
    ensures shorter { IfSome result (λ r.
        IfSome r.1 (λ rest. length rest.now < length refs.now)) }
{
    match next_ref(refs) {
        Ok((id, rest)) => Some((id, rest)),
        Err(_) => None,
    }
}

/// The key and the role of the first member in a line's list of members, and the members after it,
/// if there are any.
pub fn first_member(members: &[u8]) -> Option<(Key, &[u8], Option<&[u8]>)>
    ensures first { (member : Member) (more : List Member)
        → AreFlatMembers members.now (member ∷ more)
        → IsSomeAnd result (λ r. IsFirstMember member more r.0 r.1.now r.2) }
    ensures shorter { IfSome result (λ r.
        IfSome r.2 (λ rest. length rest.now < length members.now)) }
{
    match plain_member(members) {
        Some(found) => Some(found),
        None => cut_member(members),
    }
}

// The same if its id isn't negative, as nearly all are.
#[inline(always)]
fn plain_member(members: &[u8]) -> Option<(Key, &[u8], Option<&[u8]>)>
    ensures first { IfSome result (λ r. (member : Member) (more : List Member)
        → AreFlatMembers members.now (member ∷ more)
        → IsFirstMember member more r.0 r.1.now r.2) }
    ensures shorter { IfSome result (λ r.
        IfSome r.2 (λ rest. length rest.now < length members.now)) }
{
    let (key, rest) = after_key(members)?;
    let (role, more) = cut_near(after_byte(b'@', rest)?, b',');
    Some((key, role, more))
}

fn cut_member(members: &[u8]) -> Option<(Key, &[u8], Option<&[u8]>)>
    ensures first { (member : Member) (more : List Member)
        → AreFlatMembers members.now (member ∷ more)
        → IsSomeAnd result (λ r. IsFirstMember member more r.0 r.1.now r.2) }
    ensures shorter { IfSome result (λ r.
        IfSome r.2 (λ rest. length rest.now < length members.now)) }
{
    let (member, rest) = cut(members, b',');
    let Some((letter, named)) = member.split_first() else {
        return None;
    };
    let (id, role) = cut(named, b'@');
    let Some(role) = role else {
        return None;
    };
    let Ok(kind) = read_kind(*letter) else {
        return None;
    };
    let Ok(id) = read_id(id) else {
        return None;
    };
    Some((Key { kind, id }, role, rest))
}
