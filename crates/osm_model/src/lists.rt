//! The parts of an object that are lists: tags, the nodes of a way, the members of a relation.
//! Order and repeats are kept.

ghost use Rattle.std.specs.Prelude.{◌≡◌, ◌<◌, ◌++◌, ◌∷◌, [], length, IfOk, IsOk, OnOk, OnErr};
ghost use Rattle.std.specs.List.{AllByRecursion};

use crate::kind::Key;
use crate::memory::{WantOfMemory, room_for_copies};
use crate::text::Text;
use std::alloc::Global;
use std::marker::Model;

/// What a list holds: a tag, the id of a node or a member of an object, or a key of a filter.
pub trait Part: Drop {
    /// The part is within the limits of its type.
    ghost within_limits: { Self → Type 0 };

    /// Tells the prover that the part is within its limits; does nothing at run time.
    fn limits(&self)
        ensures { within_limits self.now };

    /// A copy, with memory of its own.
    fn copy(&self, alloc: Global) -> Result<Self, WantOfMemory>
    where
        Self: Sized,
        ensures { IfOk result (λ part. part ≡ self.now) };
}

/// A tag, as `highway=path`.
#[derive(Debug, Drop, PartialEq)]
pub struct Tag {
    pub key: Text,
    pub value: Text,
}

impl Part for Tag {
    ghost use Rattle.osm_model.specs.Lists.{IsTag};

    ghost within_limits = { IsTag };

    fn limits(&self) {
        self.key.limits();
        self.value.limits();
    }

    fn copy(&self, alloc: Global) -> Result<Tag, WantOfMemory> {
        Ok(Tag {
            key: self.key.copy(alloc)?,
            value: self.value.copy(alloc)?,
        })
    }
}

/// The tags of an object, in order. Two tags may have the same key.
pub type Tags = Parts<Tag>;

impl Part for i64 {
    ghost within_limits = { λ id. Unit {0} };

    fn limits(&self) {}

    fn copy(&self, _alloc: Global) -> Result<i64, WantOfMemory>
        ensures ok { IfOk result (λ id. id ≡ self.now) }
        ensures never_refused { IsOk result }
    {
        Ok(*self)
    }
}

/// The ids of a way's nodes, in order.
pub type Refs = Parts<i64>;

/// A member of a relation, as `w10@outer`.
#[derive(Debug, Drop, PartialEq)]
pub struct Member {
    pub key: Key,
    pub role: Text,
}

impl Part for Member {
    ghost use Rattle.osm_model.specs.Lists.{IsRole};

    ghost within_limits = { IsRole };

    fn limits(&self) {
        self.role.limits();
    }

    fn copy(&self, alloc: Global) -> Result<Member, WantOfMemory> {
        Ok(Member {
            key: self.key,
            role: self.role.copy(alloc)?,
        })
    }
}

/// The members of a relation, in order.
pub type Members = Parts<Member>;

impl Part for Text {
    ghost use Rattle.osm_model.specs.Text.{IsText};

    ghost within_limits = { IsText };

    fn limits(&self) {
        Text::limits(self)
    }

    fn copy(&self, alloc: Global) -> Result<Text, WantOfMemory> {
        Text::copy(self, alloc)
    }
}

// The most unused room that a list of a change keeps, in parts. Shrinking a list moves its parts,
// so a short one is left alone.
const MAX_SPARE: usize = 64;

/// Parts of one sort, in order.
#[derive(Debug, Drop)]
pub struct Parts<T: Part> {
    parts: Vec<T>,
}

impl<T: Part> Model for Parts<T> {
    ghost use Rattle.std.specs.Prelude.{List};
    ghost use Rattle.std.specs.List.{AllByRecursion};

    ghost Value = { List T };

    ghost view = { λ a. a.parts.items };

    ghost invariant = { λ a. AllByRecursion T.within_limits a.parts.items };
}

impl<T: Part> Parts<T> {
    /// Empty; takes no memory.
    pub fn new(alloc: Global) -> Parts<T>
        ensures { result ≡ [] }
    {
        Parts {
            parts: Vec::new(alloc),
        }
    }

    /// The list of these parts; takes no memory.
    pub fn from_vec(parts: Vec<T>) -> Parts<T>
        ensures { result ≡ parts.items }
    {
        limits_of(parts.as_slice());
        Parts { parts }
    }

    /// Adds a part at the end of the list. After a refusal the list is as before.
    pub fn push(&mut self, part: T) -> Result<(), WantOfMemory>
        ensures ok { OnOk result (self.new ≡ self.old ++ part ∷ []) }
        ensures err { OnErr result (self.new ≡ self.old) }
    {
        part.limits();
        self.parts.push(part)?;
        Ok(())
    }

    pub fn as_slice(&self) -> &[T]
        ensures parts { result.now ≡ self.now }
        ensures limits { AllByRecursion T.within_limits self.now }
    {
        self.parts.as_slice()
    }

    // Whether the list has room for many more parts.
    #[inline(always)]
    pub(crate) fn has_spare(&self) -> bool {
        self.parts.capacity().saturating_sub(self.parts.len()) > MAX_SPARE
    }

    // The same parts. If the list has room for many more, that room is given back.
    pub(crate) fn fitted(self) -> Parts<T>
        ensures { result ≡ self }
    {
        let is_spare = self.has_spare();
        let mut parts = self.parts;
        if is_spare {
            parts.shrink_to_fit();
        }
        Parts { parts }
    }

    /// An equal list, with memory of its own. Copying an empty list takes no memory.
    pub fn copy(&self, alloc: Global) -> Result<Parts<T>, WantOfMemory>
        ensures ok { IfOk result (λ t. t ≡ self.now) }
        ensures refused { OnErr result (0 < length self.now) }
    {
        let parts = copy_parts(alloc, self.as_slice())?;
        Ok(Parts { parts })
    }
}

// The compiled program has nothing of this loop.
fn limits_of<T: Part>(parts: &[T])
    ensures { AllByRecursion T.within_limits parts.now }
{
    for part in parts {
        part.limits();
    }
}

fn copy_parts<T: Part>(alloc: Global, parts: &[T]) -> Result<Vec<T>, WantOfMemory>
    requires { AllByRecursion T.within_limits parts.now }
    ensures ok { IfOk result (λ copies. copies.items ≡ parts.now) }
    ensures refused { OnErr result (0 < length parts.now) }
{
    let mut copies = room_for_copies(alloc, parts)?;
    for part in parts {
        copies.push(part.copy(alloc)?)?;
    }
    Ok(copies)
}

impl<T: Part + PartialEq> PartialEq for Parts<T> {
    ghost use Rattle.std.specs.Cmp.Lexicographic.{lists_per, pointwise};

    ghost eq = { λ x y. pointwise T.eq x y };

    ghost laws = { lists_per T.laws };

    fn eq(&self, other: &Parts<T>) -> bool {
        self.parts.as_slice() == other.parts.as_slice()
    }
}
