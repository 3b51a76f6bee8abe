//! What a follower saves, and its text (our choice). Version 3 is written:
//!
//! ```text
//! osmrepl-save 3
//! base 0
//! kinds nwr
//! keys 0
//! sequence 1
//! time 2024-01-01T00:00:00Z
//! objects 1
//! n1 v1 dV c7 t2024-01-01T00:00:00Z i5 uann T x1 y2
//! users 1
//! 5 1
//! changesets 1
//! 7 1
//! end
//! ```
//!
//! Version 2 begins with `osmrepl-save 2` and has no lines `kinds` and `keys`: it is read as
//! keeping everything. Version 1 has no line `base` either: it is read at base 0.

ghost use Rattle.std.specs.Prelude.{◌≡◌, ◌*◌, ◌-◌, ◌<◌, ◌≤◌, ◌++◌, ◌∷◌, [], List, ℕ, length};
ghost use Rattle.std.specs.Prelude.{codes, OnOk};
ghost use Rattle.std.specs.Prelude.{vec_capacity, IfOk, IfErr, OnErr};
ghost use Rattle.osm_model.specs.Filter.{AreKept, FilterValue};
ghost use Rattle.osm_model.specs.Limits.{max_sequence};
ghost use Rattle.osm_mirror.specs.Mirror.{HoldsSome, IsMirror, IsWithin};
ghost use Rattle.osm_save.specs.Head.{IsHeadIn, most_counted};
ghost use Rattle.osm_save.specs.Left.{left_in, mirror_left};
ghost use Rattle.osm_save.specs.Lines.{ended};
ghost use Rattle.osm_save.specs.Refusal.{SaveStops};
ghost use Rattle.osm_save.specs.Save.{IsSavable, SpellsSave, most_objects, save_text, saved_with};
ghost use Rattle.osm_save.specs.Answers.{Gives};
ghost use Rattle.osm_save.specs.Reading.{mirror_at, save_at};
ghost use Rattle.osm_save.specs.declared.head.Head.{Head};
ghost use Rattle.osm_save.specs.declared.version.Version.{Version};
ghost use Rattle.osm_save.specs.declared.version.Version.TheVariants.{Three};

use crate::counts::{read_counts, write_counts};
use crate::head::{Head, read_head, write_head};
use crate::lines::{fixed_line, line_number};
use crate::objects::{MOST_OBJECTS, count_left, read_objects, write_left, write_objects};
use crate::shown;
use crate::stop::Stop;
use crate::version::Version;
use osm_mirror::mirror::Mirror;
use osm_model::change::Change;
use osm_model::filter::Filter;
use osm_model::kind::Key;
use osm_model::limits::MAX_CHANGES;
use osm_model::memory::WantOfMemory;
use std::alloc::Global;
use thiserror::Error;

/// What a follower saves.
#[derive(Debug, Drop)]
pub struct Saved {
    /// The number of the last sequence that was applied; 0 at the start.
    pub number: u32,
    /// The number after which edits are counted: the sequence number of the data with which the
    /// follower began, or 0.
    pub base: u32,
    /// The time of the last sequence, in seconds since 1970-01-01T00:00:00Z; none at number 0.
    pub time: Option<u32>,
    /// Which objects are kept.
    pub filter: Filter,
    /// The objects, and the edits after the base, counted by user and by changeset.
    pub mirror: Mirror,
}

/// Why a save text can't be read.
#[derive(Clone, Copy, Debug, PartialEq, Eq, Error)]
pub enum SaveError {
    /// The bytes are no save text. The line, counted from 1, is the first that can't follow the
    /// lines before it, or one past the last line if the text ends too early.
    #[error("BadSave")]
    BadSave { line: u64 },
    /// Memory was refused.
    #[error("WantOfMemory")]
    WantOfMemory,
}

/// Writes the save text of a head, a filter and a mirror, in version 3.
pub fn save_write(
    alloc: Global,
    head: Head,
    filter: &Filter,
    mirror: &Mirror,
) -> Result<Vec<u8>, WantOfMemory>
    ensures text { IfOk result (λ text.
        text.items ≡ save_text Three (saved_with head filter.now mirror.now)) }
    ensures spelled { IsHeadIn Three head → IsWithin (most_counted head) mirror.now
        → AreKept filter.now mirror.now.objects
        → IfOk result (λ text. SpellsSave text.items (saved_with head filter.now mirror.now)) }
{
    mirror.limits();
    filter.limits();
    let mut text = room_for_text(alloc, mirror)?;
    write_head(head, filter, &mut text)?;
    write_objects(mirror.objects_by_key(), &mut text)?;
    write_counts(b"users ", mirror.user_counts(), &mut text)?;
    write_counts(b"changesets ", mirror.changeset_counts(), &mut text)?;
    write_end(&mut text)?;
    Ok(text)
}

/// Writes the save text that `save_write` writes for a mirror with the objects left in entries and
/// the given counts, without building the mirror.
pub fn save_write_left(
    alloc: Global,
    head: Head,
    filter: &Filter,
    entries: &[(Key, Option<Change>)],
    users: &[(u32, u64)],
    changesets: &[(u32, u64)],
) -> Result<Vec<u8>, WantOfMemory>
    ensures text { IfOk result (λ text. text.items ≡ save_text Three (saved_with head filter.now
        (mirror_left entries.now users.now changesets.now))) }
    ensures spelled { IsHeadIn Three head
        → IsMirror (mirror_left entries.now users.now changesets.now)
        → IsWithin (most_counted head) (mirror_left entries.now users.now changesets.now)
        → AreKept filter.now (left_in entries.now)
        → IfOk result (λ text. SpellsSave text.items (saved_with head filter.now
        (mirror_left entries.now users.now changesets.now))) }
{
    filter.limits();
    let mut text = room_for_left(alloc, entries)?;
    write_head(head, filter, &mut text)?;
    write_left(entries, &mut text)?;
    shown::write_counts(b"users ", users, &mut text)?;
    shown::write_counts(b"changesets ", changesets, &mut text)?;
    write_end(&mut text)?;
    Ok(text)
}

// Appends the last line.
fn write_end(out: &mut Vec<u8>) -> Result<(), WantOfMemory>
    ensures { OnOk result (out.new.items ≡ out.old.items ++ ended (codes "end" ∷ [])) }
{
    out.extend_from_slice(b"end\n")?;
    Ok(())
}

// An empty text with room for no more than the shortest lines of the objects that are left.
fn room_for_left(alloc: Global, entries: &[(Key, Option<Change>)]) -> Result<Vec<u8>, WantOfMemory>
    ensures empty { IfOk result (λ text. text.items ≡ []) }
    ensures room { IfOk result (λ text. vec_capacity text ≤ 43 * length (left_in entries.now)) }
    ensures refused { OnErr result (0 < length (left_in entries.now)) }
{
    let many = count_left(entries) as usize;
    Ok(Vec::with_capacity(alloc, many.saturating_mul(43))?)
}

// An empty text with room for no more than the shortest save text of the mirror.
fn room_for_text(alloc: Global, mirror: &Mirror) -> Result<Vec<u8>, WantOfMemory>
    ensures empty { IfOk result (λ text. text.items ≡ []) }
    ensures room { IfOk result (λ text. (version : Version) (head : Head) (f : FilterValue)
        → vec_capacity text ≤ length (save_text version (saved_with head f mirror.now))) }
    ensures refused { OnErr result (HoldsSome mirror.now) }
{
    Ok(Vec::with_capacity(alloc, least_length(mirror))?)
}

// A lower bound on the length of the text, in bytes: an object's line has at least 43, a count's at
// least 4.
fn least_length(mirror: &Mirror) -> usize
    ensures least { (version : Version) (head : Head) (f : FilterValue)
        → result ≤ length (save_text version (saved_with head f mirror.now)) }
    ensures some { 0 < result → HoldsSome mirror.now }
{
    let objects = mirror.objects_by_key().len().saturating_mul(43);
    let users = mirror.user_counts().len().saturating_mul(4);
    let changesets = mirror.changeset_counts().len().saturating_mul(4);
    objects.saturating_add(users).saturating_add(changesets)
}

/// Reads a save text of any version: its head, its filter and its mirror.
pub fn save_read(alloc: Global, bytes: &[u8]) -> Result<Saved, SaveError>
    ensures spelled { IfOk result (λ saved. SpellsSave bytes.now saved) }
    ensures refused { IfErr result (SaveStops bytes.now) }
{
    match read_save(alloc, bytes) {
        Ok(saved) => Ok(saved),
        Err(Stop::WantOfMemory) => Err(SaveError::WantOfMemory),
        Err(Stop::Wrong(left)) => Err(SaveError::BadSave {
            line: line_number(bytes, left),
        }),
    }
}

#[tactic(auto, unfolding(crate::specs::Reading::save_at))]
fn read_save(alloc: Global, bytes: &[u8]) -> Result<Saved, Stop>
    ensures { Gives (λ saved. saved) result (save_at bytes.now) }
{
    let (version, head, filter, rest) = read_head(alloc, bytes)?;
    read_mirror(alloc, version, head, filter, rest)
}

// Reads the lists and the line `end`.
#[tactic(auto, unfolding(crate::specs::Reading::mirror_at))]
fn read_mirror(
    alloc: Global,
    version: Version,
    head: Head,
    filter: Filter,
    rest: &[u8],
) -> Result<Saved, Stop>
    requires number { head.number ≤ max_sequence }
    requires base { head.base ≤ head.number }
    ensures { Gives (λ saved. saved) result (mirror_at version head filter rest.now) }
{
    let most = objects_limit(version, head.number);
    let (objects, rest) = read_objects(alloc, &filter, most, rest)?;
    let most = MAX_CHANGES as u64 * (head.number - head.base) as u64;
    let (users, rest) = read_counts(alloc, b"users ", most, rest)?;
    let (changesets, rest) = read_counts(alloc, b"changesets ", most, rest)?;
    let rest = fixed_line(b"end", rest)?;
    if !rest.is_empty() {
        return Err(Stop::Wrong(rest.len()));
    }
    Ok(Saved {
        number: head.number,
        base: head.base,
        time: head.time,
        filter,
        mirror: Mirror::from_parts(objects, users, changesets),
    })
}

/// The most objects of a save text of the given version at the given sequence number.
pub fn objects_limit(version: Version, number: u32) -> u64
    requires { number ≤ max_sequence }
    ensures { result ≡ most_objects version number }
{
    match version {
        Version::One => MAX_CHANGES as u64 * number as u64,
        Version::Two | Version::Three => MOST_OBJECTS,
    }
}

/// Tells the prover the laws of save texts: bytes save at most one thing, and what a version can
/// save is spelled by the text written in that version. Does nothing at run time.
pub fn laws_of_saves()
    ensures one_save { (bytes : List ℕ) (a b : Saved)
        → SpellsSave bytes a → SpellsSave bytes b → a ≡ b }
    ensures written { (version : Version) (v : Saved) → IsSavable version v
        → SpellsSave (save_text version v) v }
{}
