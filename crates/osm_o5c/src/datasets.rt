//! Datasets: objects with their lengths, resets, and datasets that are skipped.

ghost use Rattle.std.specs.Prelude.{◌≡◌, ◌∷◌, [], ◌++◌, Option, OnOk, IfOk, IfErr};
ghost use Rattle.osm_o5c.specs.Datasets.{dataset_at, kind_of_byte, object_dataset_at};
ghost use Rattle.osm_o5c.specs.Datasets.{other_dataset_at};
ghost use Rattle.osm_o5c.specs.Datasets.{position, with_found, step};
ghost use Rattle.osm_o5c.specs.Datasets.{ChangeStops, ObjectStops, StepStops};
ghost use Rattle.osm_o5c.specs.Written.{is_other, part_text, reset_text, state_before};
ghost use Rattle.osm_o5c.specs.Written.{change_text, after_change};
ghost use Rattle.osm_o5c.specs.File.{kind_byte};
ghost use Rattle.osm_reading.specs.Answers.{Finds, Gives, and_then};

use crate::numbers::{part, write_unsigned};
use crate::reader::Reader;
use crate::writer::Writer;
use osm_model::change::Change;
use osm_model::files::FileLimits;
use osm_model::form::Why;
use osm_model::kind::Kind;
use osm_model::memory::WantOfMemory;
use osm_reading::refusal::Refusal;
use std::alloc::Global;

/// The byte at the end of a file.
pub const END: u8 = 0xfe;

const RESET: u8 = 0xff;

/// The type of a dataset that holds a node.
pub(crate) const NODE: u8 = 0x10;

fn kind_of(byte: u8) -> Option<Kind>
    ensures { result ≡ kind_of_byte byte }
{
    match byte {
        NODE => Some(Kind::Node),
        0x11 => Some(Kind::Way),
        0x12 => Some(Kind::Relation),
        _ => None,
    }
}

// Inlined, as is the one that calls it, so that the change is moved once less.
#[inline(always)]
fn append(change: Change, changes: &mut Vec<Change>) -> Result<(), WantOfMemory>
    ensures { OnOk result (changes.new.items ≡ changes.old.items ++ change ∷ []) }
{
    changes.push(change)?;
    Ok(())
}

// Adds a change to the others, if it may follow them.
#[inline(always)]
fn add<F: FileLimits>(change: Change, changes: &mut Vec<Change>) -> Result<(), Refusal>
    requires { F.limits changes.old.items }
    ensures added { OnOk result (changes.new.items ≡ changes.old.items ++ change ∷ []) }
    ensures right { OnOk result (F.limits changes.new.items) }
    ensures refused { IfErr result (ChangeStops F.limits changes.old.items change) }
{
    match F::check_next(changes.as_slice(), &change) {
        Ok(()) => {}
        Err(why) => return Err(Refusal::Fault(why)),
    }
    match append(change, changes) {
        Ok(()) => Ok(()),
        Err(WantOfMemory) => Err(Refusal::WantOfMemory),
    }
}

impl<'a> Reader<'a> {
    // Reads an object, adds its change to the others, and returns what follows it.
    #[tactic(auto, unfolding(crate::specs::Datasets::object_dataset_at))]
    fn object_dataset<F: FileLimits>(
        &mut self,
        alloc: Global,
        changes: &mut Vec<Change>,
        kind: Kind,
        bytes: &'a [u8],
    ) -> Result<&'a [u8], Refusal>
        requires { F.limits changes.old.items }
        ensures ok { IfOk result (λ r.
            and_then (object_dataset_at kind self.old bytes.now) (with_found changes.old.items)
            ≡ Option.Some (position self.new changes.new.items r.now)) }
        ensures right { OnOk result (F.limits changes.new.items) }
        ensures refused { IfErr result (ObjectStops F.limits
            (and_then (object_dataset_at kind self.old bytes.now)
            (with_found changes.old.items))) }
    {
        let (content, rest) = part(bytes, Why::Truncated)?;
        let change = self.object(alloc, kind, content)?;
        match add::<F>(change, changes) {
            Ok(()) => Ok(rest),
            Err(refusal) => Err(refusal),
        }
    }

    // Skips a dataset that isn't an object; a reset also resets the reader. Returns what follows.
    #[tactic(auto, unfolding(crate::specs::Datasets::other_dataset_at))]
    fn other_dataset(&mut self, first: u8, bytes: &'a [u8]) -> Result<&'a [u8], Why>
        ensures { Finds (λ r. (Option.None, self.new, r.now)) result
            (other_dataset_at first self.old bytes.now) }
    {
        if first < 0xf0 {
            let (_content, rest) = part(bytes, Why::Truncated)?;
            return Ok(rest);
        }
        if first < END {
            return Ok(bytes);
        }
        if first == RESET {
            self.reset();
            return Ok(bytes);
        }
        Err(Why::Truncated)
    }

    /// Reads the dataset at the start (OSM wiki, O5m), and gives its object, if the dataset has
    /// one, and the bytes after it.
    #[inline(always)]
    #[tactic(auto, unfolding(crate::specs::Datasets::dataset_at, crate::specs::Datasets::object_dataset_at))]
    pub fn dataset(
        &mut self,
        alloc: Global,
        bytes: &'a [u8],
    ) -> Result<(Option<Change>, &'a [u8]), Refusal>
        ensures { Gives (λ r. (r.0, self.new, r.1.now)) result (dataset_at self.old bytes.now) }
    {
        let Some((first, rest)) = bytes.split_first() else {
            return Err(Refusal::Fault(Why::Truncated));
        };
        let Some(kind) = kind_of(*first) else {
            let rest = self.other_dataset(*first, rest)?;
            return Ok((None, rest));
        };
        let (content, rest) = part(rest, Why::Truncated)?;
        let object = self.object(alloc, kind, content)?;
        Ok((Some(object), rest))
    }

    /// Reads the dataset at the start, adds its change to the others, if the dataset has one, and
    /// gives the bytes after it.
    #[tactic(auto, unfolding(crate::specs::Datasets::dataset_at, crate::specs::Datasets::step))]
    pub fn next<F: FileLimits>(
        &mut self,
        alloc: Global,
        changes: &mut Vec<Change>,
        bytes: &'a [u8],
    ) -> Result<&'a [u8], Refusal>
        requires { F.limits changes.old.items }
        ensures ok { IfOk result (λ r. step (position self.old changes.old.items bytes.now)
            ≡ Option.Some (position self.new changes.new.items r.now)) }
        ensures right { OnOk result (F.limits changes.new.items) }
        ensures refused { IfErr result
            (StepStops F.limits (position self.old changes.old.items bytes.now)) }
    {
        let Some((first, rest)) = bytes.split_first() else {
            return Err(Refusal::Fault(Why::Truncated));
        };
        match kind_of(*first) {
            Some(kind) => self.object_dataset::<F>(alloc, changes, kind, rest),
            None => match self.other_dataset(*first, rest) {
                Ok(after) => Ok(after),
                Err(why) => Err(Refusal::Fault(why)),
            },
        }
    }
}

fn byte_of(kind: Kind) -> u8
    ensures { result ≡ kind_byte kind }
{
    match kind {
        Kind::Node => NODE,
        Kind::Way => 0x11,
        Kind::Relation => 0x12,
    }
}

// Whether there is an object before this one and it is of another kind.
fn is_another(before: Option<Kind>, kind: Kind) -> bool
    ensures { result ≡ is_other before kind }
{
    match before {
        Some(last) => byte_of(last) != byte_of(kind),
        None => false,
    }
}

impl Writer {
    /// Appends a reset if the kind differs from that of the last object.
    #[inline(always)]
    pub fn write_reset(&mut self, kind: Kind) -> Result<(), WantOfMemory>
        ensures text { OnOk result
            (self.new.out.items ≡ self.old.out.items ++ reset_text self.old.kind kind) }
        ensures state_is { OnOk result
            (self.new.state ≡ state_before self.old.kind self.old.state kind) }
    {
        if is_another(self.kind, kind) {
            self.out.push(RESET)?;
            self.state.reset();
        }
        Ok(())
    }

    /// Appends the type of an object, its length, and its content, which is in the buffer already.
    #[inline(always)]
    pub fn write_content(&mut self, kind: Kind) -> Result<(), WantOfMemory>
        ensures text { OnOk result (self.new.out.items ≡ self.old.out.items
            ++ kind_byte kind ∷ part_text self.old.buffers.content.items) }
        ensures state_is { OnOk result (self.new.state ≡ self.old.state) }
        ensures kind { OnOk result (self.new.kind ≡ Option.Some kind) }
    {
        self.out.push(byte_of(kind))?;
        write_unsigned(&mut self.out, self.buffers.content.len() as u64)?;
        self.out.extend_from_slice(self.buffers.content.as_slice())?;
        self.kind = Some(kind);
        Ok(())
    }

    /// Appends an object, after a reset if its kind differs from that of the object before it.
    pub fn write_change(&mut self, change: &Change) -> Result<(), WantOfMemory>
        ensures text { OnOk result
            (self.new.out.items ≡ self.old.out.items
            ++ change_text self.old.kind self.old.state change.now) }
        ensures state_is { OnOk result
            (self.new.state ≡ after_change self.old.kind self.old.state change.now) }
        ensures kind { OnOk result (self.new.kind ≡ Option.Some change.now.key.kind) }
    {
        let kind = change.key().kind;
        self.write_reset(kind)?;
        self.buffers.write_object(&mut self.state, change)?;
        self.write_content(kind)
    }
}
