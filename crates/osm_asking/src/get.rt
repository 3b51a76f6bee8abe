//! The word `get`: prints the objects with some keys.

ghost use Rattle.std.specs.Prelude.{◌≡◌, ◌≤◌, ◌^◌, ◌++◌, ◌∷◌, [], ℕ, List, Option, Some, false};
ghost use Rattle.std.specs.Prelude.{IfErr, IfOk, IfSome, OnOk, IsTrue, is_some, length};
ghost use Rattle.std.specs.Io.KnownBytes.{Appends};
ghost use Rattle.osm_blocks.specs.Frames.{ReadsOften};
ghost use Rattle.osm_model.specs.Change.{ChangeValue};
ghost use Rattle.osm_model.specs.declared.kind.Key.{Key};
ghost use Rattle.osm_opl.specs.Written.{line_text};
ghost use Rattle.osm_save.specs.declared.save.Saved.{Saved};
ghost use Rattle.osm_store.specs.Frames.{IsKnown, MakesAtMost};
ghost use Rattle.osm_kept.specs.Names.{journal_name_of};
ghost use Rattle.osm_asking.specs.Asking.{IsAskFailed, OpenStops};
ghost use Rattle.osm_asking.specs.Getting.{HasNoted, IsAsking, IsNotPrinted, IsPrinted};
ghost use Rattle.osm_asking.specs.Getting.{IsSameAsking, KnowsEnd, answer_text, form_of};
ghost use Rattle.osm_asking.specs.Getting.{notes_references, object_text};
ghost use Rattle.osm_asking.specs.Reads.{IsPlainSave, most_reads};
ghost use Rattle.osm_asking.specs.Referring.{AreReferred, noted_at};
ghost use Rattle.osm_asking.specs.Steps.Printing.{PutStops, noted_after};
ghost use Rattle.osm_asking.specs.declared.ask_fault.AskFault.TheVariants as asks;

use crate::ask_fault::AskFault;
use crate::json::write_json;
use crate::kept::{Sources, answer, open_sources};
use crate::referred::Referred;
use osm_model::change::Change;
use osm_model::kind::Key;
use osm_model::memory::WantOfMemory;
use osm_reading::writing::{NotWritten, write_whole};
use osm_store::store::Store;
use std::alloc::Global;
use std::io::Write;

/// How an object is printed.
#[derive(Clone, Copy, Debug, PartialEq, Eq)]
pub enum Form {
    /// As a line of OPL.
    Opl,
    /// As a line of JSON, with the names of the OSM API.
    Json,
}

/// A save and its journal that are asked for objects.
#[derive(Drop)]
pub struct Asking {
    sources: Sources,
    form: Form,
    end: u64,
    line: Vec<u8>,
    referred: Referred,
    refers: bool,
}

impl Asking {
    /// Opens a save and its journal. If `refers`, what the objects refer to is noted.
    pub fn open<S: Store>(
        alloc: Global,
        store: &mut S,
        save: &str,
        form: Form,
        refers: bool,
    ) -> Result<Asking, AskFault>
        ensures opened { IfOk result (IsAsking (IsKnown (S.state store.old))
            ((S.state store.old).files save.now)
            ((S.state store.old).files (journal_name_of save.now))) }
        ensures form { IfOk result (λ asking. form_of asking ≡ form) }
        ensures refers { IfOk result (λ asking. notes_references asking ≡ refers) }
        ensures noted { IfOk result (HasNoted [] []) }
        ensures ended { IfOk result (λ asking. (file : List ℕ) → length file ≤ 2 ^ 40
            → KnowsEnd file asking) }
        ensures stops { IfErr result (OpenStops (S.state store.old) save.now
            ((S.state store.old).files (journal_name_of save.now))) }
        ensures frame { ReadsOften IsAskFailed (S.state store.old) (S.state store.new) result }
    {
        match open_sources(alloc, store, save) {
            Ok(sources) => Ok(Asking {
                sources,
                form,
                end: u64::MAX,
                line: Vec::new(alloc),
                referred: Referred::new(alloc),
                refers,
            }),
            Err(fault) => Err(fault),
        }
    }

    /// Prints the line of the object with that key; false if it isn't there, and nothing is
    /// printed. At most as many blocks of the save are read as by `find_line`.
    pub fn print<S: Store, W: Write>(
        &mut self,
        alloc: Global,
        store: &mut S,
        save: &str,
        key: Key,
        writer: &mut W,
    ) -> Result<bool, AskFault>
        ensures printed { IfOk result (λ is_there. (journal : Option (List ℕ))
            → IsAsking (IsKnown (S.state store.old)) ((S.state store.old).files save.now) journal
            self.old
            → IsPrinted (IsKnown (S.state store.old)) ((S.state store.old).files save.now) journal
            key self.old self.new (W.contents writer.old) (W.contents writer.new) is_there) }
        ensures not_printed { IfErr result (λ fault. (journal : Option (List ℕ))
            → IsAsking (IsKnown (S.state store.old)) ((S.state store.old).files save.now) journal
            self.old
            → IsNotPrinted (S.state store.old) save.now journal key self.old
            (W.contents writer.old) (W.contents writer.new) fault) }
        ensures same { IsSameAsking self.old self.new }
        ensures refers { notes_references self.new ≡ notes_references self.old }
        ensures frame { ReadsOften IsAskFailed (S.state store.old) (S.state store.new) result }
        ensures calls { (journal : Option (List ℕ)) (file : List ℕ) (v : Saved)
            → IsAsking (IsKnown (S.state store.old)) ((S.state store.old).files save.now) journal
            self.old → IsPlainSave (S.state store.old) save.now file v → KnowsEnd file self.old
            → MakesAtMost IsAskFailed most_reads (S.state store.old) (S.state store.new) result }
        ensures ended { (journal : Option (List ℕ)) (file : List ℕ) (v : Saved)
            → IsAsking (IsKnown (S.state store.old)) ((S.state store.old).files save.now) journal
            self.old → IsPlainSave (S.state store.old) save.now file v → KnowsEnd file self.old
            → KnowsEnd file self.new }
    {
        let found = match answer(
            alloc,
            store,
            save,
            &self.sources,
            key,
            &mut self.end,
            &mut self.line,
        ) {
            Ok(found) => found,
            Err(fault) => return Err(fault),
        };
        match note(&mut self.referred, self.refers, key, &found) {
            Ok(()) => {}
            Err(WantOfMemory) => return Err(AskFault::WantOfMemory),
        }
        match put(alloc, self.form, &found, &mut self.line, writer) {
            Ok(is_there) => Ok(is_there),
            Err(fault) => Err(fault),
        }
    }

    /// The keys that were referred to and weren't asked for, rising. What their objects refer to in
    /// turn isn't noted.
    pub fn referred(&mut self, alloc: Global) -> Result<Vec<Key>, AskFault>
        ensures referred { IfOk result (λ left. (asked : List Key) (printed : List ChangeValue)
            → HasNoted asked printed self.old → AreReferred asked printed left.items) }
        ensures stops { IfErr result (λ fault. fault ≡ asks.WantOfMemory) }
        ensures same { IsSameAsking self.old self.new }
        ensures refers { notes_references self.new ≡ false }
    {
        self.refers = false;
        match self.referred.left(alloc) {
            Ok(left) => Ok(left),
            Err(WantOfMemory) => Err(AskFault::WantOfMemory),
        }
    }
}

// Notes the key, and what its object refers to, if that is wanted.
fn note(
    referred: &mut Referred,
    refers: bool,
    key: Key,
    found: &Option<Change>,
) -> Result<(), WantOfMemory>
    ensures { OnOk result ((k : Key) → noted_at referred.new.keys.entries k
        ≡ noted_after refers key found.now k (noted_at referred.old.keys.entries k)) }
{
    if !refers {
        return Ok(());
    }
    referred.asked(key)?;
    match found {
        None => Ok(()),
        Some(object) => referred.note(object),
    }
}

// Prints the object whose line of OPL was left; false if there is none.
fn put<W: Write>(
    alloc: Global,
    form: Form,
    found: &Option<Change>,
    line: &mut Vec<u8>,
    writer: &mut W,
) -> Result<bool, AskFault>
    requires { IfSome found.now (λ c. line.old.items ≡ line_text c) }
    ensures put { IfOk result (λ is_there. (is_there ≡ is_some found.now)
        × Appends (W.contents writer.old) (W.contents writer.new)
        (answer_text form found.now)) }
    ensures stops { IfErr result (PutStops form found.now
        (W.contents writer.old) (W.contents writer.new)) }
{
    match found {
        None => Ok(false),
        Some(object) => put_object(alloc, form, object, line, writer),
    }
}

fn put_object<W: Write>(
    alloc: Global,
    form: Form,
    object: &Change,
    line: &mut Vec<u8>,
    writer: &mut W,
) -> Result<bool, AskFault>
    requires { line.old.items ≡ line_text object.now }
    ensures put { IfOk result (λ is_there. IsTrue is_there
        × Appends (W.contents writer.old) (W.contents writer.new)
        (object_text form object.now ++ 10 ∷ [])) }
    ensures stops { IfErr result (PutStops form (Some object.now)
        (W.contents writer.old) (W.contents writer.new)) }
{
    match finish_line(alloc, form, object, line) {
        Ok(()) => {}
        Err(WantOfMemory) => return Err(AskFault::WantOfMemory),
    }
    match write_whole(writer, line.as_slice()) {
        Ok(()) => Ok(true),
        Err(NotWritten) => Err(AskFault::NotWritten),
    }
}

// Leaves the line of the object in its form, with LF, in place of its line of OPL.
fn finish_line(
    alloc: Global,
    form: Form,
    object: &Change,
    line: &mut Vec<u8>,
) -> Result<(), WantOfMemory>
    requires { line.old.items ≡ line_text object.now }
    ensures { OnOk result (line.new.items ≡ object_text form object.now ++ 10 ∷ []) }
{
    match form {
        Form::Opl => end_line(line),
        Form::Json => {
            line.clear();
            write_json(alloc, object, line)?;
            end_line(line)
        }
    }
}

fn end_line(line: &mut Vec<u8>) -> Result<(), WantOfMemory>
    ensures { OnOk result (line.new.items ≡ line.old.items ++ 10 ∷ []) }
{
    line.push(b'\n')?;
    Ok(())
}
