//! Asking a save and its journal for objects: the word `get`.

ghost use Rattle.std.specs.Prelude.{◌≡◌, ◌++◌, ◌∷◌, [], List, IfErr, IfOk, OnErr, OnOk};
ghost use Rattle.std.specs.Prelude.{codes, string_bytes};
ghost use Rattle.osm_blocks.specs.Frames.{ReadsOften};
ghost use Rattle.osm_model.specs.Change.{ChangeValue};
ghost use Rattle.osm_opl.specs.Written.{key_text};
ghost use Rattle.osm_opl.specs.Lists.{letter_of};
ghost use Rattle.osm_model.specs.declared.kind.Key.{Key};
ghost use Rattle.osm_asking.specs.Getting.{HasNoted};
ghost use Rattle.osm_asking.specs.Referring.{AreReferred};
ghost use Rattle.osm_repl.specs.Execution.{CarriesOut};
ghost use Rattle.osm_repl.specs.Getting.{AreLines, AsksFirst, AsksFor, AsksOne, BlamesStore};
ghost use Rattle.osm_repl.specs.Getting.{IsGet, IsGotFor};
ghost use Rattle.osm_repl.specs.Getting.{IsNextLeft, IsNextLine, IsNextOf, IsNotGotFor};
ghost use Rattle.osm_repl.specs.Getting.{IsInputFault, IsStoreFault, IsWordOf, ask_fault_of};
ghost use Rattle.osm_repl.specs.Getting.{first_line, form_for, input_after, search_fault_of};
ghost use Rattle.osm_repl.specs.Getting.{status_for};
ghost use Rattle.osm_repl.specs.Steps.Getting.{Cut, IsNamed, IsNext, IsNextNamed, IsOne, Shown};
ghost use Rattle.osm_repl.specs.Steps.Getting.{Told, at, input_left};

use crate::notes::Notes;
use crate::sought::{Sought, key_of, sought_of};
use itoa::Buffer;
use osm_asking::ask_fault::AskFault;
use osm_asking::fault::SearchFault;
use osm_asking::get::{Asking, Form};
use osm_model::kind::{Key, Kind};
use osm_model::memory::WantOfMemory;
use osm_reading::number_lines::write_bytes;
use osm_reading::pieces::cut;
use osm_runs::fault::{FileName, RunFault};
use osm_runs::kept::kept_fault;
use osm_runs::options::Layout;
use osm_store::store::Store;
use osm_words::orders::Order;
use std::alloc::Global;
use std::io::{self, BufRead, BufReader, Read, Write};

// The words of `get`, and the layout of what it prints.
#[derive(Clone, Copy)]
pub(crate) struct Search<'a> {
    pub(crate) words: &'a [&'a str],
    pub(crate) layout: Layout,
}

// A save that is asked for objects, and whether standard input was read.
#[derive(Drop)]
struct Question<'a> {
    save: &'a str,
    asking: Asking,
    is_read: bool,
}

// Prints the objects that the words name, and gives the status. Those that aren't there are noted.
pub(crate) fn get_and_print<S: Store, R: Read, W: Write>(
    alloc: Global,
    order: Order<'_>,
    search: Search<'_>,
    store: &mut S,
    reader: &mut R,
    writer: &mut W,
    notes: &mut Notes,
) -> Result<u8, RunFault>
    requires get { IsGet order }
    requires unnoted { string_bytes notes.old.word ≡ [] }
    requires no_lines { notes.old.lines.items ≡ [] }
    ensures got { IfOk result (IsGotFor search.entry.layout order.entry search.entry.words.now
        (S.state store.old) (R.remaining reader.old) (W.contents writer.old)
        (W.contents writer.new) notes.new.lines.items) }
    ensures not_got { IfErr result (IsNotGotFor search.entry.layout order.entry
        search.entry.words.now (S.state store.old) (R.remaining reader.old)
        (W.contents writer.old) (W.contents writer.new) notes.new.lines.items
        (string_bytes notes.new.word)) }
    ensures blamed { IfErr result
        (BlamesStore (S.state store.old).failures (S.state store.new).failures) }
    ensures dropped { notes.new.dropped ≡ notes.old.dropped }
    ensures unnoted { OnOk result (string_bytes notes.new.word ≡ []) }
    ensures files { (S.state store.new).files ≡ (S.state store.old).files }
    ensures frame { CarriesOut order.entry (S.state store.old) (S.state store.new) result }
{
    let Order::Get { save, referred } = order else {
        unreachable!()
    };
    let sought = match sought_of(alloc, search.words, &mut notes.word) {
        Ok(sought) => sought,
        Err(fault) => return Err(fault),
    };
    let form = form_of(search.layout);
    let asking = match Asking::open(alloc, store, save, form, referred) {
        Ok(asking) => asking,
        Err(fault) => return Err(ask_fault(fault)),
    };
    let mut question = Question {
        save,
        asking,
        is_read: false,
    };
    match print_sought(
        alloc,
        &mut question,
        store,
        sought.as_slice(),
        reader,
        writer,
        notes,
    ) {
        Ok(()) => {}
        Err(fault) => return Err(fault),
    }
    if referred {
        match print_referred(alloc, &mut question, store, writer, &mut notes.lines) {
            Ok(()) => {}
            Err(fault) => return Err(fault),
        }
    }
    Ok(status_of(notes.lines.as_slice()))
}

fn form_of(layout: Layout) -> Form
    ensures { result ≡ form_for layout }
{
    match layout {
        Layout::Lines => Form::Opl,
        Layout::Json => Form::Json,
    }
}

// 1 if an object isn't there.
fn status_of(lines: &[u8]) -> u8
    ensures { result ≡ status_for lines.now }
{
    match lines {
        [] => 0,
        _ => 1,
    }
}

// Translates the fault of a save that is asked.
fn ask_fault(fault: AskFault) -> RunFault
    ensures { result ≡ ask_fault_of fault }
{
    match fault {
        AskFault::NoSave => RunFault::Absent(FileName::Save),
        AskFault::Kept(fault) => kept_fault(fault),
        AskFault::Search(fault) => search_fault(fault),
        AskFault::NotWritten => RunFault::WriteFault(FileName::Output),
        AskFault::WantOfMemory => RunFault::WantOfMemory,
    }
}

fn search_fault(fault: SearchFault) -> RunFault
    ensures { result ≡ search_fault_of fault }
{
    match fault {
        SearchFault::Failed => RunFault::ReadFault(FileName::Save),
        SearchFault::Gone => RunFault::Changed(FileName::Save),
        SearchFault::BadHead(line) => RunFault::BadSave(line),
        SearchFault::BadLine(byte) => RunFault::BadSaveAt(byte),
        SearchFault::TooLarge => RunFault::TooLarge(FileName::Save),
        SearchFault::WantOfMemory => RunFault::WantOfMemory,
    }
}

// Prints all that the words name, in their order.
fn print_sought<S: Store, R: Read, W: Write>(
    alloc: Global,
    question: &mut Question<'_>,
    store: &mut S,
    sought: &[Sought],
    reader: &mut R,
    writer: &mut W,
    notes: &mut Notes,
) -> Result<(), RunFault>
    requires unnoted { string_bytes notes.old.word ≡ [] }
    ensures shown { OnOk result (Shown
        (AsksFor sought.now (input_left question.old.is_read (R.remaining reader.old)))
        (at (S.state store.old) question.old (W.contents writer.old) notes.old.lines.items)
        (at (S.state store.new) question.new (W.contents writer.new) notes.new.lines.items)) }
    ensures cut { IfErr result (Cut
        (AsksFirst sought.now (input_left question.old.is_read (R.remaining reader.old)))
        (at (S.state store.old) question.old (W.contents writer.old) notes.old.lines.items)
        (W.contents writer.new) notes.new.lines.items (string_bytes notes.new.word)) }
    ensures dropped { notes.new.dropped ≡ notes.old.dropped }
    ensures unnoted { OnOk result (string_bytes notes.new.word ≡ []) }
    ensures frame { ReadsOften IsStoreFault (S.state store.old) (S.state store.new) result }
{
    for each in sought {
        match print_each(alloc, question, store, *each, reader, writer, notes) {
            Ok(()) => {}
            Err(fault) => return Err(fault),
        }
    }
    Ok(())
}

// Prints what a word names. Standard input is read once: a second `-` names nothing.
fn print_each<S: Store, R: Read, W: Write>(
    alloc: Global,
    question: &mut Question<'_>,
    store: &mut S,
    each: Sought,
    reader: &mut R,
    writer: &mut W,
    notes: &mut Notes,
) -> Result<(), RunFault>
    requires unnoted { string_bytes notes.old.word ≡ [] }
    ensures shown { OnOk result (Shown
        (AsksOne each (input_left question.old.is_read (R.remaining reader.old)))
        (at (S.state store.old) question.old (W.contents writer.old) notes.old.lines.items)
        (at (S.state store.new) question.new (W.contents writer.new) notes.new.lines.items)) }
    ensures left { OnOk result (input_left question.new.is_read (R.remaining reader.new)
        ≡ input_after each (input_left question.old.is_read (R.remaining reader.old))) }
    ensures cut { IfErr result (Cut
        (IsNextOf each (input_left question.old.is_read (R.remaining reader.old)))
        (at (S.state store.old) question.old (W.contents writer.old) notes.old.lines.items)
        (W.contents writer.new) notes.new.lines.items (string_bytes notes.new.word)) }
    ensures dropped { notes.new.dropped ≡ notes.old.dropped }
    ensures unnoted { OnOk result (string_bytes notes.new.word ≡ []) }
    ensures frame { ReadsOften IsStoreFault (S.state store.old) (S.state store.new) result }
{
    match each {
        Sought::Object(key) => print_one(alloc, question, store, key, writer, &mut notes.lines),
        Sought::Input if question.is_read => Ok(()),
        Sought::Input => {
            question.is_read = true;
            print_lines(alloc, question, store, reader, writer, notes)
        }
    }
}

// Prints an object, or notes that it isn't there.
fn print_one<S: Store, W: Write>(
    alloc: Global,
    question: &mut Question<'_>,
    store: &mut S,
    key: Key,
    writer: &mut W,
    lines: &mut Vec<u8>,
) -> Result<(), RunFault>
    ensures shown { OnOk result (Shown (IsOne key)
        (at (S.state store.old) question.old (W.contents writer.old) lines.old.items)
        (at (S.state store.new) question.new (W.contents writer.new) lines.new.items)) }
    ensures cut { IfErr result (Cut (IsNext key)
        (at (S.state store.old) question.old (W.contents writer.old) lines.old.items)
        (W.contents writer.new) lines.new.items []) }
    ensures read { question.new.is_read ≡ question.old.is_read }
    ensures frame { ReadsOften IsStoreFault (S.state store.old) (S.state store.new) result }
{
    match question
        .asking
        .print(alloc, store, question.save, key, writer)
    {
        Ok(true) => Ok(()),
        Ok(false) => match note_absent(alloc, key, lines) {
            Ok(()) => Ok(()),
            Err(WantOfMemory) => Err(RunFault::WantOfMemory),
        },
        Err(fault) => Err(ask_fault(fault)),
    }
}

// Notes that an object isn't there: `w-5: not there`. If memory is refused, nothing is noted.
fn note_absent(alloc: Global, key: Key, lines: &mut Vec<u8>) -> Result<(), WantOfMemory>
    ensures noted { OnOk result
        (lines.new.items ≡ lines.old.items ++ (key_text key ++ codes ": not there\n")) }
    ensures unnoted { OnErr result (lines.new.items ≡ lines.old.items) }
{
    let mut line = Vec::new(alloc);
    write_absent(key, &mut line)?;
    lines.extend_from_slice(line.as_slice())?;
    Ok(())
}

fn write_absent(key: Key, line: &mut Vec<u8>) -> Result<(), WantOfMemory>
    ensures { OnOk result
        (line.new.items ≡ line.old.items ++ (key_text key ++ codes ": not there\n")) }
{
    let mut buffer = Buffer::new();
    write_bytes(letter_of(key.kind), line)?;
    write_bytes(buffer.format(key.id).as_bytes(), line)?;
    write_bytes(b": not there\n", line)
}

fn letter_of(kind: Kind) -> &'static [u8]
    ensures { result.now ≡ letter_of kind ∷ [] }
{
    match kind {
        Kind::Node => b"n",
        Kind::Way => b"w",
        Kind::Relation => b"r",
    }
}

// Prints the objects that the lines of a reader name.
fn print_lines<S: Store, R: Read, W: Write>(
    alloc: Global,
    question: &mut Question<'_>,
    store: &mut S,
    reader: &mut R,
    writer: &mut W,
    notes: &mut Notes,
) -> Result<(), RunFault>
    requires unnoted { string_bytes notes.old.word ≡ [] }
    ensures shown { OnOk result (Shown (AreLines (R.remaining reader.old))
        (at (S.state store.old) question.old (W.contents writer.old) notes.old.lines.items)
        (at (S.state store.new) question.new (W.contents writer.new) notes.new.lines.items)) }
    ensures cut { IfErr result (Cut (IsNextLine (R.remaining reader.old))
        (at (S.state store.old) question.old (W.contents writer.old) notes.old.lines.items)
        (W.contents writer.new) notes.new.lines.items (string_bytes notes.new.word)) }
    ensures read { question.new.is_read ≡ question.old.is_read }
    ensures dropped { notes.new.dropped ≡ notes.old.dropped }
    ensures unnoted { OnOk result (string_bytes notes.new.word ≡ []) }
    ensures frame { ReadsOften IsStoreFault (S.state store.old) (S.state store.new) result }
{
    let Ok(mut lines) = BufReader::new(alloc, reader) else {
        return Err(RunFault::WantOfMemory);
    };
    let mut line = Vec::new(alloc);
    'lines: for _ in 0..u64::MAX {
        line.clear();
        match lines.read_until(b'\n', &mut line) {
            Ok(0) => return Ok(()),
            Ok(_) => {}
            Err(error) => return Err(input_fault(error)),
        }
        match print_line(alloc, question, store, line.as_slice(), writer, notes) {
            Ok(()) => {}
            Err(fault) => return Err(fault),
        }
    }
    Err(RunFault::ReadFault(FileName::Input))
}

// Translates the error of standard input, or of the memory for its lines.
fn input_fault(error: io::Error) -> RunFault
    ensures { IsInputFault result }
{
    match error.kind() {
        io::ErrorKind::OutOfMemory => RunFault::WantOfMemory,
        _ => RunFault::ReadFault(FileName::Input),
    }
}

// Prints the object that a line names.
fn print_line<S: Store, W: Write>(
    alloc: Global,
    question: &mut Question<'_>,
    store: &mut S,
    line: &[u8],
    writer: &mut W,
    notes: &mut Notes,
) -> Result<(), RunFault>
    requires unnoted { string_bytes notes.old.word ≡ [] }
    ensures shown { OnOk result (Shown (IsNamed line.now)
        (at (S.state store.old) question.old (W.contents writer.old) notes.old.lines.items)
        (at (S.state store.new) question.new (W.contents writer.new) notes.new.lines.items)) }
    ensures cut { IfErr result (Cut (IsNextNamed line.now)
        (at (S.state store.old) question.old (W.contents writer.old) notes.old.lines.items)
        (W.contents writer.new) notes.new.lines.items (string_bytes notes.new.word)) }
    ensures read { question.new.is_read ≡ question.old.is_read }
    ensures dropped { notes.new.dropped ≡ notes.old.dropped }
    ensures unnoted { OnOk result (string_bytes notes.new.word ≡ []) }
    ensures frame { ReadsOften IsStoreFault (S.state store.old) (S.state store.new) result }
{
    match key_of(alloc, text_of(line), &mut notes.word) {
        Ok(key) => print_one(alloc, question, store, key, writer, &mut notes.lines),
        Err(fault) => Err(fault),
    }
}

// The text of a line without its LF; empty if it isn't text.
fn text_of(line: &[u8]) -> &str
    ensures { IsWordOf (first_line line.now) result.now }
{
    let (line, _) = cut(line, b'\n');
    str::from_utf8(line).unwrap_or("")
}

// Prints the objects that those that were printed refer to.
fn print_referred<S: Store, W: Write>(
    alloc: Global,
    question: &mut Question<'_>,
    store: &mut S,
    writer: &mut W,
    lines: &mut Vec<u8>,
) -> Result<(), RunFault>
    ensures told { OnOk result ((asked : List Key) (there : List ChangeValue)
        → HasNoted asked there question.old.asking → Told (AreReferred asked there)
        (at (S.state store.old) question.old (W.contents writer.old) lines.old.items)
        (at (S.state store.new) question.new (W.contents writer.new) lines.new.items)) }
    ensures cut { IfErr result (λ fault. (asked : List Key) (there : List ChangeValue)
        → HasNoted asked there question.old.asking → Cut (IsNextLeft asked there)
        (at (S.state store.old) question.old (W.contents writer.old) lines.old.items)
        (W.contents writer.new) lines.new.items [] fault) }
    ensures frame { ReadsOften IsStoreFault (S.state store.old) (S.state store.new) result }
{
    let keys = match question.asking.referred(alloc) {
        Ok(keys) => keys,
        Err(_) => return Err(RunFault::WantOfMemory),
    };
    for key in keys.as_slice() {
        match print_one(alloc, question, store, *key, writer, lines) {
            Ok(()) => {}
            Err(fault) => return Err(fault),
        }
    }
    Ok(())
}
