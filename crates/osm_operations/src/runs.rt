//! Runs over a store in memory, whole or killed.

ghost use Rattle.std.specs.Prelude.{◌≡◌, ◌≤◌, IfErr, IfOk, OnErr, OnOk, Some};
ghost use Rattle.std.specs.Prelude.{false, is_some, true};
ghost use Rattle.std.specs.Prelude.{decimal, string_bytes};
ghost use Rattle.std.specs.Str.{IsAscii};
ghost use Rattle.osm_model.specs.Limits.{max_file, max_sequence};
ghost use Rattle.osm_store.specs.Files.{Puts};
ghost use Rattle.osm_runs.specs.Names.{file_name_of};
ghost use Rattle.osm_store.specs.Stores.{calls_of, files_of, inner_of};
ghost use Rattle.osm_operations.specs.Killing.{HasCalls};
ghost use Rattle.osm_operations.specs.Stepping.{AreChangesPut, BeginStep};
ghost use Rattle.osm_operations.specs.Stepping.{ChangesStop, ExportStep, FollowAnswer, FollowStep};
ghost use Rattle.osm_operations.specs.Stepping.{IsNumberKept, IsSpoiledNow};
ghost use Rattle.osm_operations.specs.Stepping.{LacksCallsToBegin, LacksExportCalls};
ghost use Rattle.osm_operations.specs.Stepping.{LacksFollowCalls};
ghost use Rattle.osm_operations.specs.Stepping.{Moves, NumberedStep};
ghost use Rattle.osm_operations.specs.Stepping.{Returns, named};
ghost use Rattle.osm_operations.specs.Stepping.{PublishStep, state_name_of};

use crate::world::Setup;
use osm_beginning::kept::{BeginOptions, begin_kept};
use osm_exporting::kept::export_kept;
use osm_kept::fault::KeptFault;
use osm_kept::heads::read_heads;
use osm_kept::laws::laws_of_kept;
use osm_kept::names::journal_name;
use osm_model::batch::Batch;
use osm_model::filter::Filter;
use osm_model::form::{ChangeForm, FormError};
use osm_model::limits::MAX_SEQUENCE;
use osm_model::memory::WantOfMemory;
use osm_model::time::time_write;
use osm_opl::opl::Opl;
use osm_publishing::publish::publish_run;
use osm_publishing::publish_as::publish_as_run;
use osm_round::kept::follow_kept;
use osm_runs::fault::{FileName, RunFault};
use osm_runs::names::file_name;
use osm_runs::options::FollowOptions;
use osm_runs::progress::Progress;
use osm_runs::report::Report;
use osm_state::laws::laws_of_state;
use osm_state::paths::Suffix;
use osm_store::memory_store::MemoryStore;
use osm_store::stopping_store::StoppingStore;
use std::alloc::Global;
use std::mem;

// Writes the changes in OPL into a file, and publishes that file. A killed run makes that many
// calls after the file of changes is written.
pub(crate) fn publish(
    alloc: Global,
    store: &mut MemoryStore,
    setup: &Setup<'_>,
    batch: &Batch,
    time: u32,
    calls: Option<u64>,
) -> Result<Report, RunFault>
    ensures step { PublishStep calls setup.now.dir.now setup.now.changes.now batch.now time result
        (files_of store.old) (files_of store.new) }
    ensures left { OnOk result (HasCalls 6 calls) }
{
    write_changes(alloc, store, setup.changes, batch)?;
    let written = time_write(time);
    let now = text_of(&written);
    match calls {
        None => publish_run(alloc, store, setup.dir, setup.changes, now),
        Some(calls) => {
            let mut stopping = stopping_over(alloc, store, calls);
            let answer = publish_run(alloc, &mut stopping, setup.dir, setup.changes, now);
            *store = stopping.into_inner();
            answer
        }
    }
}

// Publishes the changes as the sequence of that number.
pub(crate) fn publish_as(
    alloc: Global,
    store: &mut MemoryStore,
    setup: &Setup<'_>,
    batch: &Batch,
    time: u32,
    number: u32,
    calls: Option<u64>,
) -> Result<Report, RunFault>
    ensures step { NumberedStep calls setup.now.dir.now setup.now.changes.now batch.now time number
        result (files_of store.old) (files_of store.new) }
{
    let digits = number_text(alloc, number)?;
    let text = digits.as_str();
    write_changes(alloc, store, setup.changes, batch)?;
    let written = time_write(time);
    let now = text_of(&written);
    match calls {
        None => publish_as_run(alloc, store, setup.dir, setup.changes, now, text),
        Some(calls) => {
            let mut stopping = stopping_over(alloc, store, calls);
            let answer = publish_as_run(alloc, &mut stopping, setup.dir, setup.changes, now, text);
            *store = stopping.into_inner();
            answer
        }
    }
}

fn number_text(alloc: Global, number: u32) -> Result<String, WantOfMemory>
    ensures text { IfOk result (λ text. string_bytes text ≡ decimal number) }
    ensures fits { number ≤ 4294967295 }
{
    Ok(format!(in alloc; "{number}")?)
}

// The word `follow` under that filter.
pub(crate) fn follow(
    alloc: Global,
    store: &mut MemoryStore,
    setup: &Setup<'_>,
    filter: &Filter,
    calls: Option<u64>,
) -> Result<Progress, RunFault>
    requires most { setup.now.sizes.most ≤ max_file }
    ensures answer { FollowAnswer filter.now setup.now.dir.now setup.now.save.now result
        (files_of store.old) (files_of store.new) }
    ensures step { FollowStep filter.now setup.now.dir.now setup.now.save.now result
        (files_of store.old) (files_of store.new) }
    ensures left { OnOk result (HasCalls 4 calls) }
    ensures lacks { IfErr result (LacksFollowCalls filter.now setup.now.dir.now setup.now.save.now
        calls (files_of store.old)) }
{
    laws_of_kept();
    let options = FollowOptions::new(filter.copy(alloc)?);
    let sizes = &setup.sizes;
    match calls {
        None => follow_kept(alloc, store, setup.dir, setup.save, &options, sizes),
        Some(calls) => {
            let mut stopping = stopping_over(alloc, store, calls);
            let answer = follow_kept(alloc, &mut stopping, setup.dir, setup.save, &options, sizes);
            *store = stopping.into_inner();
            answer
        }
    }
}

// The file of a sequence that is spoiled for a while, and the bytes that it held.
#[derive(Drop)]
pub(crate) struct Spoiled {
    name: String,
    bytes: Vec<u8>,
}

// Spoils the file of a sequence: it holds the one byte `x` then. None if it isn't there.
pub(crate) fn spoil(
    alloc: Global,
    store: &mut MemoryStore,
    dir: &str,
    number: u32,
    suffix: Suffix,
) -> Result<Option<Spoiled>, WantOfMemory>
    requires { number ≤ max_sequence }
    ensures spoiled { IfOk result (λ o. IsSpoiledNow (file_name_of dir.now number suffix) o
        (files_of store.old) (files_of store.new)) }
    ensures refused { OnErr result (files_of store.new ≡ files_of store.old) }
{
    let name = file_name(alloc, dir, number, suffix)?;
    let mut bytes = Vec::from_slice(alloc, b"x")?;
    if !store.exchange(name.as_str(), &mut bytes) {
        return Ok(None);
    }
    Ok(Some(Spoiled { name, bytes }))
}

// Puts back what a spoiled file held.
pub(crate) fn mend(store: &mut MemoryStore, spoiled: Spoiled)
    ensures { is_some (files_of store.old (string_bytes spoiled.name)) ≡ true
        → Puts (files_of store.old) (string_bytes spoiled.name) (Some spoiled.bytes.items)
        (files_of store.new) }
{
    let mut bytes = spoiled.bytes;
    store.exchange(spoiled.name.as_str(), &mut bytes);
}

// Exports the objects of what the save and its journal keep.
pub(crate) fn export(
    alloc: Global,
    store: &mut MemoryStore,
    save: &str,
    extract: &str,
    calls: Option<u64>,
) -> Result<Report, RunFault>
    ensures step { ExportStep save.now extract.now result
        (files_of store.old) (files_of store.new) }
    ensures left { OnOk result (HasCalls 4 calls) }
    ensures lacks { IfErr result (LacksExportCalls save.now calls (files_of store.old)) }
{
    match calls {
        None => export_kept(alloc, store, save, extract),
        Some(calls) => {
            let mut stopping = stopping_over(alloc, store, calls);
            let answer = export_kept(alloc, &mut stopping, save, extract);
            *store = stopping.into_inner();
            answer
        }
    }
}

// The number of what the save and its journal keep, from their heads; 0 if there is no save, or if
// the journal is one of another save that ends above it, beside which no export is done. Two files
// that are in step are read unless memory is refused, so any other fault counts as that.
pub(crate) fn kept_number(
    alloc: Global,
    store: &mut MemoryStore,
    save: &str,
) -> Result<u32, WantOfMemory>
    ensures number { IfOk result (λ number. IsNumberKept number save.now (files_of store.old)) }
    ensures same { files_of store.new ≡ files_of store.old }
{
    laws_of_kept();
    let journal = journal_name(alloc, save)?;
    match read_heads(alloc, store, save, journal.as_str()) {
        Ok(None) => Ok(0),
        Ok(Some(head)) => Ok(head.number),
        Err(KeptFault::OtherJournal(_number)) => Ok(0),
        Err(_) => Err(WantOfMemory),
    }
}

// Begins the save with what was exported, at the state of that number.
pub(crate) fn begin(
    alloc: Global,
    store: &mut MemoryStore,
    setup: &Setup<'_>,
    filter: &Filter,
    number: u32,
    calls: Option<u64>,
) -> Result<Report, RunFault>
    ensures step { BeginStep filter.now setup.now.dir.now number setup.now.extract.now
        setup.now.save.now result (files_of store.old) (files_of store.new) }
    ensures left { OnOk result (HasCalls 3 calls) }
    ensures lacks { IfErr result
        (LacksCallsToBegin setup.now.extract.now calls (files_of store.old)) }
{
    laws_of_state();
    laws_of_kept();
    let save = setup.save;
    let extract = setup.extract;
    let name = state_name(alloc, setup.dir, number)?;
    let state = name.as_str();
    let options = &begin_options(alloc, filter)?;
    let dropped = &mut None;
    match calls {
        None => begin_kept(alloc, store, extract, state, save, options, dropped),
        Some(calls) => {
            let mut stopping = stopping_over(alloc, store, calls);
            let answer = begin_kept(alloc, &mut stopping, extract, state, save, options, dropped);
            *store = stopping.into_inner();
            answer
        }
    }
}

// What a beginning under the filter is asked for.
fn begin_options(alloc: Global, filter: &Filter) -> Result<BeginOptions, WantOfMemory>
    ensures filter { IfOk result (λ options. options.filter ≡ filter.now) }
    ensures timely { IfOk result (λ options. options.any_time ≡ false) }
{
    Ok(BeginOptions {
        filter: filter.copy(alloc)?,
        any_time: false,
    })
}

// The name of the state of a sequence. None has a number past the last one.
fn state_name(alloc: Global, dir: &str, number: u32) -> Result<String, WantOfMemory>
    ensures { IfOk result (λ name. string_bytes name ≡ state_name_of dir.now number) }
{
    file_name(alloc, dir, number.min(MAX_SEQUENCE), Suffix::State)
}

// The store, moved into a stopping one; an empty one replaces it until it is moved back.
fn stopping_over(alloc: Global, store: &mut MemoryStore, calls: u64) -> StoppingStore<MemoryStore>
    ensures inner { files_of (inner_of result) ≡ files_of store.old }
    ensures calls { calls_of result ≡ calls }
{
    StoppingStore::new(mem::replace(store, MemoryStore::new(alloc)), calls)
}

fn write_changes(
    alloc: Global,
    store: &mut MemoryStore,
    name: &str,
    batch: &Batch,
) -> Result<(), RunFault>
    ensures written { OnOk result
        (AreChangesPut name.now batch.now (files_of store.old) (files_of store.new)) }
    ensures stops { IfErr result (ChangesStop batch.now) }
    ensures refused { OnErr result (files_of store.new ≡ files_of store.old) }
{
    batch.limits();
    let text = match Opl::write(alloc, batch) {
        Ok(text) => text,
        Err(FormError::WantOfMemory) => return Err(RunFault::WantOfMemory),
        Err(FormError::TooLarge) => return Err(RunFault::TooLarge(FileName::Changes)),
        Err(FormError::Fault { place: _, why: _ }) => unreachable!(),
    };
    store.put(alloc, name, text.as_slice())?;
    Ok(())
}

fn text_of(time: &[u8; 20]) -> &str
    requires { IsAscii time.now }
    ensures { result.now ≡ time.now }
{
    match str::from_utf8(time) {
        Ok(text) => text,
        Err(_) => unreachable!(),
    }
}

// The names of the two files of a sequence's changes.
#[derive(Drop)]
pub(crate) struct FormNames {
    pub(crate) o5c: String,
    pub(crate) opl: String,
}

// No sequence has the number 0 or one past the last; names of other files stand in for theirs.
pub(crate) fn form_names(alloc: Global, dir: &str, number: u32) -> Result<FormNames, WantOfMemory>
    ensures o5c { IfOk result (λ names. string_bytes names.o5c
        ≡ file_name_of dir.now (named number) Suffix.O5c) }
    ensures opl { IfOk result (λ names. string_bytes names.opl
        ≡ file_name_of dir.now (named number) Suffix.Opl) }
{
    let number = number.min(MAX_SEQUENCE).max(1);
    Ok(FormNames {
        o5c: file_name(alloc, dir, number, Suffix::O5c)?,
        opl: file_name(alloc, dir, number, Suffix::Opl)?,
    })
}

// Whether a lost file is in the store again; then it is a lost one no longer.
pub(crate) fn returns(name: &str, store: &MemoryStore, lost: &mut MemoryStore) -> bool
    ensures { Returns result name.now (files_of store.now) (files_of lost.old) (files_of lost.new) }
{
    if store.get(name).is_none() || lost.get(name).is_none() {
        return false;
    }
    lost.remove(name);
    true
}

// Moves a file of a sequence from one store to another; false if it isn't there.
pub(crate) fn move_file(
    alloc: Global,
    from: &mut MemoryStore,
    to: &mut MemoryStore,
    dir: &str,
    number: u32,
    suffix: Suffix,
) -> Result<bool, WantOfMemory>
    requires { number ≤ max_sequence }
    ensures moved { IfOk result (λ is_moved. Moves is_moved (file_name_of dir.now number suffix)
        (files_of from.old) (files_of to.old) (files_of from.new) (files_of to.new)) }
    ensures from_kept { OnErr result (files_of from.new ≡ files_of from.old) }
    ensures to_kept { OnErr result (files_of to.new ≡ files_of to.old) }
{
    let name = file_name(alloc, dir, number, suffix)?;
    let Some(bytes) = from.get(name.as_str()) else {
        return Ok(false);
    };
    to.put(alloc, name.as_str(), bytes)?;
    from.remove(name.as_str());
    Ok(true)
}
