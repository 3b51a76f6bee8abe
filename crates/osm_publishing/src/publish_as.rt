//! Publishing as a number that is asked for, so that the same command never publishes twice.

ghost use Rattle.std.specs.Prelude.{◌≡◌, ℕ, ◌-◌, ◌<◌, ◌≤◌, [], IsTrue, IfErr, IfOk, OnOk};
ghost use Rattle.osm_model.specs.Limits.{IsPositive, max_sequence};
ghost use Rattle.osm_reading.specs.Sequence.{SpellsSequence};
ghost use Rattle.osm_runs.specs.Folder.{KeepsOthers, OverFolder};
ghost use Rattle.osm_store.specs.Frames.{IsKnown};
ghost use Rattle.osm_publishing.specs.Numbered.{IsPublishedAs, NotNumbered, NumberedOut};
ghost use Rattle.osm_publishing.specs.Numbered.{NumberedStops};
ghost use Rattle.osm_publishing.specs.Numbered.{PublishesAsOver, SpendsNumbered};
ghost use Rattle.osm_runs.specs.Reports.{publish_report_of};
ghost use Rattle.osm_runs.specs.Runs.{CallsFromTo, IfFilesKnown, Reads, RunsOut};
ghost use Rattle.osm_publishing.specs.Steps.Numbering.{AreReadWords, CheckOut, IsAskedIn};
ghost use Rattle.osm_publishing.specs.Steps.Numbering.{IsPreparedIn};
ghost use Rattle.osm_publishing.specs.Steps.Numbering.{PrepareStopsIn, asked_calls};
ghost use Rattle.osm_publishing.specs.Steps.Publishing.{ReadsOut, from_top};

use crate::compare::check_published;
use crate::publish::{Publication, make, newest, publisher_from, read_changes, write_files};
use osm_model::batch::Batch;
use osm_model::time::time_read;
use osm_publisher::publisher::Publisher;
use osm_reading::sequence::sequence_read;
use osm_runs::fault::RunFault;
use osm_runs::report::{Report, publish_report};
use osm_state::laws::laws_of_state;
use osm_state::state::State;
use osm_store::store::Store;
use std::alloc::Global;

// The sequence that is asked for, and the folder's newest state.
#[derive(Drop)]
struct Asked {
    number: u32,
    time: u32,
    batch: Batch,
    top: Option<State>,
}

/// Publishes the changes of an OPL file as the sequence number `sequence` at the time `now`, or
/// refuses. The number has 1 to 9 digits, and the time is `YYYY-MM-DDTHH:MM:SSZ`. The number after
/// the newest one is published as `publish_run` does. A number that was published with the same
/// changes at the same time counts as done. The newest number's files are then written again, in
/// case the last run was cut short; for an older number nothing is written. Any other number is
/// refused.
pub fn publish_as_run<S: Store>(
    alloc: Global,
    store: &mut S,
    dir: &str,
    changes: &str,
    now: &str,
    sequence: &str,
) -> Result<Report, RunFault>
    ensures published { IfOk result (λ report. IfFilesKnown (S.state store.old) (S.state store.new)
        (λ old new. IsPublishedAs dir.now changes.now now.now sequence.now old new report)) }
    ensures report { IfOk result (λ report. (n : ℕ) × SpellsSequence sequence.now n
        × (report ≡ publish_report_of n)) }
    ensures stops { IfErr result
        (NumberedStops (IsKnown (S.state store.old)) dir.now changes.now now.now sequence.now
        (S.state store.old).files (S.state store.new).files) }
    ensures over { OverFolder (S.state store.old) dir.now (λ published. PublishesAsOver published
        dir.now changes.now now.now sequence.now
        (S.state store.old).files (S.state store.new).files result) }
    ensures out { RunsOut (S.state store.old) result
        (NumberedOut dir.now sequence.now (S.state store.old).files) }
    ensures others { KeepsOthers (S.state store.old) (S.state store.new) dir.now }
    ensures exact { OnOk result
        (SpendsNumbered (S.state store.old) (S.state store.new) dir.now sequence.now) }
    ensures frame { CallsFromTo 5 9 (S.state store.old) (S.state store.new) result }
{
    laws_of_state();
    let asked = read_asked(alloc, store, dir, changes, now, sequence)?;
    let number = asked.number;
    let Some(made) = prepare(alloc, store, dir, asked)? else {
        return Ok(publish_report(alloc, number)?);
    };
    write_files(alloc, store, &made.names, &made.published)?;
    Ok(made.report)
}

// Reads the words, the newest state and the changes.
fn read_asked<S: Store>(
    alloc: Global,
    store: &mut S,
    dir: &str,
    changes: &str,
    now: &str,
    sequence: &str,
) -> Result<Asked, RunFault>
    ensures asked { IfOk result
        (IsAskedIn (S.state store.old) dir.now changes.now now.now sequence.now) }
    ensures words { IfOk result (AreReadWords now.now sequence.now) }
    ensures stops { IfErr result (NotNumbered (IsKnown (S.state store.old))
        dir.now changes.now now.now sequence.now (S.state store.old).files) }
    ensures out { RunsOut (S.state store.old) result ReadsOut }
    ensures frame { Reads 2 (S.state store.old) (S.state store.new) result }
{
    let Some(time) = time_read(now.as_bytes()) else {
        return Err(RunFault::BadNow);
    };
    let Some(number) = sequence_read(sequence.as_bytes()) else {
        return Err(RunFault::BadSequence);
    };
    let top = newest(alloc, store, dir)?;
    let batch = read_changes(alloc, store, changes)?;
    Ok(Asked {
        number,
        time,
        batch,
        top,
    })
}

// Makes all that is to be written; none if the number is an old one, published as it is asked for.
fn prepare<S: Store>(
    alloc: Global,
    store: &mut S,
    dir: &str,
    asked: Asked,
) -> Result<Option<Publication>, RunFault>
    requires most { asked.number ≤ max_sequence }
    requires time { IsPositive asked.time }
    ensures made { IfOk result (IsPreparedIn (S.state store.old) dir.now asked) }
    ensures stops { IfErr result (PrepareStopsIn (S.state store.old) dir.now asked) }
    ensures out { RunsOut (S.state store.old) result (CheckOut asked.number) }
    ensures frame { Reads (asked_calls asked) (S.state store.old) (S.state store.new) result }
{
    let (number, time) = (asked.number, asked.time);
    let top = number_of(asked.top);
    if number == top + 1 {
        let next = publisher_from(alloc, asked.top);
        return Ok(Some(make(alloc, dir, next, asked.batch, time)?));
    }
    if number == 0 || top < number {
        return Err(RunFault::TopAt(top));
    }
    if number == top && !is_time_of(asked.top, time) {
        return Err(RunFault::Differs(number));
    }
    check_published(alloc, store, dir, number, time, &asked.batch)?;
    if number < top {
        return Ok(None);
    }
    let before = publisher_before(alloc, number, time);
    Ok(Some(make(alloc, dir, before, asked.batch, time)?))
}

// The number of the newest state; 0 if there is none.
fn number_of(top: Option<State>) -> u32
    ensures { result ≡ (from_top top).number }
{
    match top {
        Some(state) => state.sequence(),
        None => 0,
    }
}

// Whether the newest state has that time.
fn is_time_of(top: Option<State>, time: u32) -> bool
    ensures same { IsTrue result → time ≡ (from_top top).time }
    ensures only { 0 < (from_top top).number → time ≡ (from_top top).time → IsTrue result }
{
    match top {
        Some(state) => state.time() == time,
        None => false,
    }
}

// The publisher whose next sequence is that one.
fn publisher_before(alloc: Global, number: u32, time: u32) -> Publisher
    requires { (0 < number) × (number ≤ max_sequence) × IsPositive time }
    ensures { result ≡ record { number = number - 1; time = time; pending = [] } }
{
    let Some(state) = State::new(number - 1, time) else {
        unreachable!()
    };
    Publisher::resume(alloc, &state)
}
