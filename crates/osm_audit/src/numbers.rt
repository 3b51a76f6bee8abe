//! Auditing the files of a range of numbers.

ghost use Rattle.std.specs.Prelude.{IfOk, OnOk, ◌≡◌, ◌≤◌, ◌<◌, ◌+◌, ◌-◌, ◌*◌, ◌++◌, List, []};
ghost use Rattle.osm_model.specs.Limits.{max_sequence};
ghost use Rattle.osm_store.specs.Frames.{IsKnown};
ghost use Rattle.osm_runs.specs.Runs.{Reads, ReadsUpTo};
ghost use Rattle.osm_audit.specs.Findings.{AreFindings, noted};
ghost use Rattle.osm_audit.specs.Steps.Looking.{AddsNumber, IsLookedAt};
ghost use Rattle.osm_audit.specs.Steps.Looking.{IsLookedUpTo, IsTopCause, IsTopRead, NumberStops};
ghost use Rattle.osm_audit.specs.Steps.Looking.{RangeStops, is_said_lost, ranged};
ghost use Rattle.osm_runs.specs.Names.{top_name_of};
ghost use Rattle.std.specs.Prelude.{IfErr};

use crate::changes::{ChangesSaid, check_changes};
use crate::finding::{Cause, Finding, Found};
use crate::states::check_state;
use osm_model::memory::WantOfMemory;
use osm_runs::fault::{FileName, RunFault};
use osm_state::laws::laws_of_state;
use osm_state::paths::Suffix;
use osm_state::state::State;
use osm_store::store::Store;
use std::alloc::Global;

// The findings of the numbers of a range, and of the newest state.
pub(crate) fn look_through<S: Store>(
    alloc: Global,
    store: &mut S,
    dir: &str,
    from: u32,
    to: u32,
    top: Option<State>,
) -> Result<Vec<Found>, RunFault>
    requires first { 0 < from }
    requires until { from ≤ to + 1 }
    requires most { to ≤ max_sequence }
    ensures found { IfOk result (λ found. IsKnown (S.state store.old)
        → IsTopRead ((S.state store.old).files (top_name_of dir.now)) top
        → AreFindings (S.state store.old).files dir.now from to found.items) }
    ensures stops { IfErr result (RangeStops from to) }
    ensures frame { ReadsUpTo (3 * (to + 1 - from)) (S.state store.old) (S.state store.new) result }
{
    let mut findings = Vec::new(alloc);
    let looked = look_at_each(alloc, store, dir, from, to, &mut findings)?;
    end_range(looked.lost, to, &mut findings)?;
    note(
        to,
        FileName::Top,
        cause_of_top(top, to, looked.time),
        &mut findings,
    )?;
    Ok(findings)
}

// What was found up to a number: the time of its state, and the first number of the range of which
// no file is there, if it is in one.
#[derive(Clone, Copy)]
pub(crate) struct Looked {
    pub(crate) time: Option<u32>,
    pub(crate) lost: Option<u32>,
}

// Adds the findings of the numbers, except that of a range that reaches the last number.
fn look_at_each<S: Store>(
    alloc: Global,
    store: &mut S,
    dir: &str,
    from: u32,
    to: u32,
    findings: &mut Vec<Found>,
) -> Result<Looked, RunFault>
    requires first { 0 < from }
    requires until { from ≤ to + 1 }
    requires most { to ≤ max_sequence }
    requires none { findings.old.items ≡ [] }
    ensures found { IfOk result (λ looked. IsKnown (S.state store.old) → IsLookedUpTo
        (S.state store.old).files dir.now from (to + 1) findings.new.items looked) }
    ensures stops { IfErr result (RangeStops from to) }
    ensures frame { ReadsUpTo (3 * (to + 1 - from)) (S.state store.old) (S.state store.new) result }
{
    laws_of_state();
    let mut looked = Looked {
        time: None,
        lost: None,
    };
    for before in from - 1..to {
        match look_at(alloc, store, dir, before + 1, looked, findings) {
            Ok(next) => looked = next,
            Err(fault) => return Err(fault),
        }
    }
    Ok(looked)
}

// Adds the findings of a number after those before it.
fn look_at<S: Store>(
    alloc: Global,
    store: &mut S,
    dir: &str,
    number: u32,
    before: Looked,
    findings: &mut Vec<Found>,
) -> Result<Looked, RunFault>
    requires first { 0 < number }
    requires most { number ≤ max_sequence }
    ensures found { IfOk result (λ looked. IsKnown (S.state store.old) → IsLookedAt
        (S.state store.old).files dir.now number before
        findings.old.items findings.new.items looked) }
    ensures stops { IfErr result (NumberStops number) }
    ensures frame { Reads 3 (S.state store.old) (S.state store.new) result }
{
    let state = check_state(alloc, store, dir, number, before.time)?;
    let changes = check_changes(alloc, store, dir, number)?;
    let lost = add_number(number, before.lost, state.cause, changes, findings)?;
    Ok(Looked {
        time: state.time,
        lost,
    })
}

// Adds what is said of the files of a number, and gives the first number of the range that it is
// in. No finding is added for a number of which no file is there: the range ends before the next
// number that has one.
fn add_number(
    number: u32,
    lost: Option<u32>,
    state: Option<Cause>,
    changes: ChangesSaid,
    findings: &mut Vec<Found>,
) -> Result<Option<u32>, WantOfMemory>
    requires { 0 < number }
    ensures { IfOk result (AddsNumber number lost state changes.o5c changes.opl
        findings.old.items findings.new.items) }
{
    if is_lost(state, changes.o5c) {
        return Ok(Some(lost.unwrap_or(number)));
    }
    end_range(lost, number - 1, findings)?;
    note(
        number,
        FileName::Sequence(number, Suffix::State),
        state,
        findings,
    )?;
    note(
        number,
        FileName::Sequence(number, Suffix::O5c),
        changes.o5c,
        findings,
    )?;
    note(
        number,
        FileName::Sequence(number, Suffix::Opl),
        changes.opl,
        findings,
    )?;
    Ok(None)
}

// Whether no file of a number is there. The o5c file is absent only if the OPL file is too.
fn is_lost(state: Option<Cause>, o5c: Option<Cause>) -> bool
    ensures { result ≡ is_said_lost state o5c }
{
    match (state, o5c) {
        (Some(Cause::Absent), Some(Cause::Absent)) => true,
        _ => false,
    }
}

// Adds the range that ends at that number, if there is one.
fn end_range(lost: Option<u32>, last: u32, findings: &mut Vec<Found>) -> Result<(), WantOfMemory>
    ensures { OnOk result (findings.new.items ≡ findings.old.items ++ ranged lost last) }
{
    if let Some(first) = lost {
        findings.push(Found::Numbers(first, last))?;
    }
    Ok(())
}

// Adds a finding, if there is a cause.
fn note(
    number: u32,
    file: FileName,
    cause: Option<Cause>,
    findings: &mut Vec<Found>,
) -> Result<(), WantOfMemory>
    ensures { OnOk result
        (findings.new.items ≡ findings.old.items ++ noted number file cause) }
{
    if let Some(cause) = cause {
        findings.push(Found::File(Finding {
            number,
            file,
            cause,
        }))?;
    }
    Ok(())
}

// Why the newest state is wrong, beside the time of the last number's own state.
fn cause_of_top(top: Option<State>, to: u32, time: Option<u32>) -> Option<Cause>
    ensures { IsTopCause top to time result }
{
    match (top, time) {
        (Some(top), Some(time)) if top.sequence() == to && top.time() != time => {
            Some(Cause::Differs)
        }
        _ => None,
    }
}
