//! Checks before a run takes its lock: the words of the command line and the clock.

ghost use Rattle.std.specs.Prelude.{◌≡◌, ◌+◌, ◌<◌, ◌≤◌, IfErr, IfOk, MatchBool, OnOk, map};
ghost use Rattle.osm_runs.specs.DataForms.{HasNoDataForm};
ghost use Rattle.osm_runs.specs.DataForms.{HasDataForm};
ghost use Rattle.osm_runs.specs.Filters.{FilterStops, IsAsked};
ghost use Rattle.osm_publishing.specs.Publication.{HasTime};
ghost use Rattle.osm_runs.specs.declared.fault.RunFault.{RunFault};
ghost use Rattle.osm_repl.specs.Checks.{AreGoodWords, HasNoNumber, HasNoTime, HasNumber};
ghost use Rattle.osm_repl.specs.Checks.{HasNumberOrNone, IsChoice, RefusesChoice, RefusesEnds};
ghost use Rattle.osm_repl.specs.Checks.{RefusesRange};
ghost use Rattle.osm_repl.specs.Checks.{IsAhead, IsFilterOf, IsLimit, IsPast, RefusesExtract};
ghost use Rattle.osm_repl.specs.Checks.{RefusesLimit, RefusesNumbered, RefusesOrder, RefusesWords};
ghost use Rattle.osm_repl.specs.Checks.{layout_for};

use crate::numbers::{number_of, range_of};
use osm_model::filter::Filter;
use osm_model::time::time_read;
use osm_reading::sequence::sequence_read;
use osm_runs::data_form::data_form_of;
use osm_runs::fault::RunFault;
use osm_runs::filters::filter_of;
use osm_runs::options::{FollowOptions, Layout, limit_of};
use osm_words::orders::{Asked, Extract, Options, Order};
use std::alloc::Global;

// A day.
const MOST_SECONDS_AHEAD: u64 = 86_400;

/// Checks the words of the command line before a run takes its lock, and gives the options of the
/// run. The filter is the one that the words of `begin`, `follow` and `changes` ask for; for any
/// other command it keeps all objects. Kinds and keys that make no filter are refused first, then a
/// limit that isn't a number above 0, or that stands beside ids. Last comes a time, a number, a
/// range or a data file's name that the run itself would refuse before it reads a file.
pub fn check_words(alloc: Global, asked: &Asked<'_>) -> Result<FollowOptions, RunFault>
    ensures extract { IfOk result
        (λ options. IsFilterOf asked.now.order asked.now.extract options.filter) }
    ensures limit { IfOk result (λ options. IsLimit asked.now.limit options.limit) }
    ensures layout { IfOk result (λ options. options.layout ≡ layout_for asked.now.options) }
    ensures any_time { IfOk result (λ options. options.any_time ≡ asked.now.options.any_time) }
    ensures choice { IfOk result (λ options. IsChoice options.limit asked.now.sought.items) }
    ensures good { OnOk result (AreGoodWords asked.now.order) }
    ensures refused { IfErr result (RefusesWords asked.now) }
{
    let filter = filter_asked(alloc, asked.order, &asked.extract)?;
    let limit = check_limit(asked.limit)?;
    check_choice(limit, asked.sought.as_slice())?;
    check_order(asked.order)?;
    Ok(FollowOptions {
        filter,
        limit,
        layout: layout_for(asked.options),
        any_time: asked.options.any_time,
    })
}

fn check_limit(word: Option<&str>) -> Result<Option<u32>, RunFault>
    ensures limit { IfOk result (IsLimit word.entry) }
    ensures refused { IfErr result (RefusesLimit word.entry) }
{
    match word {
        None => Ok(None),
        Some(word) => match limit_of(word) {
            Ok(limit) => Ok(Some(limit)),
            Err(fault) => Err(fault),
        },
    }
}

// A limit is one of all counts, not of those of some ids.
fn check_choice(limit: Option<u32>, sought: &[&str]) -> Result<(), RunFault>
    ensures choice { OnOk result (IsChoice limit sought.now) }
    ensures refused { IfErr result (RefusesChoice limit sought.now) }
{
    match (limit, sought) {
        (Some(_), [_, ..]) => Err(RunFault::BadLimit),
        _ => Ok(()),
    }
}

fn layout_for(options: Options) -> Layout
    ensures { result ≡ layout_for options }
{
    if options.json {
        Layout::Json
    } else {
        Layout::Lines
    }
}

// The filter of a command's save.
fn filter_asked(alloc: Global, order: Order<'_>, extract: &Extract<'_>) -> Result<Filter, RunFault>
    ensures extract { IfOk result (IsFilterOf order.entry extract.now) }
    ensures refused { IfErr result (RefusesExtract order.entry extract.now) }
{
    match order {
        Order::Begin { .. } | Order::Follow { .. } | Order::Changes { .. } => {
            filter_of(alloc, extract.kinds, extract.keys.as_slice())
        }
        _ => Ok(Filter::all(alloc)),
    }
}

fn check_order(order: Order<'_>) -> Result<(), RunFault>
    ensures good { OnOk result (AreGoodWords order.entry) }
    ensures refused { IfErr result (RefusesOrder order.entry) }
{
    match order {
        Order::Publish { now, .. } => check_time(now),
        Order::PublishAs { now, sequence, .. } => check_numbered(now, sequence),
        Order::Begin { base, .. } => check_base(base),
        Order::Audit { from, to, .. } => check_range(from, to),
        Order::Changes { from, to, .. } | Order::Tally { from, to, .. } => check_ends(from, to),
        _ => Ok(()),
    }
}

fn check_range(from: Option<&str>, to: Option<&str>) -> Result<(), RunFault>
    ensures good { OnOk result (HasNumberOrNone from.entry × HasNumberOrNone to.entry) }
    ensures refused { IfErr result (RefusesRange from.entry to.entry) }
{
    number_of(from)?;
    number_of(to)?;
    Ok(())
}

fn check_ends(from: &str, to: &str) -> Result<(), RunFault>
    ensures good { OnOk result (HasNumber from.now × HasNumber to.now) }
    ensures refused { IfErr result (RefusesEnds from.now to.now) }
{
    range_of(from, to)?;
    Ok(())
}

fn check_numbered(now: &str, sequence: &str) -> Result<(), RunFault>
    ensures good { OnOk result (HasTime now.now × HasNumber sequence.now) }
    ensures refused { IfErr result (RefusesNumbered now.now sequence.now) }
{
    match check_time(now) {
        Ok(()) => {}
        Err(fault) => return Err(fault),
    }
    match sequence_read(sequence.as_bytes()) {
        Some(_) => Ok(()),
        None => Err(RunFault::BadSequence),
    }
}

fn check_time(now: &str) -> Result<(), RunFault>
    ensures good { OnOk result (HasTime now.now) }
    ensures refused { IfErr result (λ fault. (fault ≡ RunFault.BadNow) × HasNoTime now.now) }
{
    match time_read(now.as_bytes()) {
        Some(_) => Ok(()),
        None => Err(RunFault::BadNow),
    }
}

fn check_base(base: &str) -> Result<(), RunFault>
    ensures good { OnOk result (HasDataForm base.now) }
    ensures refused { IfErr result
        (λ fault. (fault ≡ RunFault.UnknownForm) × HasNoDataForm base.now) }
{
    match data_form_of(base) {
        Some(_) => Ok(()),
        None => Err(RunFault::UnknownForm),
    }
}

/// Whether an order publishes at a time that is more than a day after `clock`, in seconds since
/// 1970-01-01T00:00:00Z.
pub fn is_ahead(order: Order<'_>, clock: u64) -> bool
    ensures { MatchBool result (IsAhead order.entry clock) (IsAhead order.entry clock → ⊥) }
{
    match order {
        Order::Publish { now, .. } | Order::PublishAs { now, .. } => is_past(now, clock),
        _ => false,
    }
}

fn is_past(now: &str, clock: u64) -> bool
    ensures { MatchBool result (IsPast now.now clock) (IsPast now.now clock → ⊥) }
{
    match time_read(now.as_bytes()) {
        Some(time) => is_far(time, clock),
        None => false,
    }
}

fn is_far(time: u32, clock: u64) -> bool
    ensures { MatchBool result (clock + 86400 < time) (time ≤ clock + 86400) }
{
    clock < (time as u64).saturating_sub(MOST_SECONDS_AHEAD)
}
