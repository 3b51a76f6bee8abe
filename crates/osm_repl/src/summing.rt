//! Summing up what a save and its journal keep: the words `counts` and `fingerprint`.

ghost use Rattle.std.specs.Prelude.{◌≡◌, [], None, IfErr, IfOk, OnOk, string_bytes};
ghost use Rattle.osm_runs.specs.Runs.{Blames};
ghost use Rattle.osm_repl.specs.Execution.{CarriesOut};
ghost use Rattle.osm_repl.specs.Sums.{AreIds, IsChoiceFor, IsColumn, IsNotSummed, IsSum, IsSummed};
ghost use Rattle.osm_repl.specs.Sums.{RefusesColumn, RefusesIds, StopsSum, Sums, counts_form};

use crate::numbers::id_of;
use crate::printing::print;
use crate::refused::refused;
use osm_asking::choice::{By, Choice, Form};
use osm_asking::counts::counts_run;
use osm_asking::fingerprint::fingerprint_run;
use osm_runs::fault::RunFault;
use osm_runs::options::{FollowOptions, Layout};
use osm_runs::report::Report;
use osm_store::store::Store;
use osm_words::orders::Order;
use std::alloc::Global;
use std::io::Write;

// Prints the counts or the fingerprint that the order asks for, and gives the status. An id that is
// refused is noted.
pub(crate) fn sum_and_print<S: Store, W: Write>(
    alloc: Global,
    order: Order<'_>,
    words: &[&str],
    options: &FollowOptions,
    store: &mut S,
    writer: &mut W,
    noted: &mut String,
) -> Result<u8, RunFault>
    requires sum { IsSum order }
    requires unnoted { string_bytes noted.old ≡ [] }
    ensures done { IfOk result (IsSummed options.now order.entry words.now (S.state store.old)
        (W.contents writer.old) (W.contents writer.new)) }
    ensures not_done { IfErr result (IsNotSummed options.now order.entry words.now
        (S.state store.old) (S.state store.new) (W.contents writer.old) (W.contents writer.new)
        (string_bytes noted.new)) }
    ensures unnoted { OnOk result (string_bytes noted.new ≡ []) }
    ensures files { (S.state store.new).files ≡ (S.state store.old).files }
    ensures frame { CarriesOut order.entry (S.state store.old) (S.state store.new) result }
{
    match sum(alloc, order, words, options, store, noted) {
        Ok(report) => print(writer, &report),
        Err(fault) => Err(fault),
    }
}

// The report that the order asks for.
fn sum<S: Store>(
    alloc: Global,
    order: Order<'_>,
    words: &[&str],
    options: &FollowOptions,
    store: &mut S,
    noted: &mut String,
) -> Result<Report, RunFault>
    requires sum { IsSum order }
    requires unnoted { string_bytes noted.old ≡ [] }
    ensures sums { IfOk result (Sums options.now order.entry words.now (S.state store.old)) }
    ensures stops { IfErr result (StopsSum order.entry words.now (S.state store.old)
        (string_bytes noted.new)) }
    ensures unnoted { OnOk result (string_bytes noted.new ≡ []) }
    ensures device { IfErr result
        (Blames (S.state store.old).failures (S.state store.new).failures) }
    ensures files { (S.state store.new).files ≡ (S.state store.old).files }
    ensures frame { CarriesOut order.entry (S.state store.old) (S.state store.new) result }
{
    match order {
        Order::Counts { save, by, csv } => {
            let by = match column_of(by) {
                Ok(by) => by,
                Err(fault) => return Err(fault),
            };
            let ids = match ids_of(alloc, words, noted) {
                Ok(ids) => ids,
                Err(fault) => return Err(fault),
            };
            let choice = choice_for(options.limit, ids.as_slice());
            let form = counts_form(csv, options.layout);
            counts_run(alloc, store, save, by, choice, form)
        }
        Order::Fingerprint { save } => {
            fingerprint_run(alloc, store, save, options.limit.unwrap_or(0))
        }
        _ => unreachable!(),
    }
}

// What edits are counted by: their users if no word says it.
fn column_of(word: Option<&str>) -> Result<By, RunFault>
    ensures column { IfOk result (IsColumn word.entry) }
    ensures refused { IfErr result (RefusesColumn word.entry) }
{
    match word {
        None => Ok(By::User),
        Some("user") => Ok(By::User),
        Some("changeset") => Ok(By::Changeset),
        Some(_) => Err(RunFault::BadColumns),
    }
}

// The ids that the words are. The first word that is none is noted.
fn ids_of(alloc: Global, words: &[&str], noted: &mut String) -> Result<Vec<u32>, RunFault>
    requires { string_bytes noted.old ≡ [] }
    ensures ids { IfOk result (λ ids. AreIds words.now ids.items) }
    ensures refused { IfErr result (RefusesIds words.now (string_bytes noted.new)) }
    ensures unnoted { OnOk result (string_bytes noted.new ≡ []) }
{
    let mut ids = Vec::new(alloc);
    for word in words {
        let Some(id) = id_of(word) else {
            return Err(refused(alloc, word, RunFault::BadId, noted));
        };
        match ids.push(id) {
            Ok(()) => {}
            Err(_) => return Err(RunFault::WantOfMemory),
        }
    }
    Ok(ids)
}

// The largest counts if there is a limit, otherwise those of the ids, and all if there are none.
fn choice_for(limit: Option<u32>, ids: &[u32]) -> Choice<'_>
    ensures { IsChoiceFor limit ids.now result }
{
    match (limit, ids) {
        (Some(limit), _) => Choice::Top(limit as u64),
        (None, []) => Choice::All,
        (None, _) => Choice::Ids(ids),
    }
}

// The form of the counts: JSON goes before CSV.
fn counts_form(csv: bool, layout: Layout) -> Form
    ensures { result ≡ counts_form csv layout }
{
    match (layout, csv) {
        (Layout::Json, _) => Form::Json,
        (Layout::Lines, true) => Form::Csv,
        (Layout::Lines, false) => Form::Lines,
    }
}
