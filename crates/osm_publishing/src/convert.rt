//! Converting a change file.

ghost use Rattle.std.specs.Prelude.{◌≡◌, IfErr, IfOk, OnOk};
ghost use Rattle.osm_publishing.specs.Conversion.{ConvertStopsIn, IsConverted};
ghost use Rattle.osm_runs.specs.Reports.{convert_report_of};
ghost use Rattle.osm_runs.specs.Runs.{IfFilesKnown, Replaces};

use osm_model::limits::MAX_FILE;
use osm_runs::fault::{FileName, RunFault};
use osm_runs::files::{read_present, write_file};
use osm_runs::form::{convert, form_of};
use osm_runs::report::{Report, convert_report};
use osm_store::store::Store;
use std::alloc::Global;

/// Converts the changes of the input file to the output file, each in the form that its name says.
/// A name ends in `.opl` or `.o5c`; any other is refused as `UnknownForm`. A refusal leaves all
/// files as they were.
pub fn convert_run<S: Store>(
    alloc: Global,
    store: &mut S,
    input: &str,
    output: &str,
) -> Result<Report, RunFault>
    ensures converted { OnOk result (IfFilesKnown (S.state store.old) (S.state store.new)
        (IsConverted input.now output.now)) }
    ensures report { IfOk result (λ report. report ≡ convert_report_of) }
    ensures stops { IfErr result (ConvertStopsIn (S.state store.old) input.now output.now) }
    ensures frame { Replaces 2 (S.state store.old) (S.state store.new) result }
{
    let Some(from) = form_of(input) else {
        return Err(RunFault::UnknownForm);
    };
    let Some(to) = form_of(output) else {
        return Err(RunFault::UnknownForm);
    };
    let bytes = read_present(alloc, store, FileName::Input, input, MAX_FILE as u64)?;
    let text = convert(alloc, from, to, bytes)?;
    let report = convert_report(alloc);
    write_file(alloc, store, FileName::Output, output, text.as_slice())?;
    Ok(report)
}
