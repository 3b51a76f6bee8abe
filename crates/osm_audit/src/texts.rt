//! The texts of a finding: the name of its file, and its cause.

ghost use Rattle.std.specs.Prelude.{◌≡◌, IfOk, string_bytes};
ghost use Rattle.osm_audit.specs.Texts.{bad_change, bad_state, cause_of, fault_of, name_of};
ghost use Rattle.osm_audit.specs.Texts.{path_of, why_of};

use crate::finding::Cause;
use osm_model::form::Why;
use osm_model::limits::MAX_SEQUENCE;
use osm_model::memory::WantOfMemory;
use osm_runs::fault::FileName;
use osm_state::paths::{Suffix, path};
use osm_state::state_text::StateError;
use std::alloc::Global;

// The name of a file of a folder: `state.txt`, or a path. Nothing is found of another file.
pub(crate) fn name_text(alloc: Global, file: FileName) -> Result<String, WantOfMemory>
    ensures { IfOk result (λ text. string_bytes text ≡ name_of file) }
{
    match file {
        FileName::Top => said(alloc, "state.txt"),
        FileName::Sequence(number, suffix) => path_text(alloc, number, suffix),
        _ => said(alloc, ""),
    }
}

// The path of a number's file. Nothing is found of a number above the last sequence.
fn path_text(alloc: Global, number: u32, suffix: Suffix) -> Result<String, WantOfMemory>
    ensures { IfOk result (λ text. string_bytes text ≡ path_of number suffix) }
{
    if number > MAX_SEQUENCE {
        return said(alloc, "");
    }
    path(alloc, number, suffix)
}

pub(crate) fn cause_text(alloc: Global, cause: Cause) -> Result<String, WantOfMemory>
    ensures { IfOk result (λ text. string_bytes text ≡ cause_of cause) }
{
    match cause {
        Cause::Absent => said(alloc, "not there"),
        Cause::TooLarge => said(alloc, "too large"),
        Cause::BadState(fault) => bad_state_text(alloc, fault),
        Cause::Mismatch => said(alloc, "wrong number in state"),
        Cause::TimeBack => said(alloc, "TimeBack"),
        Cause::BadChange(place, why) => bad_change_text(alloc, place, why),
        Cause::Differs => said(alloc, "differs"),
    }
}

fn said(alloc: Global, text: &str) -> Result<String, WantOfMemory>
    ensures { IfOk result (λ said. string_bytes said ≡ text.now) }
{
    Ok(String::from_str(alloc, text)?)
}

fn bad_state_text(alloc: Global, fault: StateError) -> Result<String, WantOfMemory>
    ensures { IfOk result (λ text. string_bytes text ≡ bad_state fault) }
{
    let fault = fault_text(fault);
    Ok(format!(in alloc; "bad state: {fault}")?)
}

fn bad_change_text(alloc: Global, place: u64, why: Why) -> Result<String, WantOfMemory>
    ensures { IfOk result (λ text. string_bytes text ≡ bad_change place why) }
{
    let why = why_text(why);
    Ok(format!(in alloc; "at {place}: {why}")?)
}

// As `{fault}` shows it, which no contract says.
fn fault_text(fault: StateError) -> &'static str
    ensures { result.now ≡ fault_of fault }
{
    match fault {
        StateError::MissingSequence => "MissingSequence",
        StateError::BadEscape => "BadEscape",
        StateError::BadSequence => "BadSequence",
        StateError::MissingTime => "MissingTime",
        StateError::BadTime => "BadTime",
    }
}

// As `{why}` shows it, which no contract says.
fn why_text(why: Why) -> &'static str
    ensures { result.now ≡ why_of why }
{
    match why {
        Why::BadKind => "BadKind",
        Why::BadField => "BadField",
        Why::BadNumber => "BadNumber",
        Why::OutOfRange => "OutOfRange",
        Why::BadTime => "BadTime",
        Why::BadEscape => "BadEscape",
        Why::BadText => "BadText",
        Why::NoLocation => "NoLocation",
        Why::NoMetadata => "NoMetadata",
        Why::TooMany => "TooMany",
        Why::BadHeader => "BadHeader",
        Why::Truncated => "Truncated",
        Why::BadReference => "BadReference",
        Why::BadLength => "BadLength",
        Why::TrailingBytes => "TrailingBytes",
        Why::OutOfOrder => "OutOfOrder",
        Why::Deleted => "Deleted",
    }
}
