//! Values of JSON, and their lines.

ghost use Rattle.std.specs.Prelude.{◌≡◌, ◌≤◌, ◌++◌, ◌∷◌, [], IfOk, OnOk, Some, false, map};
ghost use Rattle.std.specs.Prelude.{option_map};
ghost use Rattle.serde_json.specs.View.{members_view, view};
ghost use Rattle.serde_json.specs.Written.{has_float};
ghost use Rattle.osm_runs.specs.JsonLine.{maybe_text, maybe_time, numbers_data, range_data};
ghost use Rattle.osm_runs.specs.JsonLine.{ranges_data, fault_data, follow_data, json_line};
ghost use Rattle.osm_runs.specs.JsonLine.{run_data, seconds_of, lag_data, maybe_number};
ghost use Rattle.osm_runs.specs.JsonMembers.{with_nulls, with_standing, with_values};
ghost use Rattle.serde_json.specs.Data.{null, string};

use crate::json_line::Standing;
use osm_model::time::time_write;
use serde_json::{Map, Value, json, put};
use std::alloc::{AllocError, Global};

/// Gives the text of a value without floats (RFC 8259), and LF.
pub fn line_of(alloc: Global, value: &Value) -> Result<Vec<u8>, AllocError>
    requires { has_float (view value.now) ≡ false }
    ensures { IfOk result (λ line. line.items ≡ json_line (view value.now)) }
{
    let mut line = value.to_string(alloc)?;
    line.push('\n')?;
    Ok(line.into_bytes())
}

pub(crate) fn follow_value(
    alloc: Global,
    standing: Standing,
    applied: &[(u32, u32)],
    missing: &[u32],
    fault: Option<&str>,
) -> Result<Value, AllocError>
    requires { standing.number ≤ standing.top }
    ensures { IfOk result (λ v. view v ≡ follow_data standing applied.now missing.now
        (option_map (λ said. said.now) fault.entry)) }
{
    let applied = ranges(alloc, applied)?;
    let missing = numbers(alloc, missing)?;
    let fault = text_or_null(alloc, fault)?;
    run_value(alloc, standing, applied, missing, fault)
}

pub(crate) fn lag_value(alloc: Global, standing: Standing) -> Result<Value, AllocError>
    requires { standing.number ≤ standing.top }
    ensures { IfOk result (λ v. view v ≡ lag_data standing) }
{
    run_value(alloc, standing, Value::Null, Value::Null, Value::Null)
}

pub(crate) fn fault_value(alloc: Global, fault: &str) -> Result<Value, AllocError>
    ensures { IfOk result (λ v. view v ≡ fault_data fault.now) }
{
    let fault = Value::try_from_str(alloc, fault)?;
    let mut members = Map::new(alloc);
    put_values(alloc, &mut members, Value::Null, Value::Null, fault)?;
    put_nulls(alloc, &mut members)?;
    Ok(Value::Object(members))
}

// All that is known of a run.
fn run_value(
    alloc: Global,
    standing: Standing,
    applied: Value,
    missing: Value,
    fault: Value,
) -> Result<Value, AllocError>
    requires { standing.number ≤ standing.top }
    ensures { IfOk result
        (λ v. view v ≡ run_data standing (view applied) (view missing) (view fault)) }
{
    let mut members = Map::new(alloc);
    put_values(alloc, &mut members, applied, missing, fault)?;
    put_standing(alloc, &mut members, standing)?;
    Ok(Value::Object(members))
}

// The members of a run beside those that say where it stands.
fn put_values(
    alloc: Global,
    members: &mut Map<String, Value>,
    applied: Value,
    missing: Value,
    fault: Value,
) -> Result<(), AllocError>
    ensures { OnOk result (members_view members.new.entries
        ≡ with_values (view applied) (view missing) (view fault)
        (members_view members.old.entries)) }
{
    put(members, alloc, "applied", applied)?;
    put(members, alloc, "missing", missing)?;
    put(members, alloc, "fault", fault)
}

// The members that say where a run stands.
fn put_standing(
    alloc: Global,
    members: &mut Map<String, Value>,
    standing: Standing,
) -> Result<(), AllocError>
    requires { standing.number ≤ standing.top }
    ensures { OnOk result (members_view members.new.entries
        ≡ with_standing standing (members_view members.old.entries)) }
{
    let behind = standing.top - standing.number;
    put(members, alloc, "base", Value::from(standing.base))?;
    put(members, alloc, "behind", Value::from(behind))?;
    put(members, alloc, "number", Value::from(standing.number))?;
    put(members, alloc, "seconds", Value::from(seconds(standing)))?;
    put(members, alloc, "time", time_or_null(alloc, standing.time)?)?;
    put(members, alloc, "top", Value::from(standing.top))
}

// The same members of a run of which nothing is known.
fn put_nulls(alloc: Global, members: &mut Map<String, Value>) -> Result<(), AllocError>
    ensures { OnOk result (members_view members.new.entries
        ≡ with_nulls (members_view members.old.entries)) }
{
    put(members, alloc, "base", Value::Null)?;
    put(members, alloc, "behind", Value::Null)?;
    put(members, alloc, "number", Value::Null)?;
    put(members, alloc, "seconds", Value::Null)?;
    put(members, alloc, "time", Value::Null)?;
    put(members, alloc, "top", Value::Null)
}

// The seconds from the number's time to the newest one, if there are any.
fn seconds(standing: Standing) -> Option<u32>
    ensures { result ≡ seconds_of standing.time standing.top_time }
{
    standing.top_time.checked_sub(standing.time?)
}

/// Gives a text, or null if there is none.
pub fn text_or_null(alloc: Global, text: Option<&str>) -> Result<Value, AllocError>
    ensures { IfOk result (λ v. view v ≡ maybe_text (option_map (λ s. s.now) text.entry)) }
{
    match text {
        Some(text) => Value::try_from_str(alloc, text),
        None => Ok(Value::Null),
    }
}

fn time_or_null(alloc: Global, time: Option<u32>) -> Result<Value, AllocError>
    ensures { IfOk result (λ v. view v ≡ maybe_time time) }
{
    match time {
        Some(time) => time_value(alloc, time),
        None => Ok(Value::Null),
    }
}

// YYYY-MM-DDTHH:MM:SSZ
fn time_value(alloc: Global, time: u32) -> Result<Value, AllocError>
    ensures { IfOk result (λ v. view v ≡ maybe_time (Some time)) }
{
    match std::str::from_utf8(&time_write(time)) {
        Ok(text) => Value::try_from_str(alloc, text),
        Err(_) => unreachable!(),
    }
}

// The ranges, each as its first and its last number.
fn ranges(alloc: Global, ranges: &[(u32, u32)]) -> Result<Value, AllocError>
    ensures { IfOk result (λ v. view v ≡ ranges_data ranges.now) }
{
    let mut values = Vec::with_capacity(alloc, ranges.len())?;
    for (low, high) in ranges {
        push_range(alloc, *low, *high, &mut values)?;
    }
    Ok(Value::Array(values))
}

fn push_range(alloc: Global, low: u32, high: u32, values: &mut Vec<Value>) -> Result<(), AllocError>
    ensures { OnOk result (map view values.new.items
        ≡ map view values.old.items ++ range_data (low, high) ∷ []) }
{
    let range = json!(in alloc; [low, high])?;
    Ok(values.push(range)?)
}

/// Gives an array of numbers.
pub fn numbers(alloc: Global, numbers: &[u32]) -> Result<Value, AllocError>
    ensures { IfOk result (λ v. view v ≡ numbers_data numbers.now) }
{
    let mut values = Vec::with_capacity(alloc, numbers.len())?;
    for number in numbers {
        values.push(Value::from(*number))?;
    }
    Ok(Value::Array(values))
}
