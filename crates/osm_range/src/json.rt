//! Rows as JSON (RFC 8259), an object a line; each line ends with LF.

ghost use Rattle.std.specs.Prelude.{◌≡◌, ◌++◌, ◌∷◌, IfOk, OnOk, codes, decimal, string_bytes};
ghost use Rattle.std.specs.List.{flat_map};
ghost use Rattle.serde_json.specs.Data.{string};
ghost use Rattle.serde_json.specs.View.{view};
ghost use Rattle.serde_json.specs.Written.{compact_text};
ghost use Rattle.osm_range.specs.Steps.Counting.{names_in};
ghost use Rattle.osm_range.specs.Texts.{day_text, json_cell, json_counts, json_line, json_text};
ghost use Rattle.osm_range.specs.Texts.{kind_letter, number_after};

use crate::cells::{kind_name, name_of};
use crate::columns::{Column, Columns};
use crate::combination::Combination;
use crate::counted::Counted;
use crate::table::Table;
use osm_model::memory::WantOfMemory;
use osm_model::text::Text;
use osm_model::time::time_write;
use osm_reading::number_lines::{write_bytes, write_number};
use serde_json::{Value, json};
use std::alloc::{AllocError, Global};
use std::collections::BTreeMap;

/// Writes an object for each row, one a line.
pub(crate) fn write_json(
    alloc: Global,
    table: &Table,
    text: &mut Vec<u8>,
) -> Result<(), WantOfMemory>
    ensures { OnOk result (text.new.items ≡ text.old.items
        ++ json_text table.now.columns (names_in table.now.names) table.now.rows.entries) }
{
    for (combination, counted) in table.rows.iter() {
        let columns = table.columns;
        write_row(alloc, columns, &table.names, *combination, *counted, text)?;
    }
    Ok(())
}

fn write_row(
    alloc: Global,
    columns: Columns,
    names: &BTreeMap<u32, Text>,
    combination: Combination,
    counted: Counted,
    text: &mut Vec<u8>,
) -> Result<(), WantOfMemory>
    ensures { OnOk result (text.new.items ≡ text.old.items
        ++ json_line columns (names_in names.now) (combination, counted)) }
{
    write_bytes(b"{", text)?;
    write_cell(alloc, names, columns.first, combination.0, text)?;
    write_cell(alloc, names, columns.second, combination.1, text)?;
    write_cell(alloc, names, columns.third, combination.2, text)?;
    write_cell(alloc, names, columns.fourth, combination.3, text)?;
    write_counts(counted, text)
}

fn write_cell(
    alloc: Global,
    names: &BTreeMap<u32, Text>,
    column: Option<Column>,
    number: u32,
    text: &mut Vec<u8>,
) -> Result<(), WantOfMemory>
    ensures { OnOk result
        (text.new.items ≡ text.old.items ++ json_cell (names_in names.now) column number) }
{
    match column {
        None => Ok(()),
        Some(Column::Day) => write_day_member(number, text),
        Some(Column::User) => write_user_members(alloc, names, number, text),
        Some(Column::Changeset) => write_changeset_member(number, text),
        Some(Column::Kind) => write_kind_member(number, text),
    }
}

// `"day":"YYYY-MM-DD",`
fn write_day_member(seconds: u32, text: &mut Vec<u8>) -> Result<(), WantOfMemory>
    ensures { OnOk result (text.new.items ≡ text.old.items
        ++ (codes "\"day\":\"" ++ (day_text seconds ++ codes "\","))) }
{
    write_bytes(b"\"day\":\"", text)?;
    write_bytes(&time_write(seconds)[..10], text)?;
    write_bytes(b"\",", text)
}

// `"changeset":ID,`
fn write_changeset_member(id: u32, text: &mut Vec<u8>) -> Result<(), WantOfMemory>
    ensures { OnOk result (text.new.items ≡ text.old.items
        ++ (codes "\"changeset\":" ++ (decimal id ++ codes ","))) }
{
    write_bytes(b"\"changeset\":", text)?;
    write_number(id as u64, text)?;
    write_bytes(b",", text)
}

// `"kind":"K",`
fn write_kind_member(position: u32, text: &mut Vec<u8>) -> Result<(), WantOfMemory>
    ensures { OnOk result (text.new.items ≡ text.old.items
        ++ (codes "\"kind\":\"" ++ (kind_letter position ∷ codes "\","))) }
{
    write_bytes(b"\"kind\":\"", text)?;
    write_bytes(kind_name(position), text)?;
    write_bytes(b"\",", text)
}

// `"uid":ID,"user":"NAME",`
fn write_user_members(
    alloc: Global,
    names: &BTreeMap<u32, Text>,
    uid: u32,
    text: &mut Vec<u8>,
) -> Result<(), WantOfMemory>
    ensures { OnOk result (text.new.items ≡ text.old.items ++ (codes "\"uid\":"
        ++ (decimal uid ++ (codes ",\"user\":"
        ++ (compact_text (string (names_in names.now uid)) ++ codes ","))))) }
{
    write_bytes(b"\"uid\":", text)?;
    write_number(uid as u64, text)?;
    write_bytes(b",\"user\":", text)?;
    write_string(alloc, name_of(names, uid), text)?;
    write_bytes(b",", text)
}

fn write_string(alloc: Global, name: &str, text: &mut Vec<u8>) -> Result<(), WantOfMemory>
    ensures { OnOk result
        (text.new.items ≡ text.old.items ++ compact_text (string name.now)) }
{
    let value = string_value(alloc, name)?;
    let quoted = value.to_string(alloc)?;
    write_bytes(quoted.as_bytes(), text)
}

fn string_value(alloc: Global, text: &str) -> Result<Value, AllocError>
    ensures { IfOk result (λ value. view value ≡ string text.now) }
{
    json!(in alloc; text)
}

fn write_counts(counted: Counted, text: &mut Vec<u8>) -> Result<(), WantOfMemory>
    ensures { OnOk result (text.new.items ≡ text.old.items ++ json_counts counted) }
{
    write_after(b"\"created\":", counted.created, text)?;
    write_after(b",\"modified\":", counted.modified, text)?;
    write_after(b",\"deleted\":", counted.deleted, text)?;
    write_last(counted.changesets, text)
}

fn write_last(changesets: u64, text: &mut Vec<u8>) -> Result<(), WantOfMemory>
    ensures { OnOk result (text.new.items ≡ text.old.items
        ++ (number_after (codes ",\"changesets\":") changesets ++ codes "}\n")) }
{
    write_after(b",\"changesets\":", changesets, text)?;
    write_bytes(b"}\n", text)
}

fn write_after(name: &[u8], number: u64, text: &mut Vec<u8>) -> Result<(), WantOfMemory>
    ensures { OnOk result (text.new.items ≡ text.old.items ++ number_after name.now number) }
{
    write_bytes(name, text)?;
    write_number(number, text)
}
