//! Counts as a text.

ghost use Rattle.std.specs.Prelude.{◌≡◌, ◌++◌, ◌∷◌, [], IfOk, OnOk, codes};
ghost use Rattle.osm_asking.specs.Counts.{counts_text, csv_text, more_objects, name_of};
ghost use Rattle.osm_asking.specs.Counts.{object_text, objects_text};

use crate::choice::{By, Form};
use osm_model::memory::WantOfMemory;
use osm_reading::number_lines::{write_bytes, write_count_lines, write_number};
use osm_runs::csv_rows::{CsvRow, CsvRows};
use std::alloc::Global;

/// Gives the text of counts in that form.
pub(crate) fn text_of(
    alloc: Global,
    by: By,
    form: Form,
    counts: &[(u32, u64)],
) -> Result<Vec<u8>, WantOfMemory>
    ensures { IfOk result (λ text. text.items ≡ counts_text by form counts.now) }
{
    let mut text = Vec::new(alloc);
    match form {
        Form::Lines => write_count_lines(counts, &mut text)?,
        Form::Csv => text = csv_of(alloc, by, counts)?,
        Form::Json => write_json(by, counts, &mut text)?,
    }
    Ok(text)
}

// Gives a head row, and a row for each count.
fn csv_of(alloc: Global, by: By, counts: &[(u32, u64)]) -> Result<Vec<u8>, WantOfMemory>
    ensures { IfOk result (λ text. text.items ≡ csv_text by counts.now) }
{
    let mut rows = CsvRows::new(alloc);
    write_rows(alloc, by, counts, &mut rows)?;
    rows.finish()
}

fn write_rows(
    alloc: Global,
    by: By,
    counts: &[(u32, u64)],
    rows: &mut CsvRows,
) -> Result<(), WantOfMemory>
    ensures { OnOk result (rows.new ≡ rows.old ++ csv_text by counts.now) }
{
    let mut row = CsvRow::new(alloc);
    row.push(name_of(by))?;
    row.push(b"count")?;
    rows.write(&mut row)?;
    for (id, count) in counts {
        row.push_number(*id as u64)?;
        row.push_number(*count)?;
        rows.write(&mut row)?;
    }
    Ok(())
}

// Appends one line of JSON.
fn write_json(by: By, counts: &[(u32, u64)], text: &mut Vec<u8>) -> Result<(), WantOfMemory>
    ensures { OnOk result (text.new.items ≡ text.old.items
        ++ (codes "{\"by\":\"" ++ name_of by ++ codes "\",\"counts\":["
        ++ objects_text counts.now ++ codes "]}\n")) }
{
    write_bytes(b"{\"by\":\"", text)?;
    write_bytes(name_of(by), text)?;
    write_bytes(b"\",\"counts\":[", text)?;
    write_objects(counts, text)?;
    write_bytes(b"]}\n", text)
}

// Appends the counts as objects of JSON, with commas between them.
fn write_objects(counts: &[(u32, u64)], text: &mut Vec<u8>) -> Result<(), WantOfMemory>
    ensures { OnOk result (text.new.items ≡ text.old.items ++ objects_text counts.now) }
{
    let Some((first, others)) = counts.split_first() else {
        return Ok(());
    };
    write_object(first.0, first.1, text)?;
    write_others(others, text)
}

// Appends the others, each after a comma.
fn write_others(counts: &[(u32, u64)], text: &mut Vec<u8>) -> Result<(), WantOfMemory>
    ensures { OnOk result (text.new.items ≡ text.old.items ++ more_objects counts.now) }
{
    for (id, count) in counts {
        write_bytes(b",", text)?;
        write_object(*id, *count, text)?;
    }
    Ok(())
}

// Appends `{"id":ID,"count":COUNT}`.
fn write_object(id: u32, count: u64, text: &mut Vec<u8>) -> Result<(), WantOfMemory>
    ensures { OnOk result (text.new.items ≡ text.old.items ++ object_text (id, count)) }
{
    write_bytes(b"{\"id\":", text)?;
    write_number(id as u64, text)?;
    write_bytes(b",\"count\":", text)?;
    write_number(count, text)?;
    write_bytes(b"}", text)
}

// `user` or `changeset`.
fn name_of(by: By) -> &'static [u8]
    ensures { result.now ≡ name_of by }
{
    match by {
        By::User => b"user",
        By::Changeset => b"changeset",
    }
}
