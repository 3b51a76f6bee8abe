//! Rows as CSV (RFC 4180), with a head row; each row ends with LF.

ghost use Rattle.std.specs.Prelude.{◌≡◌, ◌++◌, ◌∷◌, [], IfOk, OnOk};
ghost use Rattle.osm_range.specs.Steps.Counting.{names_in};
ghost use Rattle.osm_range.specs.Texts.{count_names, csv_cell, csv_counts, csv_head};
ghost use Rattle.osm_range.specs.Texts.{csv_names, csv_row, csv_text};

use crate::cells::{kind_name, name_of};
use crate::columns::{Column, Columns};
use crate::combination::Combination;
use crate::counted::Counted;
use crate::table::Table;
use osm_model::memory::WantOfMemory;
use osm_model::text::Text;
use osm_model::time::time_write;
use osm_runs::csv_rows::{CsvRow, CsvRows};
use std::alloc::Global;
use std::collections::BTreeMap;

/// Gives the head row, and a row for each row of the table.
pub(crate) fn csv_of(alloc: Global, table: &Table) -> Result<Vec<u8>, WantOfMemory>
    ensures { IfOk result (λ text. text.items
        ≡ csv_text table.now.columns (names_in table.now.names) table.now.rows.entries) }
{
    let mut rows = CsvRows::new(alloc);
    write_rows(alloc, table, &mut rows)?;
    rows.finish()
}

fn write_rows(alloc: Global, table: &Table, rows: &mut CsvRows) -> Result<(), WantOfMemory>
    ensures { OnOk result (rows.new ≡ rows.old
        ++ csv_text table.now.columns (names_in table.now.names) table.now.rows.entries) }
{
    let mut row = CsvRow::new(alloc);
    push_head(table.columns, &mut row)?;
    rows.write(&mut row)?;
    for (combination, counted) in table.rows.iter() {
        let columns = table.columns;
        push_row(columns, &table.names, *combination, *counted, &mut row)?;
        rows.write(&mut row)?;
    }
    Ok(())
}

fn push_head(columns: Columns, row: &mut CsvRow) -> Result<(), WantOfMemory>
    ensures { OnOk result (row.new ≡ row.old ++ csv_head columns) }
{
    push_names(columns.first, row)?;
    push_names(columns.second, row)?;
    push_names(columns.third, row)?;
    push_names(columns.fourth, row)?;
    push_count_names(row)
}

fn push_names(column: Option<Column>, row: &mut CsvRow) -> Result<(), WantOfMemory>
    ensures { OnOk result (row.new ≡ row.old ++ csv_names column) }
{
    match column {
        None => Ok(()),
        Some(Column::Day) => row.push(b"day"),
        Some(Column::User) => {
            row.push(b"uid")?;
            row.push(b"user")
        }
        Some(Column::Changeset) => row.push(b"changeset"),
        Some(Column::Kind) => row.push(b"kind"),
    }
}

fn push_count_names(row: &mut CsvRow) -> Result<(), WantOfMemory>
    ensures { OnOk result (row.new ≡ row.old ++ count_names) }
{
    push_four(b"created", b"modified", b"deleted", b"changesets", row)
}

fn push_four(
    first: &[u8],
    second: &[u8],
    third: &[u8],
    fourth: &[u8],
    row: &mut CsvRow,
) -> Result<(), WantOfMemory>
    ensures { OnOk result (row.new
        ≡ row.old ++ first.now ∷ second.now ∷ third.now ∷ fourth.now ∷ []) }
{
    row.push(first)?;
    row.push(second)?;
    row.push(third)?;
    row.push(fourth)
}

fn push_row(
    columns: Columns,
    names: &BTreeMap<u32, Text>,
    combination: Combination,
    counted: Counted,
    row: &mut CsvRow,
) -> Result<(), WantOfMemory>
    ensures { OnOk result (row.new ≡ row.old
        ++ csv_row columns (names_in names.now) (combination, counted)) }
{
    push_cell(names, columns.first, combination.0, row)?;
    push_cell(names, columns.second, combination.1, row)?;
    push_cell(names, columns.third, combination.2, row)?;
    push_cell(names, columns.fourth, combination.3, row)?;
    push_counts(counted, row)
}

fn push_cell(
    names: &BTreeMap<u32, Text>,
    column: Option<Column>,
    number: u32,
    row: &mut CsvRow,
) -> Result<(), WantOfMemory>
    ensures { OnOk result (row.new ≡ row.old ++ csv_cell (names_in names.now) column number) }
{
    match column {
        None => Ok(()),
        Some(Column::Day) => row.push(&time_write(number)[..10]),
        Some(Column::User) => {
            row.push_number(number as u64)?;
            row.push(name_of(names, number).as_bytes())
        }
        Some(Column::Changeset) => row.push_number(number as u64),
        Some(Column::Kind) => row.push(kind_name(number)),
    }
}

fn push_counts(counted: Counted, row: &mut CsvRow) -> Result<(), WantOfMemory>
    ensures { OnOk result (row.new ≡ row.old ++ csv_counts counted) }
{
    row.push_number(counted.created)?;
    row.push_number(counted.modified)?;
    row.push_number(counted.deleted)?;
    row.push_number(counted.changesets)
}
