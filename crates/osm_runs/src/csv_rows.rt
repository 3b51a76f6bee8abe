//! Rows of CSV (RFC 4180) in memory, written by the crate `csv`.

ghost use Rattle.std.specs.Prelude.{◌≡◌, ◌++◌, ◌∷◌, [], IfOk, OnOk, decimal};
ghost use Rattle.osm_runs.specs.Csv.{csv_line};

use csv::{ByteRecord, Writer};
use itoa::Buffer;
use osm_model::memory::WantOfMemory;
use std::alloc::Global;
use std::marker::Model;

/// The fields of a row.
#[derive(Drop)]
pub struct CsvRow {
    record: ByteRecord,
}

impl Model for CsvRow {
    ghost use Rattle.std.specs.Prelude.{◌≡◌, [], ℕ, List};
    ghost use Rattle.csv.specs.Records.{fields_of, partial_of};

    ghost Value = { List (List ℕ) };

    ghost view = { λ row. fields_of row.record };

    ghost invariant = { λ row. partial_of row.record ≡ [] };
}

impl CsvRow {
    /// A row without fields.
    pub fn new(alloc: Global) -> CsvRow
        ensures { result ≡ [] }
    {
        CsvRow {
            record: ByteRecord::new(alloc),
        }
    }

    /// Appends a field.
    pub fn push(&mut self, field: &[u8]) -> Result<(), WantOfMemory>
        ensures { OnOk result (self.new ≡ self.old ++ field.now ∷ []) }
    {
        if self.record.push_field(field).is_err() {
            self.record.clear();
            return Err(WantOfMemory);
        }
        Ok(())
    }

    /// Appends a field with the number's decimal digits.
    pub fn push_number(&mut self, number: u64) -> Result<(), WantOfMemory>
        ensures { OnOk result (self.new ≡ self.old ++ decimal number ∷ []) }
    {
        let mut buffer = Buffer::new();
        self.push(buffer.format(number).as_bytes())
    }
}

/// The text of rows.
#[derive(Drop)]
pub struct CsvRows {
    writer: Writer<Vec<u8>>,
}

impl Model for CsvRows {
    ghost use Rattle.std.specs.Prelude.{◌≡◌, ◌++◌, false, ℕ, List};
    ghost use Rattle.csv.specs.Writing.{default_writer, fields_written, has_written};
    ghost use Rattle.csv.specs.Writing.{writer_pending, writer_setup, writer_under};

    ghost Value = { List ℕ };

    ghost view = { λ rows. (writer_under rows.writer).items ++ writer_pending rows.writer };

    ghost invariant = { λ rows. (writer_setup rows.writer ≡ default_writer)
        × (fields_written rows.writer ≡ 0) × (has_written rows.writer ≡ false) };
}

impl CsvRows {
    /// The text of no rows.
    pub fn new(alloc: Global) -> CsvRows
        ensures { result ≡ [] }
    {
        CsvRows {
            writer: Writer::from_writer(Vec::new(alloc)),
        }
    }

    /// Appends the row, and empties it. One with more or fewer fields than the first is refused.
    #[tactic(auto, unfolding(crate::specs::Csv::csv_line))]
    pub fn write(&mut self, row: &mut CsvRow) -> Result<(), WantOfMemory>
        ensures text { OnOk result (self.new ≡ self.old ++ csv_line row.old) }
        ensures empty { OnOk result (row.new ≡ []) }
    {
        if self.writer.write_byte_record(&row.record).is_err() {
            // It may have stopped inside the row.
            let empty = Vec::new(*self.writer.get_ref().allocator());
            self.writer = Writer::from_writer(empty);
            return Err(WantOfMemory);
        }
        row.record.clear();
        Ok(())
    }

    /// Gives the text.
    pub fn finish(self) -> Result<Vec<u8>, WantOfMemory>
        ensures { IfOk result (λ text. text.items ≡ self) }
    {
        match self.writer.into_inner() {
            Ok(text) => Ok(text),
            Err(_) => Err(WantOfMemory),
        }
    }
}
