//! The records of a file in memory, one after another.
ghost use Rattle.std.specs.Prelude.{◌≡◌, ◌≤◌, ◌∷◌, [], true, false, length, IfOk, OnErr};
ghost use Rattle.csv.specs.Records.{fields_of};
ghost use Rattle.graph_model.specs.Reading.{records_of};

use csv::{ByteRecord, Reader, ReaderBuilder};
use graph_model::Memory;
use std::alloc::{AllocError, Global};

/// Reads the records of a file in memory, whatever their lengths, each into a record that the
/// caller lends. A contract sees the records that are left, each a list of fields.
#[derive(Drop)]
pub struct RecordReader<'a> {
    reader: Reader<&'a [u8]>,
    ended: bool,
}

impl<'a> std::marker::Model for RecordReader<'a> {
    ghost use Rattle.std.specs.Prelude.{ℕ, List, Some, ◌≡◌, false};
    ghost use Rattle.event_rows.specs.Left.{IsReading, records_left};

    ghost Value = { List (List (List ℕ)) };

    ghost view = { λ r. records_left (λ s. Some s.now) r.ended r.reader };

    ghost invariant = { λ r. r.ended ≡ false → IsReading (λ s. Some s.now) r.reader };
}

impl<'a> RecordReader<'a> {
    /// A reader of all the records of a file, of which there are no more than bytes. A byte order
    /// mark at its beginning is passed over.
    pub fn new(alloc: Global, bytes: &'a [u8]) -> RecordReader<'a>
        ensures records { result ≡ records_of bytes.now }
        ensures few { length result ≤ length bytes.now }
    {
        let reader = ReaderBuilder::new()
            .has_headers(false)
            .flexible(true)
            .from_reader(alloc, bytes);
        RecordReader {
            reader,
            ended: false,
        }
    }

    /// Reads the next record into `row`, in place of what `row` had, and says whether there was
    /// one. Where there was none, none is left, and so it stays.
    ///
    /// # Errors
    /// Want of memory, which ends the reading: no record is left.
    pub fn next(&mut self, row: &mut ByteRecord) -> Result<bool, Memory>
        ensures record { IfOk result (λ found. found ≡ true → self.old ≡ fields_of row.new ∷ self.new) }
        ensures end { IfOk result (λ found. found ≡ false → self.old ≡ []) }
        ensures left { IfOk result (λ found. found ≡ false → self.new ≡ []) }
        ensures memory { OnErr result (self.new ≡ []) }
    {
        if self.ended {
            return Ok(false);
        }
        self.ended = true;
        let Ok(found) = self.reader.read_byte_record(row) else {
            return Err(AllocError);
        };
        self.ended = !found;
        Ok(found)
    }
}
