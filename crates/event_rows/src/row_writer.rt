//! Rows, one behind another, as one text.
ghost use Rattle.std.specs.Prelude.{◌≡◌, ◌++◌, [], map, IfOk, OnOk, OnErr};
ghost use Rattle.csv.specs.Records.{fields_of};
ghost use Rattle.csv.specs.Writing.{default_writer, row_text};
ghost use Rattle.event_rows.specs.Written.{no_text};

use csv::{ByteRecord, Writer, WriterBuilder};
use graph_model::Memory;
use std::alloc::{AllocError, Global};

/// Writes rows of any lengths into memory. A contract sees the text that they make or, once memory
/// was wanting, the beginning of no text.
#[derive(Drop)]
pub struct RowWriter {
    writer: Writer<Vec<u8>>,
    failed: bool,
}

impl std::marker::Model for RowWriter {
    ghost use Rattle.std.specs.Prelude.{ℕ, List, Some, ◌≡◌, false};
    ghost use Rattle.event_rows.specs.Written.{IsWriting, text_so_far};

    ghost Value = { List ℕ };

    ghost view = { λ w. text_so_far (λ v. Some v.items) w.failed w.writer };

    ghost invariant = { λ w. w.failed ≡ false → IsWriting (λ v. Some v.items) w.writer };
}

impl RowWriter {
    /// A writer that has written nothing.
    pub fn new(alloc: Global) -> RowWriter
        ensures { result ≡ [] }
    {
        let writer = WriterBuilder::new()
            .flexible(true)
            .from_writer(Vec::new(alloc));
        RowWriter {
            writer,
            failed: false,
        }
    }

    /// Adds a row at the end.
    ///
    /// Want of memory loses the whole text for good: whatever is added then, `into_text` fails.
    pub fn add(&mut self, row: &ByteRecord) -> Result<(), Memory>
        ensures ok { OnOk result (self.new ≡ self.old ++ row_text default_writer (fields_of row.now)) }
        ensures err { OnErr result (self.new ≡ no_text) }
    {
        if self.failed {
            return Err(AllocError);
        }
        self.failed = true;
        let Ok(()) = self.writer.write_byte_record(row) else {
            return Err(AllocError);
        };
        self.failed = false;
        Ok(())
    }

    /// Adds a row of these fields at the end.
    ///
    /// Want of memory loses the whole text for good: whatever is added then, `into_text` fails.
    pub fn add_fields(&mut self, fields: &[&[u8]]) -> Result<(), Memory>
        ensures ok { let row = map (λ field. field.now) fields.now in
            OnOk result (self.new ≡ self.old ++ row_text default_writer row) }
        ensures err { OnErr result (self.new ≡ no_text) }
    {
        if self.failed {
            return Err(AllocError);
        }
        self.failed = true;
        let Ok(()) = self.writer.write_fields(fields) else {
            return Err(AllocError);
        };
        self.failed = false;
        Ok(())
    }

    /// The text of all the rows. It fails where memory was wanting for one of them.
    pub fn into_text(self) -> Result<Vec<u8>, Memory>
        ensures { IfOk result (λ text. text.items ≡ self) }
    {
        match self.writer.into_inner() {
            Ok(text) if !self.failed => Ok(text),
            _ => Err(AllocError),
        }
    }
}
