//! The rows of all that happened, in columns.
ghost use Rattle.std.specs.Prelude.{◌≡◌, ◌+◌, ◌≤◌, ◌++◌, [], ◌∷◌, length, IfOk, OnOk, OnErr};
ghost use Rattle.lane_scan.specs.Rows.{selected, extent_of_rows};

use crate::Memory;
use crate::chunks::{count_columns, gather_columns};
use crate::hits::Hits;
use std::alloc::{AllocError, Global};
use std::marker::Model;
use std::sync::ledger::Ledger;
use time_column::Steps;
use view_trait::WorldExtent;

/// The rows of all that happened, in the order in which they came: 13 bytes a row. Nothing else reads
/// the columns.
#[derive(Drop)]
pub struct Timeline {
    times: Vec<i64>,
    codes: Vec<u8>,
    numbers: Vec<u32>,
}

impl Model for Timeline {
    ghost use Rattle.std.specs.Prelude.{List};
    ghost use Rattle.lane_scan.specs.declared.hits.Hit.{Hit};
    ghost use Rattle.lane_scan.specs.Marks.{rows_of, AreColumns};

    ghost Value = { List Hit };

    ghost view = { λ t. rows_of t.times.items t.codes.items t.numbers.items };

    ghost invariant = { λ t. AreColumns t.times.items t.codes.items t.numbers.items };
}

/// Counts a step for each of so many rows.
fn count_rows<L: Ledger>(rows: usize, steps: &mut Steps<L>)
    ensures { steps.new ≡ steps.old + rows }
{
    for _ in 0..rows {
        steps.tick();
    }
}

impl Timeline {
    /// No row. It takes no memory.
    pub fn new(alloc: Global) -> Timeline
        ensures { result ≡ [] }
    {
        Timeline {
            times: Vec::new(alloc),
            codes: Vec::new(alloc),
            numbers: Vec::new(alloc),
        }
    }

    /// How many rows there are.
    pub fn len(&self) -> usize
        ensures { result ≡ length self.now }
    {
        self.times.len()
    }

    /// Adds a row at the end: when something happened, the number of a layer and that of an edge in it,
    /// or 64 and the number of a node. Where memory is wanting, the rows stay as they are.
    pub fn push(&mut self, time: i64, code: u8, number: u32) -> Result<(), Memory>
        requires { code ≤ 64 }
        ensures ok { OnOk result (self.new ≡ self.old ++ record { time = time; code = code; number = number } ∷ []) }
        ensures err { OnErr result (self.new ≡ self.old) }
    {
        self.times.push(time)?;
        if self.codes.push(code).is_err() {
            let _ = self.times.pop();
            return Err(AllocError);
        }
        if self.numbers.push(number).is_err() {
            let _ = self.times.pop();
            let _ = self.codes.pop();
            return Err(AllocError);
        }
        Ok(())
    }

    /// How many rows have a time from `lo` up to `hi` and a code whose bit is in the mask, and the
    /// least and the greatest of their times. Each row is read once. It takes no memory.
    pub fn count<L: Ledger>(
        &self,
        lo: i64,
        hi: i64,
        mask: u128,
        steps: &mut Steps<L>,
    ) -> WorldExtent
        ensures extent { result ≡ extent_of_rows (selected lo hi mask self.now) }
        ensures cost { steps.new ≡ steps.old + length self.now }
    {
        count_rows(self.len(), steps);
        count_columns(&self.times, &self.codes, lo, hi, mask)
    }

    /// The rows that have a time from `lo` up to `hi` and a code whose bit is in the mask, in their
    /// order. Each row is read once, and counted also where memory is wanting.
    pub fn hits<L: Ledger>(
        &self,
        alloc: Global,
        lo: i64,
        hi: i64,
        mask: u128,
        steps: &mut Steps<L>,
    ) -> Result<Hits, Memory>
        ensures rows { IfOk result (λ hits. hits ≡ selected lo hi mask self.now) }
        ensures cost { steps.new ≡ steps.old + length self.now }
    {
        count_rows(self.len(), steps);
        let rows = gather_columns(alloc, &self.times, &self.codes, &self.numbers, lo, hi, mask)?;
        Ok(Hits::of(rows))
    }
}
