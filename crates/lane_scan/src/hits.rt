//! The rows that a question selects.
ghost use Rattle.std.specs.Prelude.{◌≡◌, ◌<◌, Some, length, slice_get};

use std::marker::Model;

/// A row of a timeline: when something happened, the number of a layer, or 64 for an update of a node,
/// and the number of an edge in that layer, or of the node.
#[derive(Clone, Copy, Debug, PartialEq, Eq, Drop)]
pub struct Hit {
    pub time: i64,
    pub code: u8,
    pub number: u32,
}

/// Rows in the order in which they came.
#[derive(Drop)]
pub struct Hits {
    rows: Vec<Hit>,
}

impl Model for Hits {
    ghost use Rattle.std.specs.Prelude.{List};
    ghost use Rattle.lane_scan.specs.declared.hits.Hit.{Hit};

    ghost Value = { List Hit };

    ghost view = { λ h. h.rows.items };
}

impl Hits {
    /// These rows.
    pub(crate) fn of(rows: Vec<Hit>) -> Hits
        ensures { result ≡ rows.items }
    {
        Hits { rows }
    }

    /// How many rows there are.
    pub fn len(&self) -> usize
        ensures { result ≡ length self.now }
    {
        self.rows.len()
    }

    /// The row at a place, counted from 0.
    pub fn item(&self, i: usize) -> Hit
        requires { i < length self.now }
        ensures { slice_get self.now i ≡ Some result }
    {
        self.rows[i]
    }

    /// All rows.
    pub fn as_slice(&self) -> &[Hit]
        ensures { result.now ≡ self.now }
    {
        &self.rows
    }
}
