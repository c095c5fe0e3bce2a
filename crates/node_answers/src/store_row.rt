//! Rows of answers about nodes, by the numbers of a store.
ghost use Rattle.std.specs.Prelude.{◌≡◌, ◌<◌, ◌∷◌, ◌++◌, ℕ, length, map, OnOk};
ghost use Rattle.std.specs.List.{All};
ghost use Rattle.csv.specs.Writing.{default_writer, row_text};
ghost use Rattle.graph_model.specs.Answer.{Row, row_fields};
ghost use Rattle.graph_model.specs.Output.{world_row};
ghost use Rattle.graph_model.specs.RowText.{rows_text};
ghost use Rattle.graph_store.specs.Contents.{Contents};

use answer_parts::add_world;
use event_rows::RowWriter;
use graph_model::{Bounds, Memory};
use graph_store::Store;

/// A row of an answer about a node, by numbers of a store.
pub trait StoreRow {
    /// The row, with the names that a store has for the numbers.
    ghost as_row: { Contents → Self → Row };

    /// Whether a store has the numbers.
    ghost is_known: { Contents → Self → Type 0 };

    /// Adds the row, with the names in place of the numbers.
    fn add_to(&self, out: &mut RowWriter, store: &Store) -> Result<(), Memory>
        requires { is_known store.now self.now }
        ensures { OnOk result
            (out.new ≡ out.old ++ row_text default_writer (row_fields (as_row store.now self.now))) };
}

/// Adds the part of a world with these bounds whose answer has some rows, in their order.
pub fn add_rows<R: StoreRow>(
    out: &mut RowWriter,
    bounds: Bounds,
    store: &Store,
    rows: &[R],
) -> Result<(), Memory>
    requires { All (R.is_known store.now) rows.now }
    ensures { let answer = map (R.as_row store.now) rows.now in
        OnOk result (out.new ≡ out.old
        ++ rows_text (world_row bounds (length rows.now) ∷ map row_fields answer)) }
{
    add_world(out, bounds, rows.len())?;
    for row in rows {
        row.add_to(out, store)?;
    }
    Ok(())
}
