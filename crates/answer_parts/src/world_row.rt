//! The row of a world.
ghost use Rattle.std.specs.Prelude.{◌≡◌, ◌++◌, OnOk};
ghost use Rattle.csv.specs.Writing.{default_writer, row_text};
ghost use Rattle.graph_model.specs.Output.{world_row};

use event_rows::RowWriter;
use graph_model::{Bounds, Memory};
use itoa::Buffer;

const WORLD: &[u8] = b"world";

/// Adds the row of a world with these bounds, and so many rows of an answer.
///
/// Want of memory loses the whole text.
pub fn add_world(out: &mut RowWriter, bounds: Bounds, rows: usize) -> Result<(), Memory>
    ensures { OnOk result
        (out.new ≡ out.old ++ row_text default_writer (world_row bounds rows)) }
{
    out.add_fields(&[
        WORLD,
        Buffer::new().format(bounds.lo()).as_bytes(),
        Buffer::new().format(bounds.hi()).as_bytes(),
        Buffer::new().format(rows).as_bytes(),
    ])
}
