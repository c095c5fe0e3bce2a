//! Rows of answers, one at a time.
ghost use Rattle.std.specs.Prelude.{◌≡◌, ◌++◌, OnOk};
ghost use Rattle.csv.specs.Writing.{default_writer, row_text};
ghost use Rattle.graph_model.specs.Answer.{EdgeRow, MomentRow, AliveRow, ValueRow, row_fields};
ghost use Rattle.graph_model.specs.Record.{flag_text};
ghost use Rattle.view_answers.specs.Extents.{extent_told};
ghost use Rattle.view_answers.specs.Moments.{kind_word};

use event_rows::RowWriter;
use graph_model::{Memory, Name, Value};
use itoa::Buffer;
use property_values::print_value;
use std::alloc::Global;
use time_history::Kind;
use view_lists::Moment;
use view_trait::WorldExtent;

const NONE: &[u8] = b"none";

/// How an event of a kind is printed.
fn word_of(kind: Kind) -> &'static [u8]
    ensures { result.now ≡ kind_word kind }
{
    match kind {
        Kind::Node => b"node",
        Kind::Add => b"edge",
        Kind::Delete => b"delete",
    }
}

/// Adds the row of an event at a place of a history.
pub fn add_moment(out: &mut RowWriter, place: usize, moment: Moment) -> Result<(), Memory>
    ensures { OnOk result (out.new ≡ out.old ++ row_text default_writer (row_fields (MomentRow place moment.time (kind_word moment.kind)))) }
{
    out.add_fields(&[
        Buffer::new().format(place).as_bytes(),
        Buffer::new().format(moment.time).as_bytes(),
        word_of(moment.kind),
    ])
}

/// Adds the row of a value.
pub fn add_value(alloc: Global, out: &mut RowWriter, value: &Value) -> Result<(), Memory>
    ensures { OnOk result (out.new ≡ out.old ++ row_text default_writer (row_fields (ValueRow value.now))) }
{
    let mut text = Vec::new(alloc);
    print_value(value, &mut text)?;
    out.add_fields(&[text.as_slice()])
}

/// The word of a flag.
fn flag_word(flag: bool) -> &'static [u8]
    ensures { result.now ≡ flag_text flag }
{
    if flag { b"true" } else { b"false" }
}

/// Adds the row that says whether an edge is alive.
pub fn add_alive(out: &mut RowWriter, alive: bool) -> Result<(), Memory>
    ensures { OnOk result (out.new ≡ out.old ++ row_text default_writer (row_fields (AliveRow alive))) }
{
    out.add_fields(&[flag_word(alive)])
}

/// Adds the row of an edge.
pub fn add_edge(out: &mut RowWriter, src: &Name, dst: &Name, layer: &Name) -> Result<(), Memory>
    ensures { OnOk result (out.new ≡ out.old ++ row_text default_writer (row_fields (EdgeRow (record { src = src.now; dst = dst.now; layer = layer.now })))) }
{
    out.add_fields(&[
        src.as_str().as_bytes(),
        dst.as_str().as_bytes(),
        layer.as_str().as_bytes(),
    ])
}

/// Adds the row of an extent.
pub fn add_extent(out: &mut RowWriter, extent: WorldExtent) -> Result<(), Memory>
    ensures { OnOk result (out.new ≡ out.old ++ row_text default_writer (row_fields (extent_told extent))) }
{
    match (extent.first, extent.last) {
        (Some(first), Some(last)) => out.add_fields(&[
            Buffer::new().format(extent.events).as_bytes(),
            Buffer::new().format(first).as_bytes(),
            Buffer::new().format(last).as_bytes(),
        ]),
        _ => out.add_fields(&[Buffer::new().format(extent.events).as_bytes(), NONE, NONE]),
    }
}
