// Rows of text.
ghost use Rattle.std.specs.Prelude.{◌≡◌, ◌++◌, OnOk};
ghost use Rattle.csv.specs.Writing.{default_writer, row_text};
ghost use Rattle.graph_model.specs.Output.{graph_row, model_word as word_of_model, refused_query_row, refused_row};
ghost use Rattle.query_run.specs.Causes.{query_refusal_of};
ghost use Rattle.file_reading.specs.StoreReading.{refused_of};

use crate::query_causes::{QueryCause, query_word};
use event_rows::RowWriter;
use file_reading::{RefusedRecord, word};
use graph_model::{Bounds, Memory, Model};
use itoa::Buffer;

const REFUSED: &[u8] = b"refused";

const GRAPH: &[u8] = b"graph";

const QUERY: &[u8] = b"query";

/// The word for a model.
pub fn model_word(model: Model) -> &'static [u8]
    ensures { result.now ≡ word_of_model model }
{
    match model {
        Model::Event => b"event",
        Model::Persistent => b"persistent",
    }
}

/// Adds the row of a refused record.
pub fn add_refused(out: &mut RowWriter, refusal: RefusedRecord) -> Result<(), Memory>
    ensures { OnOk result (out.new ≡ out.old ++ row_text default_writer (refused_row (refused_of refusal))) }
{
    out.add_fields(&[
        REFUSED,
        Buffer::new().format(refusal.number).as_bytes(),
        word(refusal.cause),
    ])
}

/// Adds the row of a graph of a model with these bounds, and so many events and refused records.
pub fn add_graph(
    out: &mut RowWriter,
    model: Model,
    bounds: Bounds,
    events: u32,
    refused: usize,
) -> Result<(), Memory>
    ensures { OnOk result (out.new ≡ out.old ++ row_text default_writer (graph_row model bounds events refused)) }
{
    out.add_fields(&[
        GRAPH,
        model_word(model),
        Buffer::new().format(bounds.lo()).as_bytes(),
        Buffer::new().format(bounds.hi()).as_bytes(),
        Buffer::new().format(events).as_bytes(),
        Buffer::new().format(refused).as_bytes(),
    ])
}

/// Adds the row of a refused query.
pub fn add_refused_query(out: &mut RowWriter, line: u32, cause: QueryCause) -> Result<(), Memory>
    ensures { OnOk result (out.new ≡ out.old ++ row_text default_writer (refused_query_row line (query_refusal_of cause))) }
{
    out.add_fields(&[
        QUERY,
        Buffer::new().format(line).as_bytes(),
        REFUSED,
        query_word(cause),
    ])
}
