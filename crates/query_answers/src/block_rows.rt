// Rows of blocks.
ghost use Rattle.std.specs.Prelude.{◌≡◌, ◌++◌, OnOk, OnErr};
ghost use Rattle.csv.specs.Writing.{default_writer, row_text};
ghost use Rattle.graph_model.specs.Output.{ask_word as word_of_ask, query_row};

use event_rows::RowWriter;
use graph_model::{Ask, Memory};
use itoa::Buffer;

const QUERY: &[u8] = b"query";

/// The word for a question.
pub fn ask_word(ask: &Ask) -> &'static [u8]
    ensures { result.now ≡ word_of_ask ask.now }
{
    match ask {
        Ask::Nodes => b"nodes",
        Ask::Edges => b"edges",
        Ask::Events => b"events",
        Ask::Degree => b"degree",
        Ask::Hops(..) => b"hops",
        Ask::Weak => b"weak",
        Ask::OutComponent(_) => b"out_component",
        Ask::InComponent(_) => b"in_component",
        Ask::Core(_) => b"core",
        Ask::CoreNumbers => b"core_numbers",
        Ask::Arrival(..) => b"arrival",
        Ask::NodeHistory(_) => b"node_history",
        Ask::EdgeHistory(_) => b"edge_history",
        Ask::NodeValue(..) => b"node_value",
        Ask::EdgeValue(..) => b"edge_value",
        Ask::EdgeAlive(..) => b"edge_alive",
        Ask::Materialise => b"materialise",
        Ask::Updates => b"updates",
    }
}

/// Appends rows to a text, which stays as it is where memory is wanting.
pub fn append_rows(text: &mut Vec<u8>, rows: RowWriter) -> Result<(), Memory>
    ensures ok { OnOk result (text.new.items ≡ text.old.items ++ rows) }
    ensures err { OnErr result (text.new.items ≡ text.old.items) }
{
    let rows = rows.into_text()?;
    text.extend_from_slice(rows.as_slice())
}

/// Adds the row of a query that is answered on so many worlds.
pub fn add_query(out: &mut RowWriter, line: u32, ask: &Ask, worlds: u32) -> Result<(), Memory>
    ensures { OnOk result (out.new ≡ out.old ++ row_text default_writer (query_row line ask.now worlds)) }
{
    out.add_fields(&[
        QUERY,
        Buffer::new().format(line).as_bytes(),
        ask_word(ask),
        Buffer::new().format(worlds).as_bytes(),
    ])
}
