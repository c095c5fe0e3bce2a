//! The present nodes of a view, and their degrees.
ghost use Rattle.std.specs.Prelude.{◌≡◌, ◌<◌, ◌+◌, ◌*◌, ◌∷◌, ◌++◌, length, map, OnOk};
ghost use Rattle.std.specs.List.{All};
ghost use Rattle.csv.specs.Writing.{default_writer, row_text};
ghost use Rattle.graph_model.specs.declared.events.Model.TheVariants.{Event as Instants};
ghost use Rattle.graph_model.specs.Answer.{NodeRow, degree_row, row_fields};
ghost use Rattle.graph_model.specs.Output.{world_row};
ghost use Rattle.graph_model.specs.Presence.{nodes};
ghost use Rattle.graph_model.specs.RowText.{rows_text};
ghost use Rattle.graph_store.specs.Contents.{name_at};
ghost use Rattle.view_trait.specs.Coverage.{Covers, edge_count_on, node_count_on};
ghost use Rattle.view_trait.specs.Meaning.{StepsWithin};
ghost use Rattle.walk_algorithms.specs.Degrees.{degree_row_of};
ghost use Rattle.answer_parts.specs.WorldPart.{part_rows};

use crate::store_row::{StoreRow, add_rows};
use answer_parts::add_world;
use event_rows::RowWriter;
use graph_model::{Bounds, Memory, Name};
use graph_store::Store;
use itoa::Buffer;
use present_links::{NodeRows, links, present_nodes};
use std::alloc::Global;
use std::sync::ledger::Ledger;
use time_column::Steps;
use view_trait::{Roster, View};
use walk_algorithms::{Degree, degrees};

impl StoreRow for Degree {
    ghost use Rattle.std.specs.Prelude.{◌<◌, length};
    ghost use Rattle.walk_algorithms.specs.Degrees.{degree_row_of};

    ghost as_row = { degree_row_of };

    ghost is_known = { λ c degree. degree.node.0 < length c.nodes };

    fn add_to(&self, out: &mut RowWriter, store: &Store) -> Result<(), Memory> {
        out.add_fields(&[
            store.node_name(self.node).as_str().as_bytes(),
            Buffer::new().format(self.ins).as_bytes(),
            Buffer::new().format(self.outs).as_bytes(),
            Buffer::new().format(self.both).as_bytes(),
        ])
    }
}

/// Adds the row of a name.
fn add_name(out: &mut RowWriter, name: &Name) -> Result<(), Memory>
    ensures { OnOk result
        (out.new ≡ out.old ++ row_text default_writer (row_fields (NodeRow name.now))) }
{
    out.add_fields(&[name.as_str().as_bytes()])
}

/// Adds the part of a world with these bounds whose answer has the names of some nodes.
pub fn add_names(
    out: &mut RowWriter,
    bounds: Bounds,
    store: &Store,
    rows: &NodeRows,
) -> Result<(), Memory>
    requires { All (λ n. n < length store.now.nodes) rows.now }
    ensures { let answer = map (λ n. NodeRow (name_at store.now.nodes n)) rows.now in
        OnOk result (out.new ≡ out.old
        ++ rows_text (world_row bounds (length rows.now) ∷ map row_fields answer)) }
{
    add_world(out, bounds, rows.len())?;
    for i in 0..rows.len() {
        add_name(out, store.node_name(rows.item(i)))?;
    }
    Ok(())
}

/// Adds the part of the world of a view: its present nodes. They are the same for every roster that
/// covers the view.
pub fn add_nodes<V: View, L: Ledger>(
    alloc: Global,
    out: &mut RowWriter,
    view: &V,
    roster: Roster<'_>,
    steps: &mut Steps<L>,
) -> Result<(), Memory>
    requires covers { Covers (V.contents view.now) (V.world view.now) roster }
    ensures rows { let w = V.world view.now in
        OnOk result (out.new ≡ out.old ++ rows_text (part_rows w (map NodeRow (nodes w)))) }
    ensures cost { let c = V.contents view.now in
        let of_nodes = node_count_on c roster.entry * (V.searches view.now).nodes in
        let of_edges = edge_count_on c roster.entry * (V.searches view.now).edges in
        (V.world view.now).model ≡ Instants
        → StepsWithin steps.old steps.new (of_nodes + of_edges) (length c.accepted) }
{
    let links = links(alloc, view, roster, steps)?;
    let nodes = present_nodes(alloc, view, &links, roster, steps)?;
    add_names(out, view.bounds(), view.store(), &nodes)
}

/// Adds the part of the world of a view: the degrees of its present nodes. They are the same for every
/// roster that covers the view.
pub fn add_node_degrees<V: View, L: Ledger>(
    alloc: Global,
    out: &mut RowWriter,
    view: &V,
    roster: Roster<'_>,
    steps: &mut Steps<L>,
) -> Result<(), Memory>
    requires covers { Covers (V.contents view.now) (V.world view.now) roster }
    ensures rows { let w = V.world view.now in
        OnOk result (out.new ≡ out.old ++ rows_text (part_rows w (map (degree_row w) (nodes w)))) }
    ensures cost { let c = V.contents view.now in
        let of_nodes = node_count_on c roster.entry * (V.searches view.now).nodes in
        let of_edges = edge_count_on c roster.entry * (V.searches view.now).edges in
        (V.world view.now).model ≡ Instants
        → StepsWithin steps.old steps.new (of_nodes + of_edges) (length c.accepted) }
{
    let rows = degrees(alloc, view, roster, steps)?;
    add_rows(out, view.bounds(), view.store(), rows.as_slice())
}
