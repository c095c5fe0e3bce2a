//! The part of one world in the answer to a question.
ghost use Rattle.std.specs.Prelude.{◌≡◌, true, OnOk};
ghost use Rattle.view_trait.specs.Coverage.{Covers};
ghost use Rattle.answer_parts.specs.WorldPart.{AddsPart};
ghost use Rattle.query_answers.specs.Asks.{IsPaid, is_asked};

use event_rows::RowWriter;
use graph_model::{Ask, Memory};
use node_answers::{
    add_arrivals, add_core, add_core_numbers, add_hops, add_in_component, add_node_degrees,
    add_nodes, add_out_component, add_weak_labels,
};
use std::alloc::Global;
use std::sync::ledger::Ledger;
use time_column::Steps;
use view_answers::{
    add_edge_alive, add_edge_history, add_edge_value, add_edges, add_events, add_node_history,
    add_node_value, add_world_records,
};
use view_trait::{Roster, View};

/// Adds the part of the world of a view in the answer to a question: the row of the world with its
/// bounds and the number of rows, and then the rows. It is the same for every roster that covers the
/// view.
///
/// Want of memory loses the whole text.
pub fn add_part<V: View, L: Ledger>(
    alloc: Global,
    out: &mut RowWriter,
    view: &V,
    roster: Roster<'_>,
    ask: &Ask,
    steps: &mut Steps<L>,
) -> Result<(), Memory>
    requires asked { is_asked ask.now ≡ true }
    requires covers { Covers (V.contents view.now) (V.world view.now) roster }
    ensures part { OnOk result (AddsPart (V.world view.now) ask.now out.old out.new) }
    ensures cost { let contents = V.contents view.now in
        let world = V.world view.now in
        IsPaid contents roster.entry world (V.searches view.now) ask.now steps.old steps.new }
{
    match ask {
        Ask::Nodes => add_nodes(alloc, out, view, roster, steps),
        Ask::Edges => add_edges(alloc, out, view, roster, steps),
        Ask::Events => add_events(out, view, roster, steps),
        Ask::Degree => add_node_degrees(alloc, out, view, roster, steps),
        Ask::NodeHistory(node) => add_node_history(alloc, out, view, node, steps),
        Ask::EdgeHistory(edge) => add_edge_history(alloc, out, view, edge, steps),
        Ask::NodeValue(node, key) => add_node_value(alloc, out, view, node, key, steps),
        Ask::EdgeValue(edge, key) => add_edge_value(alloc, out, view, edge, key, steps),
        Ask::EdgeAlive(edge, m) => add_edge_alive(out, view, edge, *m, steps),
        Ask::Materialise => add_world_records(alloc, out, view, roster, steps),
        Ask::Hops(node, direction) => add_hops(alloc, out, view, roster, node, *direction, steps),
        Ask::Weak => add_weak_labels(alloc, out, view, roster, steps),
        Ask::OutComponent(node) => add_out_component(alloc, out, view, roster, node, steps),
        Ask::InComponent(node) => add_in_component(alloc, out, view, roster, node, steps),
        Ask::Core(k) => add_core(alloc, out, view, roster, *k, steps),
        Ask::CoreNumbers => add_core_numbers(alloc, out, view, roster, steps),
        Ask::Arrival(start, seeds) => add_arrivals(alloc, out, view, *start, seeds, steps),
        Ask::Updates => unreachable!(),
    }
}
