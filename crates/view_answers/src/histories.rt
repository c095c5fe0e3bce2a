//! The histories of nodes and edges.
ghost use Rattle.std.specs.Prelude.{codes, ◌≡◌, ◌∷◌, ◌++◌, length, map, OnOk};
ghost use Rattle.graph_model.specs.Answer.{edge_kind, history_rows, row_fields};
ghost use Rattle.graph_model.specs.Output.{world_row};
ghost use Rattle.graph_model.specs.RowText.{rows_text};
ghost use Rattle.graph_model.specs.World.{events_of};
ghost use Rattle.graph_model.specs.declared.events.Entity.TheVariants.{Node, Edge};
ghost use Rattle.view_answers.specs.Moments.{moment_rows};
ghost use Rattle.answer_parts.specs.WorldPart.{part_rows};

use crate::answer_rows::add_moment;
use answer_parts::add_world;
use event_rows::RowWriter;
use graph_model::{Bounds, EdgeName, Memory, Name};
use std::alloc::Global;
use std::sync::ledger::Ledger;
use time_column::Steps;
use view_lists::{Moments, edge_moments, node_moments};
use view_trait::View;

/// Adds the part of a world with these bounds whose answer has a row for each event of a history.
fn add_moments(out: &mut RowWriter, bounds: Bounds, moments: &Moments) -> Result<(), Memory>
    ensures { OnOk result (out.new ≡ out.old ++ rows_text (world_row bounds (length moments.now) ∷ map row_fields (moment_rows 0 moments.now))) }
{
    add_world(out, bounds, moments.len())?;
    for i in 0..moments.len() {
        add_moment(out, i, *moments.item(i))?;
    }
    Ok(())
}

/// Adds the part of the world of a view: the events of a node. An unknown one has none.
pub fn add_node_history<V: View, L: Ledger>(
    alloc: Global,
    out: &mut RowWriter,
    view: &V,
    node: &Name,
    steps: &mut Steps<L>,
) -> Result<(), Memory>
    ensures { OnOk result (out.new ≡ out.old ++ rows_text (part_rows (V.world view.now) (history_rows (λ x. codes "node") 0 (events_of (V.world view.now) (Node node.now))))) }
{
    match view.store().node_of(node) {
        Some(n) => {
            let moments = node_moments(alloc, view, n, steps)?;
            add_moments(out, view.bounds(), &moments)
        }
        None => add_world(out, view.bounds(), 0),
    }
}

/// Adds the part of the world of a view: the events of an edge. An unknown one has none.
pub fn add_edge_history<V: View, L: Ledger>(
    alloc: Global,
    out: &mut RowWriter,
    view: &V,
    edge: &EdgeName,
    steps: &mut Steps<L>,
) -> Result<(), Memory>
    ensures { OnOk result (out.new ≡ out.old ++ rows_text (part_rows (V.world view.now) (history_rows edge_kind 0 (events_of (V.world view.now) (Edge edge.now))))) }
{
    match view.store().edge_of(edge) {
        Some(e) => {
            let moments = edge_moments(alloc, view, e, steps)?;
            add_moments(out, view.bounds(), &moments)
        }
        None => add_world(out, view.bounds(), 0),
    }
}
