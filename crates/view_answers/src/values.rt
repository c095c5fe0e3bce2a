//! Values of nodes and edges, and whether edges are alive.
ghost use Rattle.std.specs.Prelude.{◌≡◌, ◌∷◌, [], ◌++◌, length, map, OnOk};
ghost use Rattle.std.specs.Option.{option_copied};
ghost use Rattle.graph_model.specs.Answer.{AliveRow, row_fields, value_rows};
ghost use Rattle.graph_model.specs.Compare.{value_of};
ghost use Rattle.graph_model.specs.Output.{world_row};
ghost use Rattle.graph_model.specs.Presence.{alive_at as is_alive_at};
ghost use Rattle.graph_model.specs.RowText.{rows_text};
ghost use Rattle.graph_model.specs.World.{events_of};
ghost use Rattle.graph_model.specs.declared.events.Entity.TheVariants.{Node, Edge};
ghost use Rattle.graph_model.specs.declared.queries.Ask.TheVariants.{NodeValue, EdgeValue, EdgeAlive};
ghost use Rattle.view_trait.specs.Meaning.{StepsWithin, knows};
ghost use Rattle.answer_parts.specs.WorldPart.{part_rows};
ghost use Rattle.view_answers.specs.Costs.{ReadsWithin, known_searches};

use crate::answer_rows::{add_alive, add_value};
use crate::point::edge_alive;
use answer_parts::add_world;
use event_rows::RowWriter;
use graph_model::{Bounds, EdgeName, Memory, Name, Value};
use std::alloc::Global;
use std::sync::ledger::Ledger;
use time_column::Steps;
use view_trait::View;

/// The value of a key for a node, by their names. An unknown node has none, nor has an unknown key.
fn value_of_node<'v, V: View, L: Ledger>(
    view: &'v V,
    node: &Name,
    key: &Name,
    steps: &mut Steps<L>,
) -> Option<&'v Value>
    ensures value { option_copied result ≡ value_of key.now (events_of (V.world view.now) (Node node.now)) }
    ensures cost { StepsWithin steps.old steps.new (known_searches (knows (V.contents view.now)) (V.searches view.now) (NodeValue node.now key.now)) (length (V.contents view.now).accepted) }
{
    let store = view.store();
    let n = store.node_of(node)?;
    let span = view.node_span(n, steps);
    let history = store.node_history(n);
    let number = store.node_key(key)?;
    history.value(span, number)
}

/// The value of a key for an edge, by their names. An unknown edge has none, nor has an unknown key.
fn value_of_edge<'v, V: View, L: Ledger>(
    view: &'v V,
    edge: &EdgeName,
    key: &Name,
    steps: &mut Steps<L>,
) -> Option<&'v Value>
    ensures value { option_copied result ≡ value_of key.now (events_of (V.world view.now) (Edge edge.now)) }
    ensures cost { StepsWithin steps.old steps.new (known_searches (knows (V.contents view.now)) (V.searches view.now) (EdgeValue edge.now key.now)) (length (V.contents view.now).accepted) }
{
    let store = view.store();
    let e = store.edge_of(edge)?;
    let span = view.edge_span(e, steps);
    let history = store.edge_history(e);
    let number = store.edge_key(key)?;
    history.value(span, number)
}

/// Whether an edge is alive at a moment, by its name. An unknown one never is.
fn alive_edge<V: View, L: Ledger>(view: &V, edge: &EdgeName, m: i64, steps: &mut Steps<L>) -> bool
    ensures alive { result ≡ is_alive_at (V.world view.now) edge.now m }
    ensures cost { ReadsWithin steps.old steps.new (known_searches (knows (V.contents view.now)) (V.searches view.now) (EdgeAlive edge.now m)) (length (V.contents view.now).accepted) }
{
    match view.store().edge_of(edge) {
        Some(e) => edge_alive(view, e, m, steps),
        None => false,
    }
}

/// Adds the part of a world with these bounds whose answer is a value, if there is one.
fn add_found(
    alloc: Global,
    out: &mut RowWriter,
    bounds: Bounds,
    value: Option<&Value>,
) -> Result<(), Memory>
    ensures { OnOk result (out.new ≡ out.old ++ rows_text (world_row bounds (length (value_rows (option_copied value.entry))) ∷ map row_fields (value_rows (option_copied value.entry)))) }
{
    match value {
        Some(value) => {
            add_world(out, bounds, 1)?;
            add_value(alloc, out, value)
        }
        None => add_world(out, bounds, 0),
    }
}

/// Adds the part of the world of a view: the value of a key for a node.
pub fn add_node_value<V: View, L: Ledger>(
    alloc: Global,
    out: &mut RowWriter,
    view: &V,
    node: &Name,
    key: &Name,
    steps: &mut Steps<L>,
) -> Result<(), Memory>
    ensures rows { OnOk result (out.new ≡ out.old ++ rows_text (part_rows (V.world view.now) (value_rows (value_of key.now (events_of (V.world view.now) (Node node.now)))))) }
    ensures cost { StepsWithin steps.old steps.new (known_searches (knows (V.contents view.now)) (V.searches view.now) (NodeValue node.now key.now)) (length (V.contents view.now).accepted) }
{
    let value = value_of_node(view, node, key, steps);
    add_found(alloc, out, view.bounds(), value)
}

/// Adds the part of the world of a view: the value of a key for an edge.
pub fn add_edge_value<V: View, L: Ledger>(
    alloc: Global,
    out: &mut RowWriter,
    view: &V,
    edge: &EdgeName,
    key: &Name,
    steps: &mut Steps<L>,
) -> Result<(), Memory>
    ensures rows { OnOk result (out.new ≡ out.old ++ rows_text (part_rows (V.world view.now) (value_rows (value_of key.now (events_of (V.world view.now) (Edge edge.now)))))) }
    ensures cost { StepsWithin steps.old steps.new (known_searches (knows (V.contents view.now)) (V.searches view.now) (EdgeValue edge.now key.now)) (length (V.contents view.now).accepted) }
{
    let value = value_of_edge(view, edge, key, steps);
    add_found(alloc, out, view.bounds(), value)
}

/// Adds the part of the world of a view: whether an edge is alive at a moment.
pub fn add_edge_alive<V: View, L: Ledger>(
    out: &mut RowWriter,
    view: &V,
    edge: &EdgeName,
    m: i64,
    steps: &mut Steps<L>,
) -> Result<(), Memory>
    ensures rows { OnOk result (out.new ≡ out.old ++ rows_text (part_rows (V.world view.now) (AliveRow (is_alive_at (V.world view.now) edge.now m) ∷ []))) }
    ensures cost { ReadsWithin steps.old steps.new (known_searches (knows (V.contents view.now)) (V.searches view.now) (EdgeAlive edge.now m)) (length (V.contents view.now).accepted) }
{
    let alive = alive_edge(view, edge, m, steps);
    add_world(out, view.bounds(), 1)?;
    add_alive(out, alive)
}
