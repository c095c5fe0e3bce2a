//! Questions about one node or one edge.
ghost use Rattle.std.specs.Prelude.{◌≡◌, ◌<◌, ◌+◌, length};
ghost use Rattle.std.specs.Option.{option_copied};
ghost use Rattle.graph_model.specs.Compare.{value_of};
ghost use Rattle.graph_model.specs.Presence.{alive_at as is_alive_at};
ghost use Rattle.graph_model.specs.World.{events_of};
ghost use Rattle.graph_store.specs.Keys.{key_name};
ghost use Rattle.view_trait.specs.Meaning.{StepsWithin, edge_at, edge_named, node_at};
ghost use Rattle.view_answers.specs.Costs.{ReadsWithin};
ghost use Rattle.view_answers.specs.Point.{IsKnownAsk, IsPointAnswer, IsValueAnswer, searches_of};

use graph_model::Value;
use graph_store::{EdgeId, NodeId};
use std::sync::ledger::Ledger;
use time_column::Steps;
use view_trait::View;

/// A question about one node or one edge, by numbers of a store.
#[derive(Clone, Copy)]
pub enum PointAsk {
    /// The value of a key of nodes for a node.
    NodeValue(NodeId, u32),
    /// The value of a key of edges for an edge.
    EdgeValue(EdgeId, u32),
    /// Whether an edge is alive at a moment.
    EdgeAlive(EdgeId, i64),
}

/// The answer to such a question.
#[derive(Clone, Copy)]
pub enum PointAnswer<'v> {
    /// There is no value.
    NoRow,
    /// The value, which the store keeps.
    Value(&'v Value),
    /// Whether the edge is alive.
    Flag(bool),
}

/// The value of a key for a node in the world of a view, if it has one.
fn node_value<'v, V: View, L: Ledger>(
    view: &'v V,
    n: NodeId,
    key: u32,
    steps: &mut Steps<L>,
) -> Option<&'v Value>
    requires node { n.0 < length (V.contents view.now).nodes }
    requires key { key < length (V.contents view.now).node_keys }
    ensures value { option_copied result ≡ value_of (key_name (V.contents view.now).node_keys key) (events_of (V.world view.now) (node_at (V.contents view.now) n.0)) }
    ensures cost { StepsWithin steps.old steps.new (V.searches view.now).nodes (length (V.contents view.now).accepted) }
{
    let store = view.store();
    let span = view.node_span(n, steps);
    store.node_history(n).value(span, key)
}

/// The value of a key for an edge in the world of a view, if it has one.
fn edge_value<'v, V: View, L: Ledger>(
    view: &'v V,
    e: EdgeId,
    key: u32,
    steps: &mut Steps<L>,
) -> Option<&'v Value>
    requires edge { e.0 < length (V.contents view.now).edges }
    requires key { key < length (V.contents view.now).edge_keys }
    ensures value { option_copied result ≡ value_of (key_name (V.contents view.now).edge_keys key) (events_of (V.world view.now) (edge_at (V.contents view.now) e.0)) }
    ensures cost { StepsWithin steps.old steps.new (V.searches view.now).edges (length (V.contents view.now).accepted) }
{
    let store = view.store();
    let span = view.edge_span(e, steps);
    store.edge_history(e).value(span, key)
}

/// Whether an edge is alive at a moment in the world of a view.
pub fn edge_alive<V: View, L: Ledger>(view: &V, e: EdgeId, m: i64, steps: &mut Steps<L>) -> bool
    requires { e.0 < length (V.contents view.now).edges }
    ensures alive { result ≡ is_alive_at (V.world view.now) (edge_named (V.contents view.now) e.0) m }
    ensures cost { ReadsWithin steps.old steps.new ((V.searches view.now).edges + 1) (length (V.contents view.now).accepted) }
{
    let store = view.store();
    let span = view.edge_span(e, steps);
    store
        .edge_history(e)
        .alive_at(span, view.bounds(), store.model(), m, steps)
}

/// The answer that a value is, or that there is none.
fn value_answer(value: Option<&Value>) -> PointAnswer<'_>
    ensures { IsValueAnswer (option_copied value.entry) result }
{
    match value {
        Some(value) => PointAnswer::Value(value),
        None => PointAnswer::NoRow,
    }
}

/// The answer in the world of a view. It takes no memory.
pub fn answer_point<'v, V: View, L: Ledger>(
    view: &'v V,
    ask: PointAsk,
    steps: &mut Steps<L>,
) -> PointAnswer<'v>
    requires { IsKnownAsk (V.contents view.now) ask }
    ensures answer { IsPointAnswer (V.contents view.now) (V.world view.now) ask result }
    ensures cost { ReadsWithin steps.old steps.new (searches_of (V.searches view.now) ask) (length (V.contents view.now).accepted) }
{
    match ask {
        PointAsk::NodeValue(n, key) => value_answer(node_value(view, n, key, steps)),
        PointAsk::EdgeValue(e, key) => value_answer(edge_value(view, e, key, steps)),
        PointAsk::EdgeAlive(e, m) => PointAnswer::Flag(edge_alive(view, e, m, steps)),
    }
}
