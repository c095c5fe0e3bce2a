//! The part of a node's history that a list of views shows.
ghost use Rattle.std.specs.Prelude.{◌≡◌, ◌<◌, ◌≤◌, true, length};
ghost use Rattle.std.specs.List.{list_all};
ghost use Rattle.graph_model.specs.World.{events_of};
ghost use Rattle.graph_store.specs.Contents.{base_of};
ghost use Rattle.view_trait.specs.Meaning.{IsShown, StepsWithin, node_at};
ghost use Rattle.view_trait.specs.Ready.{in_range};
ghost use Rattle.stack_view.specs.Below.{below, searches_below};
ghost use Rattle.stack_view.specs.Stands.{StandsFor};

use crate::bounded_spans::{BoundedSpan, span_with};
use entity_tests::EntityTest;
use graph_store::{NodeId, Store};
use std::sync::ledger::Ledger;
use time_column::Steps;
use view_trait::ReadyOps;

/// The part of a node's history that the first `count` views show.
pub fn node_span_below<L: Ledger>(
    store: &Store,
    ops: &ReadyOps,
    count: usize,
    n: NodeId,
    steps: &mut Steps<L>,
) -> BoundedSpan
    requires exists { n.0 < length store.now.nodes }
    requires within { count ≤ length ops.now }
    requires in_range { list_all in_range ops.now ≡ true }
    requires shown { IsShown store.now (base_of store.now) }
    ensures stands { StandsFor store.now (below store.now ops.now count) (node_at store.now n.0) result }
    ensures cost { let own = events_of (base_of store.now) (node_at store.now n.0) in StepsWithin steps.old steps.new (searches_below ops.now count).nodes (length own) }
{
    let history = store.node_history(n);
    let model = store.model();
    let mut part = BoundedSpan {
        span: history.whole(),
        bounds: store.bounds(),
    };
    for i in 0..count {
        let op = ops.item(i);
        let keeps = op.passes_node(store, n, part.span);
        part = span_with(history, part, model, op, keeps, steps);
    }
    part
}
