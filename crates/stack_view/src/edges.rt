//! The part of an edge's history that a list of views shows.
ghost use Rattle.std.specs.Prelude.{◌≡◌, ◌<◌, ◌≤◌, ◌*◌, true, length};
ghost use Rattle.std.specs.List.{list_all};
ghost use Rattle.graph_store.specs.Contents.{base_of};
ghost use Rattle.view_trait.specs.Meaning.{IsShown, StepsWithin, Shows, edge_at, node_at};
ghost use Rattle.view_trait.specs.Ready.{in_range};
ghost use Rattle.entity_tests.specs.Tests.{end_searches, ends_pass};
ghost use Rattle.entity_tests.specs.Ready.{by_ends, keeps_entity};
ghost use Rattle.stack_view.specs.Below.{below, searches_below};
ghost use Rattle.stack_view.specs.Stands.{StandsFor};

use crate::bounded_spans::{BoundedSpan, span_with};
use crate::nodes::node_span_below;
use entity_tests::EntityTest;
use graph_store::{EdgeId, NodeId, Store};
use std::sync::ledger::Ledger;
use time_column::Steps;
use time_history::Span;
use view_trait::{ReadyOp, ReadyOps};

/// Whether a view keeps a node of what the first `count` views show.
fn node_passes_below<L: Ledger>(
    store: &Store,
    ops: &ReadyOps,
    count: usize,
    op: &ReadyOp,
    n: NodeId,
    steps: &mut Steps<L>,
) -> bool
    requires exists { n.0 < length store.now.nodes }
    requires within { count ≤ length ops.now }
    requires in_range { list_all in_range ops.now ≡ true }
    requires shown { IsShown store.now (base_of store.now) }
    ensures passes { let w = below store.now ops.now count in result ≡ keeps_entity store.now w op.now (node_at store.now n.0) }
    ensures cost { StepsWithin steps.old steps.new (searches_below ops.now count).nodes (length store.now.accepted) }
{
    let part = node_span_below(store, ops, count, n, steps);
    op.passes_node(store, n, part.span)
}

/// Whether a view keeps both ends of an edge of what the first `count` views show.
fn ends_pass_below<L: Ledger>(
    store: &Store,
    ops: &ReadyOps,
    count: usize,
    op: &ReadyOp,
    e: EdgeId,
    steps: &mut Steps<L>,
) -> bool
    requires exists { e.0 < length store.now.edges }
    requires within { count ≤ length ops.now }
    requires in_range { list_all in_range ops.now ≡ true }
    requires shown { IsShown store.now (base_of store.now) }
    ensures passes { let w = below store.now ops.now count in result ≡ ends_pass (keeps_entity store.now w op.now) store.now e.0 }
    ensures cost { StepsWithin steps.old steps.new (2 * (searches_below ops.now count).nodes) (length store.now.accepted) }
{
    let (src, dst, _layer) = store.edge_parts(e);
    node_passes_below(store, ops, count, op, src, steps)
        && node_passes_below(store, ops, count, op, dst, steps)
}

/// Whether a view keeps an edge of what the first `count` views show, from the part that stands for
/// the edge there.
fn edge_passes_below<L: Ledger>(
    store: &Store,
    ops: &ReadyOps,
    count: usize,
    op: &ReadyOp,
    e: EdgeId,
    span: Span,
    steps: &mut Steps<L>,
) -> bool
    requires exists { e.0 < length store.now.edges }
    requires within { count ≤ length ops.now }
    requires in_range { list_all in_range ops.now ≡ true }
    requires shown { IsShown store.now (base_of store.now) }
    requires span { Shows store.now (below store.now ops.now count) (edge_at store.now e.0) span }
    ensures passes { let w = below store.now ops.now count in result ≡ keeps_entity store.now w op.now (edge_at store.now e.0) }
    ensures cost { let s = searches_below ops.now count in StepsWithin steps.old steps.new (end_searches (by_ends op.now) s) (length store.now.accepted) }
{
    if op.asks_ends() {
        ends_pass_below(store, ops, count, op, e, steps)
    } else {
        op.passes_edge(store, e, span)
    }
}

/// The part of an edge's history that the first `count` views show.
pub fn edge_span_below<L: Ledger>(
    store: &Store,
    ops: &ReadyOps,
    count: usize,
    e: EdgeId,
    steps: &mut Steps<L>,
) -> BoundedSpan
    requires exists { e.0 < length store.now.edges }
    requires within { count ≤ length ops.now }
    requires in_range { list_all in_range ops.now ≡ true }
    requires shown { IsShown store.now (base_of store.now) }
    ensures stands { StandsFor store.now (below store.now ops.now count) (edge_at store.now e.0) result }
    ensures cost { StepsWithin steps.old steps.new (searches_below ops.now count).edges (length store.now.accepted) }
{
    let history = store.edge_history(e);
    let model = store.model();
    let mut part = BoundedSpan {
        span: history.whole(),
        bounds: store.bounds(),
    };
    for i in 0..count {
        let op = ops.item(i);
        let keeps = edge_passes_below(store, ops, i, op, e, part.span, steps);
        part = span_with(history, part, model, op, keeps, steps);
    }
    part
}
