//! Tests of entities.
ghost use Rattle.std.specs.Prelude.{◌≡◌, ◌<◌, ◌&&◌, ◌*◌, Bool, false, true, length};
ghost use Rattle.graph_model.specs.declared.events.EdgeName.{EdgeName};
ghost use Rattle.graph_model.specs.declared.events.Entity.{Entity};
ghost use Rattle.graph_model.specs.declared.events.Entity.TheVariants.{Node, Edge};
ghost use Rattle.graph_model.specs.World.{World};
ghost use Rattle.graph_store.specs.Contents.{Contents};
ghost use Rattle.view_trait.specs.Meaning.{StepsWithin, Shows, node_at, edge_at};
ghost use Rattle.entity_tests.specs.Tests.{IsSpanOf, PassesLayers, end_searches, ends_pass};

use graph_store::{EdgeId, NodeId, Store};
use std::sync::ledger::Ledger;
use time_column::Steps;
use time_history::Span;
use view_trait::View;

/// A test of entities, by the part of the history that stands for an entity's events in a world. It
/// makes no search and takes no memory.
pub trait EntityTest {
    /// Which entities of a world over a store pass.
    ghost passes: { Self → Contents → World → Entity → Bool };

    /// Whether an edge passes exactly where both of its ends do, and these are to be asked.
    ghost by_ends: { Self → Bool };

    /// Whether the ends of an edge are to be asked.
    fn asks_ends(&self) -> bool
        ensures { result ≡ by_ends self.now };

    /// The layers, as bits, outside which no edge passes.
    fn layers(&self) -> u64
        ensures { PassesLayers (passes self.now) result };

    /// Whether a node passes in each world in which a span shows it.
    fn passes_node(&self, store: &Store, n: NodeId, span: Span) -> bool
        requires exists { n.0 < length store.now.nodes }
        requires span { IsSpanOf store.now (node_at store.now n.0) span }
        ensures { (w : World) → Shows store.now w (node_at store.now n.0) span → result ≡ passes self.now store.now w (node_at store.now n.0) };

    /// Whether an edge passes in each world in which a span shows it, where its ends are not asked.
    /// Where they are, nothing is said of the answer.
    fn passes_edge(&self, store: &Store, e: EdgeId, span: Span) -> bool
        requires exists { e.0 < length store.now.edges }
        requires span { IsSpanOf store.now (edge_at store.now e.0) span }
        ensures { by_ends self.now ≡ false
            → (w : World)
            → Shows store.now w (edge_at store.now e.0) span
            → result ≡ passes self.now store.now w (edge_at store.now e.0) };

    /// An edge passes by its ends.
    ghost ends: { (test : Self) (c : Contents) (w : World) (edge : EdgeName) → by_ends test ≡ true → passes test c w (Edge edge) ≡ (passes test c w (Node edge.src) && passes test c w (Node edge.dst)) };
}

/// Whether a node of a view passes a test.
fn node_passes_in<T: EntityTest, V: View, L: Ledger>(
    test: &T,
    view: &V,
    n: NodeId,
    steps: &mut Steps<L>,
) -> bool
    requires { n.0 < length (V.contents view.now).nodes }
    ensures passes { let c = V.contents view.now in result ≡ T.passes test.now c (V.world view.now) (node_at c n.0) }
    ensures cost { let c = V.contents view.now in StepsWithin steps.old steps.new (V.searches view.now).nodes (length c.accepted) }
{
    let span = view.node_span(n, steps);
    test.passes_node(view.store(), n, span)
}

/// Whether both ends of an edge of a view pass a test.
fn ends_pass_in<T: EntityTest, V: View, L: Ledger>(
    test: &T,
    view: &V,
    e: EdgeId,
    steps: &mut Steps<L>,
) -> bool
    requires { e.0 < length (V.contents view.now).edges }
    ensures passes { let c = V.contents view.now in result ≡ ends_pass (T.passes test.now c (V.world view.now)) c e.0 }
    ensures cost { let c = V.contents view.now in StepsWithin steps.old steps.new (2 * (V.searches view.now).nodes) (length c.accepted) }
{
    let (src, dst, _layer) = view.store().edge_parts(e);
    node_passes_in(test, view, src, steps) && node_passes_in(test, view, dst, steps)
}

/// Whether an edge of a view passes a test, given its span in the view.
pub fn edge_passes_in<T: EntityTest, V: View, L: Ledger>(
    test: &T,
    view: &V,
    e: EdgeId,
    span: Span,
    steps: &mut Steps<L>,
) -> bool
    requires exists { e.0 < length (V.contents view.now).edges }
    requires span { let c = V.contents view.now in Shows c (V.world view.now) (edge_at c e.0) span }
    ensures passes { let c = V.contents view.now in result ≡ T.passes test.now c (V.world view.now) (edge_at c e.0) }
    ensures cost { let c = V.contents view.now in StepsWithin steps.old steps.new (end_searches (T.by_ends test.now) (V.searches view.now)) (length c.accepted) }
{
    if test.asks_ends() {
        ends_pass_in(test, view, e, steps)
    } else {
        test.passes_edge(view.store(), e, span)
    }
}
