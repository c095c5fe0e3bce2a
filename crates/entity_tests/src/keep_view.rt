//! The view of what passes a test.
use crate::entity_test::{EntityTest, edge_passes_in};
use graph_model::Bounds;
use graph_store::{EdgeId, NodeId, Store};
use std::sync::ledger::Ledger;
use time_column::Steps;
use time_history::Span;
use view_trait::{View, nothing};

/// What its inner view shows of the entities that pass a test.
#[derive(Drop)]
pub struct KeepView<V, T> {
    pub inner: V,
    pub test: T,
}

impl<V: View, T: EntityTest> View for KeepView<V, T> {
    ghost use Rattle.graph_model.specs.Keep.{keep};
    ghost use Rattle.view_trait.proofs.Shown.{IsShown-keep};
    ghost use Rattle.entity_tests.specs.Tests.{searches_kept};

    ghost contents = { λ view. V.contents view.inner };

    ghost world = { λ view. keep (T.passes view.test (V.contents view.inner) (V.world view.inner)) (V.world view.inner) };

    ghost searches = { λ view. searches_kept (T.by_ends view.test) (V.searches view.inner) };

    ghost shown = { λ view. IsShown-keep (T.passes view.test (V.contents view.inner) (V.world view.inner)) (V.contents view.inner) (V.world view.inner) (V.shown view.inner) };

    fn store(&self) -> &Store {
        self.inner.store()
    }

    fn bounds(&self) -> Bounds {
        self.inner.bounds()
    }

    fn layers_kept(&self) -> u64 {
        self.inner.layers_kept() & self.test.layers()
    }

    fn node_span<L: Ledger>(&self, n: NodeId, steps: &mut Steps<L>) -> Span {
        let span = self.inner.node_span(n, steps);
        if self.test.passes_node(self.inner.store(), n, span) {
            span
        } else {
            nothing()
        }
    }

    fn edge_span<L: Ledger>(&self, e: EdgeId, steps: &mut Steps<L>) -> Span {
        let span = self.inner.edge_span(e, steps);
        if edge_passes_in(&self.test, &self.inner, e, span, steps) {
            span
        } else {
            nothing()
        }
    }
}
