//! The view of a list of views.
ghost use Rattle.std.specs.Prelude.{◌≡◌, true};
ghost use Rattle.std.specs.List.{list_all};
ghost use Rattle.graph_store.specs.Contents.{base_of};
ghost use Rattle.view_trait.specs.Meaning.{IsShown};
ghost use Rattle.view_trait.specs.Ready.{in_range};
ghost use Rattle.view_trait.proofs.OneProof.{IsShown-prop};

use crate::bounded_spans::bounds_below;
use crate::edges::edge_span_below;
use crate::nodes::node_span_below;
use entity_tests::EntityTest;
use graph_model::Bounds;
use graph_store::{EdgeId, NodeId, Store};
use std::sync::ledger::Ledger;
use time_column::Steps;
use time_history::Span;
use view_trait::{ReadyOps, View, store_facts};

/// What a list of views shows of a store, the first view applied first.
#[derive(Clone, Copy)]
pub struct StackView<'g> {
    pub store: &'g Store,
    pub ops: &'g ReadyOps,
    ghost shown: { IsShown store.now (base_of store.now) } by { IsShown-prop store.now (base_of store.now) },
    ghost in_range: { list_all in_range ops.now ≡ true },
}

impl<'g> StackView<'g> {
    /// The views of a list over all that a store has accepted. The moments of each window are bounds.
    pub fn new(store: &'g Store, ops: &'g ReadyOps) -> StackView<'g>
        requires { list_all in_range ops.now ≡ true }
        ensures store { result.store.now ≡ store.now }
        ensures ops { result.ops.now ≡ ops.now }
    {
        store_facts(store);
        StackView { store, ops }
    }
}

impl View for StackView<'_> {
    ghost use Rattle.std.specs.Prelude.{map};
    ghost use Rattle.graph_model.specs.Searches.{searches as searches_of};
    ghost use Rattle.view_trait.specs.Ready.{ready_apply, ready_kind};
    ghost use Rattle.stack_view.specs.Shown.{IsShown-after};

    ghost contents = { λ view. view.store.now };

    ghost world = { λ view. ready_apply view.store.now view.ops.now (base_of view.store.now) };

    ghost searches = { λ view. searches_of (map ready_kind view.ops.now) };

    ghost shown = { λ view. IsShown-after view.store.now view.ops.now (base_of view.store.now) view.shown };

    fn store(&self) -> &Store {
        self.store
    }

    fn bounds(&self) -> Bounds {
        bounds_below(self.store, self.ops, self.ops.len())
    }

    fn layers_kept(&self) -> u64 {
        let mut kept = u64::MAX;
        for i in 0..self.ops.len() {
            kept &= self.ops.item(i).layers();
        }
        kept
    }

    fn node_span<L: Ledger>(&self, n: NodeId, steps: &mut Steps<L>) -> Span {
        node_span_below(self.store, self.ops, self.ops.len(), n, steps).span
    }

    fn edge_span<L: Ledger>(&self, e: EdgeId, steps: &mut Steps<L>) -> Span {
        edge_span_below(self.store, self.ops, self.ops.len(), e, steps).span
    }
}
