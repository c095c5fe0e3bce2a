//! The view of a list of views that is rewritten.
ghost use Rattle.std.specs.Prelude.{◌≡◌, is_some, map};
ghost use Rattle.std.specs.List.{list_all};
ghost use Rattle.std.specs.Option.{ForSome};
ghost use Rattle.graph_model.specs.Searches.{fused_searches};
ghost use Rattle.graph_store.specs.Contents.{base_of};
ghost use Rattle.view_trait.specs.Meaning.{IsShown};
ghost use Rattle.view_trait.specs.Ready.{ready_apply, ready_kind};
ghost use Rattle.view_trait.proofs.OneProof.{IsShown-prop};
ghost use Rattle.fused_view.specs.Counts.{counted};
ghost use Rattle.fused_view.specs.Fused.{IsFused};
ghost use Rattle.fused_view.specs.Lanes.{is_lane, lane_world};

use crate::counts::SearchCounts;
use crate::fused_ops::FusedOps;
use crate::lanes::Lanes;
use graph_model::Bounds;
use graph_store::{EdgeId, NodeId, Store};
use stack_view::StackView;
use std::sync::ledger::Ledger;
use time_column::Steps;
use time_history::Span;
use view_trait::{View, store_facts};

/// What a list of views shows of a store, the first view applied first, at the cost of the merged
/// list.
#[derive(Clone, Copy)]
pub struct FusedView<'g> {
    pub store: &'g Store,
    pub ops: &'g FusedOps,
    ghost shown: { IsShown store.now (base_of store.now) } by { IsShown-prop store.now (base_of store.now) },
}

impl<'g> FusedView<'g> {
    /// The views of a list over all that a store has accepted. It takes no memory and reads no stored
    /// time.
    pub fn new(store: &'g Store, ops: &'g FusedOps) -> FusedView<'g>
        ensures store { result.store.now ≡ store.now }
        ensures ops { result.ops.now ≡ ops.now }
    {
        store_facts(store);
        FusedView { store, ops }
    }

    /// The moments and the layers that the views come to, where each of them is a window or a view of
    /// layers. It takes no memory and reads no stored time.
    pub fn lanes(&self) -> Option<Lanes>
        ensures some { is_some result ≡ list_all is_lane self.now.ops.now.given }
        ensures world { let c = self.now.store.now in
            ForSome result (λ lanes.
            ready_apply c self.now.ops.now.given (base_of c) ≡ lane_world c lanes (base_of c)) }
    {
        let ops = self.ops.given();
        let mut lanes = Lanes::whole(self.store);
        for i in 0..ops.len() {
            lanes = lanes.with(ops.item(i))?;
        }
        Some(lanes)
    }

    /// How many searches the view of a node costs, and of an edge. It takes no memory and reads no
    /// stored time.
    pub fn searches(&self) -> SearchCounts
        ensures { result ≡ counted (fused_searches (map ready_kind self.now.ops.now.given)) }
    {
        let ops = self.ops.merged();
        let mut all = SearchCounts { nodes: 0, edges: 0 };
        for i in 0..ops.len() {
            all = all.with(ops.item(i));
        }
        all
    }

    // The view of the merged list.
    fn merged(&self) -> StackView<'g>
        ensures store { result.store.now ≡ self.now.store.now }
        ensures ops { result.ops.now ≡ self.now.ops.now.merged }
        ensures fused { IsFused self.now.ops.now.given self.now.ops.now.merged }
    {
        StackView::new(self.store, self.ops.merged())
    }
}

impl View for FusedView<'_> {
    ghost use Rattle.stack_view.specs.Shown.{IsShown-after};

    ghost contents = { λ view. view.store.now };

    ghost world = { λ view. ready_apply view.store.now view.ops.now.given (base_of view.store.now) };

    ghost searches = { λ view. fused_searches (map ready_kind view.ops.now.given) };

    ghost shown = { λ view. IsShown-after view.store.now view.ops.now.given (base_of view.store.now) view.shown };

    fn store(&self) -> &Store {
        self.store
    }

    fn bounds(&self) -> Bounds {
        self.merged().bounds()
    }

    fn layers_kept(&self) -> u64 {
        self.merged().layers_kept()
    }

    fn node_span<L: Ledger>(&self, n: NodeId, steps: &mut Steps<L>) -> Span {
        self.merged().node_span(n, steps)
    }

    fn edge_span<L: Ledger>(&self, e: EdgeId, steps: &mut Steps<L>) -> Span {
        self.merged().edge_span(e, steps)
    }
}
