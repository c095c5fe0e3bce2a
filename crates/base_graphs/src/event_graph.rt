//! The graph of a store of the event model.
ghost use Rattle.std.specs.Prelude.{◌≡◌, ◌↔◌, IsNone, IfSome};
ghost use Rattle.graph_model.specs.declared.events.Model.TheVariants.{Persistent as Lasting};
ghost use Rattle.graph_store.specs.Contents.{base_of};
ghost use Rattle.view_trait.specs.Meaning.{IsShown};
ghost use Rattle.view_trait.proofs.OneProof.{IsShown-prop};

use graph_model::{Bounds, Model};
use graph_store::{EdgeId, NodeId, Store};
use std::sync::ledger::Ledger;
use time_column::Steps;
use time_history::Span;
use view_trait::{View, store_facts};

/// All that a store has accepted, in the event model.
#[derive(Clone, Copy)]
pub struct EventGraph<'g> {
    pub store: &'g Store,
    ghost shown: { IsShown store.now (base_of store.now) } by { IsShown-prop store.now (base_of store.now) },
}

impl<'g> EventGraph<'g> {
    /// The graph of a store, unless its edges last until they are deleted.
    pub fn over(store: &'g Store) -> Option<EventGraph<'g>>
        ensures none { IsNone result ↔ (store.now.model ≡ Lasting) }
        ensures some { IfSome result (λ graph. graph.store.now ≡ store.now) }
    {
        match store.model() {
            Model::Event => {
                store_facts(store);
                Some(EventGraph { store })
            }
            Model::Persistent => None,
        }
    }
}

impl View for EventGraph<'_> {
    ghost use Rattle.graph_model.specs.Searches.{Searches};

    ghost contents = { λ graph. graph.store.now };

    ghost world = { λ graph. base_of graph.store.now };

    ghost searches = { λ _. record { nodes = 0; edges = 0 } };

    ghost shown = { λ graph. graph.shown };

    fn store(&self) -> &Store {
        self.store
    }

    fn bounds(&self) -> Bounds {
        self.store.bounds()
    }

    fn layers_kept(&self) -> u64 {
        u64::MAX
    }

    fn node_span<L: Ledger>(&self, n: NodeId, _steps: &mut Steps<L>) -> Span {
        self.store.node_history(n).whole()
    }

    fn edge_span<L: Ledger>(&self, e: EdgeId, _steps: &mut Steps<L>) -> Span {
        self.store.edge_history(e).whole()
    }
}
