//! The trait of views.
ghost use Rattle.std.specs.Prelude.{◌≡◌, ◌<◌, length};
ghost use Rattle.graph_model.specs.World.{World, events_of};
ghost use Rattle.graph_model.specs.Searches.{Searches};
ghost use Rattle.graph_store.specs.Contents.{Contents, base_of};
ghost use Rattle.view_trait.specs.Meaning.{IsShown, Shows, HasLayers, StepsWithin};
ghost use Rattle.view_trait.specs.Meaning.{node_at, edge_at};

use graph_model::Bounds;
use graph_store::{EdgeId, NodeId, Store};
use std::sync::ledger::Ledger;
use time_column::Steps;
use time_history::Span;

/// A graph as it is seen: a world, one entity at a time. Its methods take no memory.
pub trait View {
    /// What the store contains.
    ghost contents: { Self → Contents };

    /// What is shown of it.
    ghost world: { Self → World };

    /// How many searches it takes to find a node's part of its history, and an edge's.
    ghost searches: { Self → Searches };

    /// The store whose entities are shown.
    fn store(&self) -> &Store
        ensures { result.now ≡ contents self.now };

    /// The bounds of the world.
    fn bounds(&self) -> Bounds
        ensures { result ≡ (world self.now).bounds };

    /// The layers, as bits, outside which no edge has an event.
    fn layers_kept(&self) -> u64
        ensures { HasLayers (contents self.now) (world self.now) result };

    /// The part of a node's history that stands for its events in the world.
    fn node_span<L: Ledger>(&self, n: NodeId, steps: &mut Steps<L>) -> Span
        requires { n.0 < length (contents self.now).nodes }
        ensures shows { let c = contents self.now in
            Shows c (world self.now) (node_at c n.0) result }
        ensures cost { let c = contents self.now in
            let among = length (events_of (base_of c) (node_at c n.0)) in
            StepsWithin steps.old steps.new (searches self.now).nodes among };

    /// The part of an edge's history that stands for its events in the world.
    fn edge_span<L: Ledger>(&self, e: EdgeId, steps: &mut Steps<L>) -> Span
        requires { e.0 < length (contents self.now).edges }
        ensures shows { let c = contents self.now in
            Shows c (world self.now) (edge_at c e.0) result }
        ensures cost { let among = length (contents self.now).accepted in
            StepsWithin steps.old steps.new (searches self.now).edges among };

    /// The world is lawful, has the store's model and types, and is over the store's entities.
    ghost shown: { (view : Self) → IsShown (contents view) (world view) };
}

impl<V: View> View for &V {
    ghost contents = { λ view. V.contents view.now };

    ghost world = { λ view. V.world view.now };

    ghost searches = { λ view. V.searches view.now };

    ghost shown = { λ view. V.shown view.now };

    fn store(&self) -> &Store {
        (**self).store()
    }

    fn bounds(&self) -> Bounds {
        (**self).bounds()
    }

    fn layers_kept(&self) -> u64 {
        (**self).layers_kept()
    }

    fn node_span<L: Ledger>(&self, n: NodeId, steps: &mut Steps<L>) -> Span {
        (**self).node_span(n, steps)
    }

    fn edge_span<L: Ledger>(&self, e: EdgeId, steps: &mut Steps<L>) -> Span {
        (**self).edge_span(e, steps)
    }
}
