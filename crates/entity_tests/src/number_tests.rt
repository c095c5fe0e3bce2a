//! Tests by the numbers of layers and nodes.
ghost use Rattle.std.specs.Prelude.{false};
ghost use Rattle.graph_model.specs.Keep.{in_layers};
ghost use Rattle.view_trait.specs.Numbered.{chooses, layers_numbered, nodes_numbered};
ghost use Rattle.entity_tests.specs.Tests.{never_asked};

use crate::entity_test::EntityTest;
use graph_store::{EdgeId, NodeId, Store};
use time_history::Span;
use view_trait::{NodeList, has_layer, has_node, has_nodes, store_facts};

/// All nodes, and the edges in the layers whose bits are in `kept`.
#[derive(Clone, Copy)]
pub struct LayerTest {
    pub kept: u64,
}

impl EntityTest for LayerTest {
    ghost passes = { λ test c w. in_layers (layers_numbered c test.kept) };

    ghost by_ends = { λ test. false };

    ghost ends = { λ test c w edge h. never_asked h };

    fn asks_ends(&self) -> bool {
        false
    }

    fn layers(&self) -> u64 {
        self.kept
    }

    fn passes_node(&self, _store: &Store, _n: NodeId, _span: Span) -> bool {
        true
    }

    fn passes_edge(&self, store: &Store, e: EdgeId, _span: Span) -> bool {
        store_facts(store);
        let (_src, _dst, layer) = store.edge_parts(e);
        has_layer(self.kept, layer)
    }
}

/// The listed nodes and the edges between them, where `keeps` says so, or else the other nodes and
/// the edges between those.
#[derive(Clone, Copy)]
pub struct NodeTest<'k> {
    pub nodes: &'k NodeList,
    pub keeps: bool,
}

impl EntityTest for NodeTest<'_> {
    ghost passes = { λ test c w. chooses test.keeps (nodes_numbered c test.nodes.now) };

    ghost by_ends = { λ test. false };

    ghost ends = { λ test c w edge h. never_asked h };

    fn asks_ends(&self) -> bool {
        false
    }

    fn layers(&self) -> u64 {
        u64::MAX
    }

    fn passes_node(&self, store: &Store, n: NodeId, _span: Span) -> bool {
        store_facts(store);
        has_node(self.nodes, self.keeps, n)
    }

    fn passes_edge(&self, store: &Store, e: EdgeId, _span: Span) -> bool {
        store_facts(store);
        let (src, dst, _layer) = store.edge_parts(e);
        has_nodes(self.nodes, self.keeps, src, dst)
    }
}
