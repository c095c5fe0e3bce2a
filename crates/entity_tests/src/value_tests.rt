//! Tests by values.
ghost use Rattle.std.specs.Prelude.{false, true, refl};
ghost use Rattle.view_trait.specs.Filtered.{edge_passes, node_passes};
ghost use Rattle.entity_tests.specs.Tests.{never_asked};

use crate::entity_test::EntityTest;
use crate::values::key_compares;
use graph_model::{Cmp, Value};
use graph_store::{EdgeId, NodeId, Store};
use time_history::Span;

/// All nodes, and the edges whose value of a key compares true. A key is the number of a key of
/// edges. Where there is no number, or no key has it, no edge passes.
#[derive(Clone, Copy)]
pub struct EdgeValueTest<'k> {
    pub key: Option<u32>,
    pub cmp: Cmp,
    pub value: &'k Value,
}

impl EntityTest for EdgeValueTest<'_> {
    ghost passes = { λ test c w. edge_passes c w test.key test.cmp test.value.now };

    ghost by_ends = { λ test. false };

    ghost ends = { λ test c w edge h. never_asked h };

    fn asks_ends(&self) -> bool {
        false
    }

    fn layers(&self) -> u64 {
        u64::MAX
    }

    fn passes_node(&self, _store: &Store, _n: NodeId, _span: Span) -> bool {
        true
    }

    fn passes_edge(&self, store: &Store, e: EdgeId, span: Span) -> bool {
        let history = store.edge_history(e);
        let keys = store.edge_keys();
        key_compares(history, span, keys, self.key, self.cmp, self.value)
    }
}

/// The nodes whose value of a key compares true, and the edges between them. A key is the number of
/// a key of nodes. Where there is no number, or no key has it, nothing passes.
#[derive(Clone, Copy)]
pub struct NodeValueTest<'k> {
    pub key: Option<u32>,
    pub cmp: Cmp,
    pub value: &'k Value,
}

impl EntityTest for NodeValueTest<'_> {
    ghost passes = { λ test c w. node_passes c w test.key test.cmp test.value.now };

    ghost by_ends = { λ test. true };

    ghost ends = { λ test c w edge h. refl };

    fn asks_ends(&self) -> bool {
        true
    }

    fn layers(&self) -> u64 {
        u64::MAX
    }

    fn passes_node(&self, store: &Store, n: NodeId, span: Span) -> bool {
        let history = store.node_history(n);
        let keys = store.node_keys();
        key_compares(history, span, keys, self.key, self.cmp, self.value)
    }

    fn passes_edge(&self, _store: &Store, _e: EdgeId, _span: Span) -> bool {
        false
    }
}
