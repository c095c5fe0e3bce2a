//! What ready views keep.
ghost use Rattle.entity_tests.specs.Ready.{by_ends, keeps_entity, kept_by_ends};

use crate::entity_test::EntityTest;
use crate::number_tests::{LayerTest, NodeTest};
use crate::valid_test::ValidTest;
use crate::value_tests::{EdgeValueTest, NodeValueTest};
use graph_store::{EdgeId, NodeId, Store};
use time_history::Span;
use view_trait::ReadyOp;

impl EntityTest for ReadyOp {
    ghost passes = { λ op c w. keeps_entity c w op };

    ghost by_ends = { by_ends };

    ghost ends = { kept_by_ends };

    fn asks_ends(&self) -> bool {
        matches!(self, ReadyOp::NodesWhere(_, _, _))
    }

    fn layers(&self) -> u64 {
        match self {
            ReadyOp::Layers(bits) => *bits,
            _ => u64::MAX,
        }
    }

    fn passes_node(&self, store: &Store, n: NodeId, span: Span) -> bool {
        match self {
            ReadyOp::Subgraph(nodes) => NodeTest { nodes, keeps: true }.passes_node(store, n, span),
            ReadyOp::ExcludeNodes(nodes) => {
                NodeTest {
                    nodes,
                    keeps: false,
                }
                .passes_node(store, n, span)
            }
            ReadyOp::NodesWhere(key, cmp, value) => {
                let (key, cmp) = (*key, *cmp);
                NodeValueTest { key, cmp, value }.passes_node(store, n, span)
            }
            _ => true,
        }
    }

    fn passes_edge(&self, store: &Store, e: EdgeId, span: Span) -> bool {
        match self {
            ReadyOp::Layers(bits) => LayerTest { kept: *bits }.passes_edge(store, e, span),
            ReadyOp::Subgraph(nodes) => NodeTest { nodes, keeps: true }.passes_edge(store, e, span),
            ReadyOp::ExcludeNodes(nodes) => {
                NodeTest {
                    nodes,
                    keeps: false,
                }
                .passes_edge(store, e, span)
            }
            ReadyOp::EdgesWhere(key, cmp, value) => {
                let (key, cmp) = (*key, *cmp);
                EdgeValueTest { key, cmp, value }.passes_edge(store, e, span)
            }
            ReadyOp::Valid => ValidTest.passes_edge(store, e, span),
            ReadyOp::Window(_, _) | ReadyOp::NodesWhere(_, _, _) => true,
        }
    }
}
