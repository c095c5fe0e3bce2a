//! The view of some nodes, and of the edges between them.
ghost use Rattle.std.specs.Prelude.{◌≡◌, true, false};
ghost use Rattle.graph_model.specs.World.{World};
ghost use Rattle.graph_model.specs.Keep.{keep, apart_from_nodes};
ghost use Rattle.graph_store.specs.Contents.{Contents};
ghost use Rattle.view_trait.specs.Numbered.{node_world, nodes_numbered};

use entity_tests::{KeepView, NodeTest};
use view_trait::NodeList;

/// What its inner view shows of the listed nodes and the edges between them, where its test keeps
/// these, or else of the other nodes and the edges between those.
pub type NodeView<'k, V> = KeepView<V, NodeTest<'k>>;

/// The nodes of these numbers, and the edges between them.
pub fn subgraph<'k, V>(inner: V, kept: &'k NodeList) -> NodeView<'k, V>
    ensures inner { result.inner ≡ inner }
    ensures nodes { result.test.nodes.now ≡ kept.now }
    ensures keeps { result.test.keeps ≡ true }
{
    KeepView {
        inner,
        test: NodeTest {
            nodes: kept,
            keeps: true,
        },
    }
}

/// The other nodes, and the edges between them.
pub fn exclude_nodes<'k, V>(inner: V, dropped: &'k NodeList) -> NodeView<'k, V>
    ensures inner { result.inner ≡ inner }
    ensures nodes { result.test.nodes.now ≡ dropped.now }
    ensures keeps { result.test.keeps ≡ false }
    ensures world { (c : Contents) (w : World) → node_world c result.test.keeps result.test.nodes.now w ≡ keep (apart_from_nodes (nodes_numbered c dropped.now)) w }
{
    KeepView {
        inner,
        test: NodeTest {
            nodes: dropped,
            keeps: false,
        },
    }
}
