//! The views of edges and of nodes whose value compares true.
ghost use Rattle.std.specs.Prelude.{◌≡◌};

use entity_tests::{EdgeValueTest, KeepView, NodeValueTest};
use graph_model::{Cmp, Value};

/// What its inner view shows of nodes, and of edges whose value of a key compares true. A key is
/// the number of a key of edges. Where there is no number, or no key has it, no edge is shown.
pub type EdgeFilter<'k, V> = KeepView<V, EdgeValueTest<'k>>;

/// What its inner view shows of nodes whose value of a key compares true, and of the edges between
/// them. A key is the number of a key of nodes. Where there is no number, or no key has it, nothing
/// is shown.
pub type NodeFilter<'k, V> = KeepView<V, NodeValueTest<'k>>;

/// The edges whose value of this key compares true.
pub fn edges_where<'k, V>(
    inner: V,
    key: Option<u32>,
    cmp: Cmp,
    value: &'k Value,
) -> EdgeFilter<'k, V>
    ensures inner { result.inner ≡ inner }
    ensures key { result.test.key ≡ key }
    ensures cmp { result.test.cmp ≡ cmp }
    ensures value { result.test.value.now ≡ value.now }
{
    KeepView {
        inner,
        test: EdgeValueTest { key, cmp, value },
    }
}

/// The nodes whose value of this key compares true, and the edges between them.
pub fn nodes_where<'k, V>(
    inner: V,
    key: Option<u32>,
    cmp: Cmp,
    value: &'k Value,
) -> NodeFilter<'k, V>
    ensures inner { result.inner ≡ inner }
    ensures key { result.test.key ≡ key }
    ensures cmp { result.test.cmp ≡ cmp }
    ensures value { result.test.value.now ≡ value.now }
{
    KeepView {
        inner,
        test: NodeValueTest { key, cmp, value },
    }
}
