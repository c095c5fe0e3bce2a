//! The view of some layers.
ghost use Rattle.std.specs.Prelude.{◌≡◌};
ghost use Rattle.graph_model.specs.World.{World};
ghost use Rattle.graph_model.specs.Keep.{keep, outside_layers};
ghost use Rattle.graph_store.specs.Contents.{Contents};
ghost use Rattle.view_trait.specs.Meaning.{IsShown};
ghost use Rattle.view_trait.specs.Numbered.{layers_numbered, layer_world};

use entity_tests::{KeepView, LayerTest};

/// What its inner view shows of nodes, and of edges in the layers whose bits are kept.
pub type LayerView<V> = KeepView<V, LayerTest>;

/// The layers of these bits.
pub fn layers<V>(inner: V, kept: u64) -> LayerView<V>
    ensures inner { result.inner ≡ inner }
    ensures kept { result.test.kept ≡ kept }
{
    KeepView {
        inner,
        test: LayerTest { kept },
    }
}

/// The layers of the other bits.
pub fn exclude_layers<V>(inner: V, dropped: u64) -> LayerView<V>
    ensures inner { result.inner ≡ inner }
    ensures world { (c : Contents) (w : World) → IsShown c w → layer_world c result.test.kept w ≡ keep (outside_layers (layers_numbered c dropped)) w }
{
    KeepView {
        inner,
        test: LayerTest { kept: !dropped },
    }
}
