//! Windows and views of layers, which come to one window and one set of layers.
ghost use Rattle.std.specs.Prelude.{◌≡◌, is_some};
ghost use Rattle.std.specs.Option.{ForSome};
ghost use Rattle.graph_model.specs.World.{World};
ghost use Rattle.graph_store.specs.Contents.{Contents, base_of};
ghost use Rattle.view_trait.specs.Meaning.{IsShown};
ghost use Rattle.view_trait.specs.Ready.{ready_view};
ghost use Rattle.fused_view.specs.Lanes.{is_lane, lane_world};

use graph_store::Store;
use view_trait::{ReadyOp, store_facts};

/// The moments from the first up to but not including the second, and the layers of these bits.
#[derive(Clone, Copy, Debug, PartialEq, Eq, Drop)]
pub struct Lanes {
    pub from: i64,
    pub to: i64,
    pub layers: u64,
}

impl Lanes {
    // All moments of a store, and all layers.
    pub(crate) fn whole(store: &Store) -> Lanes
        ensures { lane_world store.now result (base_of store.now) ≡ base_of store.now }
    {
        store_facts(store);
        let bounds = store.bounds();
        Lanes {
            from: bounds.lo(),
            to: bounds.hi(),
            layers: u64::MAX,
        }
    }

    // With one more view, where it is a window or a view of layers.
    pub(crate) fn with(self, op: &ReadyOp) -> Option<Lanes>
        ensures some { is_some result ≡ is_lane op.now }
        ensures world { ForSome result (λ lanes. (c : Contents) (w : World) → IsShown c w
            → lane_world c lanes w ≡ ready_view c (lane_world c self w) op.now) }
    {
        match op {
            ReadyOp::Window(from, to) => Some(Lanes {
                from: self.from.max(*from),
                to: self.to.min(*to),
                layers: self.layers,
            }),
            ReadyOp::Layers(bits) => Some(Lanes {
                layers: self.layers & *bits,
                ..self
            }),
            _ => None,
        }
    }
}
