//! The view of edges whose last event is an addition.
ghost use Rattle.std.specs.Prelude.{◌≡◌};

use entity_tests::{KeepView, ValidTest};

/// What its inner view shows of nodes, and of edges whose last event is an addition.
pub type ValidView<V> = KeepView<V, ValidTest>;

/// The edges whose last event is an addition.
pub fn valid<V>(inner: V) -> ValidView<V>
    ensures { result.inner ≡ inner }
{
    KeepView {
        inner,
        test: ValidTest,
    }
}
