//! The view of the moments from one up to another.
ghost use Rattle.std.specs.Prelude.{◌≡◌, ◌≤ℤ◌, ◌<ℤ◌, ◌+ℤ◌, pos};
ghost use Rattle.graph_model.specs.Interval.{earliest, latest};

use crate::spans::window_span;
use graph_model::Bounds;
use graph_store::{EdgeId, NodeId, Store};
use std::sync::ledger::Ledger;
use time_column::Steps;
use time_history::Span;
use view_trait::View;

/// What its inner view shows of the moments from one up to another.
#[derive(Drop)]
pub struct WindowView<V> {
    pub inner: V,
    pub from: i64,
    pub to: i64,
    ghost from_low: { earliest ≤ℤ from },
    ghost from_high: { from ≤ℤ latest },
    ghost to_low: { earliest ≤ℤ to },
    ghost to_high: { to ≤ℤ latest },
}

/// The window from `from` up to but not including `to`.
pub fn window<V>(inner: V, from: i64, to: i64) -> WindowView<V>
    requires from_low { earliest ≤ℤ from }
    requires from_high { from ≤ℤ latest }
    requires to_low { earliest ≤ℤ to }
    requires to_high { to ≤ℤ latest }
    ensures inner { result.inner ≡ inner }
    ensures from { result.from ≡ from }
    ensures to { result.to ≡ to }
{
    WindowView { inner, from, to }
}

/// The window of one moment.
pub fn at<V>(inner: V, t: i64) -> WindowView<V>
    requires low { earliest ≤ℤ t }
    requires high { t <ℤ latest }
    ensures inner { result.inner ≡ inner }
    ensures from { result.from ≡ t }
    ensures to { result.to ≡ t +ℤ pos 1 }
{
    window(inner, t, t + 1)
}

/// The window of the moments before one.
pub fn before<V>(inner: V, t: i64) -> WindowView<V>
    requires low { earliest ≤ℤ t }
    requires high { t ≤ℤ latest }
    ensures inner { result.inner ≡ inner }
    ensures from { result.from ≡ earliest }
    ensures to { result.to ≡ t }
{
    window(inner, Bounds::EARLIEST, t)
}

/// The window of the moments after one.
pub fn after<V>(inner: V, t: i64) -> WindowView<V>
    requires low { earliest ≤ℤ t }
    requires high { t <ℤ latest }
    ensures inner { result.inner ≡ inner }
    ensures from { result.from ≡ t +ℤ pos 1 }
    ensures to { result.to ≡ latest }
{
    window(inner, t + 1, Bounds::LATEST)
}

impl<V: View> View for WindowView<V> {
    ghost use Rattle.graph_model.specs.Searches.{searches_with};
    ghost use Rattle.graph_model.specs.Searches.ViewKind.{IsWindow};
    ghost use Rattle.graph_model.specs.Window.{window as shown_window};
    ghost use Rattle.view_trait.proofs.Shown.{IsShown-window};

    ghost contents = { λ view. V.contents view.inner };

    ghost world = { λ view. shown_window (V.world view.inner) view.from view.to };

    ghost searches = { λ view. searches_with (V.searches view.inner) IsWindow };

    ghost shown = { λ view. IsShown-window (V.contents view.inner) (V.world view.inner) view.from view.to (V.shown view.inner) };

    fn store(&self) -> &Store {
        self.inner.store()
    }

    fn bounds(&self) -> Bounds {
        self.inner.bounds().cut(self.from, self.to)
    }

    fn layers_kept(&self) -> u64 {
        self.inner.layers_kept()
    }

    fn node_span<L: Ledger>(&self, n: NodeId, steps: &mut Steps<L>) -> Span {
        let bounds = self.inner.bounds();
        let store = self.inner.store();
        let history = store.node_history(n);
        let span = self.inner.node_span(n, steps);
        window_span(
            history,
            span,
            bounds,
            store.model(),
            self.from,
            self.to,
            steps,
        )
    }

    fn edge_span<L: Ledger>(&self, e: EdgeId, steps: &mut Steps<L>) -> Span {
        let bounds = self.inner.bounds();
        let store = self.inner.store();
        let history = store.edge_history(e);
        let span = self.inner.edge_span(e, steps);
        window_span(
            history,
            span,
            bounds,
            store.model(),
            self.from,
            self.to,
            steps,
        )
    }
}
