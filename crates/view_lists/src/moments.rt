//! When the events of a node or an edge happen, and of what kinds they are.
ghost use Rattle.std.specs.Prelude.{◌≡◌, ◌<◌, Some, length, map, slice_get, IfOk};
ghost use Rattle.graph_model.specs.World.{events_of};
ghost use Rattle.time_history.specs.Spans.{IsSpan};
ghost use Rattle.time_history.specs.Updates.{update_at};
ghost use Rattle.view_trait.specs.Meaning.{node_at, edge_at};
ghost use Rattle.view_lists.specs.Moments.{moment_of_event, moment_told, carried_moments};
ghost use Rattle.view_lists.specs.Moments.{moments_told};

use graph_model::Memory;
use graph_store::{EdgeId, NodeId};
use std::alloc::Global;
use std::marker::Model;
use std::sync::ledger::Ledger;
use time_column::Steps;
use time_history::{History, Kind, Span};
use view_trait::View;

/// An event of a node or an edge: its time, and whether it updates the node, or adds or deletes the
/// edge.
#[derive(Clone, Copy, Drop)]
pub struct Moment {
    pub time: i64,
    pub kind: Kind,
}

/// The events of a node or an edge, in order. A contract sees them as a list.
#[derive(Drop)]
pub struct Moments {
    items: Vec<Moment>,
}

impl Model for Moments {
    ghost use Rattle.std.specs.Prelude.{List};
    ghost use Rattle.view_lists.specs.declared.moments.Moment.{Moment};

    ghost Value = { List Moment };

    ghost view = { λ m. m.items.items };
}

impl Moments {
    /// How many events there are.
    pub fn len(&self) -> usize
        ensures { result ≡ length self.now }
    {
        self.items.len()
    }

    /// The event at a place, counted from 0.
    pub fn item(&self, i: usize) -> &Moment
        requires { i < length self.now }
        ensures { slice_get self.now i ≡ Some result.now }
    {
        &self.items[i]
    }
}

/// The carried event of a span, if it has one, at the moment `lo`. There is room for the others.
fn begin_moments(
    alloc: Global,
    history: &History,
    span: Span,
    lo: i64,
) -> Result<Vec<Moment>, Memory>
    requires { IsSpan history.now.updates span }
    ensures { IfOk result (λ moments. moments.items ≡ carried_moments history.now.updates span lo) }
{
    let mut moments = Vec::with_capacity(
        alloc,
        (span.to - span.from) as usize + span.carried as usize,
    )?;
    if span.carried {
        let kind = history.kind_at(span.from - 1);
        moments.push(Moment { time: lo, kind })?;
    }
    Ok(moments)
}

/// The update at a place of a history.
fn moment_at<L: Ledger>(history: &History, i: u32, steps: &mut Steps<L>) -> Moment
    requires { i < length history.now.updates }
    ensures { result ≡ moment_told (update_at history.now.updates i) }
{
    let time = history.time_at(i, steps);
    let kind = history.kind_at(i);
    Moment { time, kind }
}

/// The events of a span of a history, where what is carried is carried to the moment `lo`.
fn moments_of<L: Ledger>(
    alloc: Global,
    history: &History,
    span: Span,
    lo: i64,
    steps: &mut Steps<L>,
) -> Result<Moments, Memory>
    requires { IsSpan history.now.updates span }
    ensures { IfOk result (λ moments. moments ≡ moments_told history.now.updates span lo) }
{
    let mut items = begin_moments(alloc, history, span, lo)?;
    for i in span.from..span.to {
        items.push(moment_at(history, i, steps))?;
    }
    Ok(Moments { items })
}

/// The times and kinds of the events that a view shows of a node, in order. What a window carries
/// over its beginning stands there, at that moment.
pub fn node_moments<V: View, L: Ledger>(
    alloc: Global,
    view: &V,
    n: NodeId,
    steps: &mut Steps<L>,
) -> Result<Moments, Memory>
    requires { n.0 < length (V.contents view.now).nodes }
    ensures { IfOk result (λ moments.
        moments
        ≡ map moment_of_event (events_of (V.world view.now) (node_at (V.contents view.now) n.0))) }
{
    let history = view.store().node_history(n);
    let span = view.node_span(n, steps);
    moments_of(alloc, history, span, view.bounds().lo(), steps)
}

/// The times and kinds of the events that a view shows of an edge, in order. What a window carries
/// over its beginning stands there, at that moment.
pub fn edge_moments<V: View, L: Ledger>(
    alloc: Global,
    view: &V,
    e: EdgeId,
    steps: &mut Steps<L>,
) -> Result<Moments, Memory>
    requires { e.0 < length (V.contents view.now).edges }
    ensures { IfOk result (λ moments.
        moments
        ≡ map moment_of_event (events_of (V.world view.now) (edge_at (V.contents view.now) e.0))) }
{
    let history = view.store().edge_history(e);
    let span = view.edge_span(e, steps);
    moments_of(alloc, history, span, view.bounds().lo(), steps)
}
