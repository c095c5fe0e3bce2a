//! How many events a view shows, and its first and last time.
ghost use Rattle.std.specs.Prelude.{◌≡◌, ℕ, ◌≤◌, ◌<◌, ◌+◌, ◌-◌, ◌*◌, ◌^◌, List, [], length};
ghost use Rattle.std.specs.Prelude.{if◌then◌else◌};
ghost use Rattle.graph_model.specs.Limits.{most_events};
ghost use Rattle.graph_model.specs.Searches.{digits};
ghost use Rattle.graph_model.specs.declared.events.Entity.{Entity};
ghost use Rattle.time_history.specs.Spans.{IsSpan, spelled};
ghost use Rattle.time_history.specs.Telling.{Fits};
ghost use Rattle.view_trait.specs.Coverage.{Covers, edge_count_on, node_count_on};
ghost use Rattle.view_trait.specs.Extent.{extent_of, time_of_first, time_of_last, earlier_of};
ghost use Rattle.view_trait.specs.Extent.{later_of, events_of_edge, events_of_node, span_searches};

use crate::facts::roster_facts;
use crate::rosters::Roster;
use crate::view::View;
use graph_store::{EdgeId, NodeId};
use std::sync::ledger::Ledger;
use time_column::Steps;
use time_history::{History, Span};

/// How many events a world has, and the first and last time of one. A world without events has no
/// first and no last time.
#[derive(Clone, Copy, Debug, PartialEq, Eq, Drop)]
pub struct WorldExtent {
    pub events: u64,
    pub first: Option<i64>,
    pub last: Option<i64>,
}

/// The earlier of two times, where both are there.
fn earlier(a: Option<i64>, b: Option<i64>) -> Option<i64>
    ensures { result ≡ earlier_of a b }
{
    match (a, b) {
        (Some(a), Some(b)) => Some(a.min(b)),
        (None, b) => b,
        (a, None) => a,
    }
}

/// The later of two times, where both are there.
fn later(a: Option<i64>, b: Option<i64>) -> Option<i64>
    ensures { result ≡ later_of a b }
{
    match (a, b) {
        (Some(a), Some(b)) => Some(a.max(b)),
        (None, b) => b,
        (a, None) => a,
    }
}

impl WorldExtent {
    /// No event.
    fn new() -> WorldExtent
        ensures { result ≡ extent_of [] }
    {
        WorldExtent {
            events: 0,
            first: None,
            last: None,
        }
    }

    /// The events of both.
    fn with(self, other: WorldExtent) -> WorldExtent
        requires { self.events + other.events < 2 ^ 64 }
        ensures events { result.events ≡ self.events + other.events }
        ensures first { result.first ≡ earlier_of self.first other.first }
        ensures last { result.last ≡ later_of self.last other.last }
    {
        WorldExtent {
            events: self.events + other.events,
            first: earlier(self.first, other.first),
            last: later(self.last, other.last),
        }
    }
}

/// The time of the first event of a span, of which one that is carried is at `lo`.
fn first_of<L: Ledger>(history: &History, span: Span, lo: i64, steps: &mut Steps<L>) -> Option<i64>
    requires { IsSpan history.now.updates span }
    ensures time { (x : Entity) (names : ℕ → List ℕ) → Fits x history.now.updates
        → result ≡ time_of_first (spelled x names history.now.updates span lo) }
    ensures cost { steps.new ≤ steps.old + 1 }
{
    if span.carried {
        Some(lo)
    } else if span.from < span.to {
        Some(history.time_at(span.from, steps))
    } else {
        None
    }
}

/// The time of the last event of a span, of which one that is carried is at `lo`.
fn last_of<L: Ledger>(history: &History, span: Span, lo: i64, steps: &mut Steps<L>) -> Option<i64>
    requires { IsSpan history.now.updates span }
    ensures time { (x : Entity) (names : ℕ → List ℕ) → Fits x history.now.updates
        → result ≡ time_of_last (spelled x names history.now.updates span lo) }
    ensures cost { steps.new ≤ steps.old + 1 }
{
    if span.from < span.to {
        Some(history.time_at(span.to - 1, steps))
    } else if span.carried {
        Some(lo)
    } else {
        None
    }
}

/// How many events a span has.
fn count_of(span: Span) -> u64
    requires { span.from ≤ span.to }
    ensures { result ≡ span.to - span.from + (if span.carried then 1 else 0) }
{
    (span.to - span.from) as u64 + span.carried as u64
}

/// The extent of the events of a span, of which one that is carried is at `lo`.
fn span_extent<L: Ledger>(
    history: &History,
    span: Span,
    lo: i64,
    steps: &mut Steps<L>,
) -> WorldExtent
    requires { IsSpan history.now.updates span }
    ensures extent { (x : Entity) (names : ℕ → List ℕ) → Fits x history.now.updates
        → result ≡ extent_of (spelled x names history.now.updates span lo) }
    ensures few { result.events ≤ length history.now.updates }
    ensures cost { steps.new ≤ steps.old + 2 }
{
    WorldExtent {
        events: count_of(span),
        first: first_of(history, span, lo, steps),
        last: last_of(history, span, lo, steps),
    }
}

/// The extent of a node's own events. A number that the store does not have stands for none.
fn node_extent<V: View, L: Ledger>(view: &V, n: NodeId, steps: &mut Steps<L>) -> WorldExtent
    ensures extent { let c = V.contents view.now in
        result ≡ extent_of (events_of_node c (V.world view.now) n.0) }
    ensures few { result.events ≤ most_events }
    ensures cost { let among = length (V.contents view.now).accepted in
        let searches = (V.searches view.now).nodes in
        steps.new ≤ steps.old + searches * digits among + 2 }
{
    let store = view.store();
    if n.0 >= store.nodes() {
        return WorldExtent::new();
    }
    // A call for its fact: a store has no more events than it may have.
    let _few = store.events();
    let span = view.node_span(n, steps);
    span_extent(store.node_history(n), span, view.bounds().lo(), steps)
}

/// The extent of an edge's events. A number that the store does not have stands for none.
fn edge_extent<V: View, L: Ledger>(view: &V, e: EdgeId, steps: &mut Steps<L>) -> WorldExtent
    ensures extent { let c = V.contents view.now in
        result ≡ extent_of (events_of_edge c (V.world view.now) e.0) }
    ensures few { result.events ≤ most_events }
    ensures cost { let among = length (V.contents view.now).accepted in
        let searches = (V.searches view.now).edges in
        steps.new ≤ steps.old + searches * digits among + 2 }
{
    let store = view.store();
    if e.0 >= store.edges() {
        return WorldExtent::new();
    }
    // A call for its fact: a store has no more events than it may have.
    let _few = store.events();
    let span = view.edge_span(e, steps);
    span_extent(store.edge_history(e), span, view.bounds().lo(), steps)
}

/// How many events the world of a view has, and the first and last time of one. It is the same for
/// every roster that covers the view. The span of each node and each edge on the roster is asked
/// once, and at most two times are read in each. It takes no memory.
pub fn extent<V: View, L: Ledger>(view: &V, roster: Roster<'_>, steps: &mut Steps<L>) -> WorldExtent
    requires covers { Covers (V.contents view.now) (V.world view.now) roster }
    ensures extent { result ≡ extent_of (V.world view.now).events }
    ensures cost { let c = V.contents view.now in
        let searches = span_searches c roster.entry (V.searches view.now) in
        let readings = 2 * (node_count_on c roster.entry + edge_count_on c roster.entry) in
        steps.new ≤ steps.old + searches * digits (length c.accepted) + readings }
{
    let store = view.store();
    roster_facts(store, roster);
    let mut all = WorldExtent::new();
    for i in 0..roster.node_count_on(store) {
        all = all.with(node_extent(view, roster.node(store, i), steps));
    }
    for j in 0..roster.edge_count_on(store) {
        all = all.with(edge_extent(view, roster.edge(store, j), steps));
    }
    all
}
