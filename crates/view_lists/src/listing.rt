//! The events of a view in canonical order, as places among the events of its nodes and edges.
ghost use Rattle.std.specs.Prelude.{◌≡◌, ℕ, ◌<◌, ◌≤◌, ◌+◌, ◌-◌, ◌*◌, ◌^◌, [], ◌∷◌, ◌++◌, List, length, map};
ghost use Rattle.std.specs.Prelude.{IfOk, OnOk, if◌then◌else◌};
ghost use Rattle.std.specs.List.{filter, All};
ghost use Rattle.graph_model.specs.declared.events.Entity.{Entity};
ghost use Rattle.graph_model.specs.Entity.{entity_cmp};
ghost use Rattle.graph_model.specs.Searches.{digits};
ghost use Rattle.graph_model.specs.World.{events_of};
ghost use Rattle.time_history.specs.Spans.{IsSpan, spelled};
ghost use Rattle.time_history.specs.Telling.{Fits};
ghost use Rattle.time_history.specs.Updates.{update_at};
ghost use Rattle.view_trait.specs.Coverage.{Covers, edges_among, nodes_among};
ghost use Rattle.view_trait.specs.Extent.{span_searches};
ghost use Rattle.view_trait.specs.Meaning.{StepsWithin};
ghost use Rattle.view_lists.specs.Listing.{entity_named, IsShownEntity, entities_of, appears};
ghost use Rattle.view_lists.specs.Listing.{AreFound, AreShown, AreListed, place_cmp, placed_from};
ghost use Rattle.view_lists.specs.Listing.{all_placed};

use crate::borrowed::history_of;
use graph_model::{Memory, Name};
use graph_store::{EdgeId, NodeId};
use std::alloc::Global;
use std::cmp::Ordering;
use std::sync::ledger::Ledger;
use time_column::Steps;
use time_history::{History, Span};
use view_trait::{Roster, View, roster_facts};

/// A node or an edge, by its number in a store and by the names that the store has for it: of an
/// edge its source, its destination and its layer.
#[derive(Clone, Copy)]
pub enum Subject<'s> {
    Node(NodeId, &'s Name),
    Edge(EdgeId, &'s Name, &'s Name, &'s Name),
}

/// A node or an edge that has events in a view, and the part of its history that stands for them.
#[derive(Clone, Copy)]
pub struct ShownEntity<'s> {
    pub subject: Subject<'s>,
    pub span: Span,
}

/// Where an event stands: its time, the place of its node or edge among those that are shown, and
/// its place among the events of that node or edge, where what is carried comes first.
#[derive(Clone, Copy, Drop)]
pub struct EventPlace {
    pub time: i64,
    pub shown: u32,
    pub place: u32,
}

/// The nodes and edges that have events in a view, in order, and the places of all events in
/// canonical order.
#[derive(Drop)]
pub struct ShownEvents<'s> {
    pub shown: Vec<ShownEntity<'s>>,
    pub events: Vec<EventPlace>,
}

impl Subject<'_> {
    /// How two nodes or edges compare: nodes before edges, and then by their names.
    fn compare(&self, other: &Subject<'_>) -> Ordering
        ensures { result ≡ entity_cmp (entity_named self.now) (entity_named other.now) }
    {
        match (self, other) {
            (Subject::Node(_, a), Subject::Node(_, b)) => a.cmp(b),
            (Subject::Node(..), Subject::Edge(..)) => Ordering::Less,
            (Subject::Edge(..), Subject::Node(..)) => Ordering::Greater,
            (Subject::Edge(_, src, dst, layer), Subject::Edge(_, from, to, within)) => {
                let sources = src.cmp(from);
                if sources.is_ne() {
                    return sources;
                }
                let destinations = dst.cmp(to);
                if destinations.is_ne() {
                    return destinations;
                }
                layer.cmp(within)
            }
        }
    }
}

impl EventPlace {
    /// How two places compare: by time, then by the node or edge, and then by the place among its
    /// events.
    fn compare(&self, other: &EventPlace) -> Ordering
        ensures { result ≡ place_cmp self.now other.now }
    {
        let times = self.time.cmp(&other.time);
        if times.is_ne() {
            return times;
        }
        let shown = self.shown.cmp(&other.shown);
        if shown.is_ne() {
            return shown;
        }
        self.place.cmp(&other.place)
    }
}

/// Adds a node that the store has and that has an event, with the part of its history that is
/// shown.
fn push_node<'s, V: View, L: Ledger>(
    shown: &mut Vec<ShownEntity<'s>>,
    view: &'s V,
    node: NodeId,
    steps: &mut Steps<L>,
) -> Result<(), Memory>
    ensures entities { OnOk result (entities_of shown.new.items
        ≡ entities_of shown.old.items
        ++ filter (appears (V.world view.now))
        (nodes_among (V.contents view.now) (node.0 ∷ []))) }
    ensures parts { OnOk result
        (All (IsShownEntity (V.contents view.now) (V.world view.now)) shown.old.items
        → All (IsShownEntity (V.contents view.now) (V.world view.now)) shown.new.items) }
    ensures cost { StepsWithin steps.old steps.new (V.searches view.now).nodes
        (length (V.contents view.now).accepted) }
{
    let store = view.store();
    if node.0 >= store.nodes() {
        return Ok(());
    }
    let span = view.node_span(node, steps);
    if store.node_history(node).last_kind(span).is_none() {
        return Ok(());
    }
    let subject = Subject::Node(node, store.node_name(node));
    shown.push(ShownEntity { subject, span })?;
    Ok(())
}

/// Adds an edge that the store has and that has an event, with the part of its history that is
/// shown.
fn push_edge<'s, V: View, L: Ledger>(
    shown: &mut Vec<ShownEntity<'s>>,
    view: &'s V,
    edge: EdgeId,
    steps: &mut Steps<L>,
) -> Result<(), Memory>
    ensures entities { OnOk result (entities_of shown.new.items
        ≡ entities_of shown.old.items
        ++ filter (appears (V.world view.now))
        (edges_among (V.contents view.now) (edge.0 ∷ []))) }
    ensures parts { OnOk result
        (All (IsShownEntity (V.contents view.now) (V.world view.now)) shown.old.items
        → All (IsShownEntity (V.contents view.now) (V.world view.now)) shown.new.items) }
    ensures cost { StepsWithin steps.old steps.new (V.searches view.now).edges
        (length (V.contents view.now).accepted) }
{
    let store = view.store();
    if edge.0 >= store.edges() {
        return Ok(());
    }
    let span = view.edge_span(edge, steps);
    if store.edge_history(edge).last_kind(span).is_none() {
        return Ok(());
    }
    let (src, dst, layer) = store.edge_parts(edge);
    let subject = Subject::Edge(
        edge,
        store.node_name(src),
        store.node_name(dst),
        store.layer_name(layer),
    );
    shown.push(ShownEntity { subject, span })?;
    Ok(())
}

/// The nodes and edges that have events in a view, by their numbers, nodes first. Each span of the
/// roster is asked once.
pub(crate) fn shown_by_number<'s, V: View, L: Ledger>(
    alloc: Global,
    view: &'s V,
    roster: Roster<'_>,
    steps: &mut Steps<L>,
) -> Result<Vec<ShownEntity<'s>>, Memory>
    requires covers { Covers (V.contents view.now) (V.world view.now) roster }
    ensures found { IfOk result (λ shown.
        AreFound (V.contents view.now) (V.world view.now) shown.items) }
    ensures cost { StepsWithin steps.old steps.new
        (span_searches (V.contents view.now) roster.entry (V.searches view.now))
        (length (V.contents view.now).accepted) }
{
    let store = view.store();
    roster_facts(store, roster);
    let mut shown = Vec::new(alloc);
    for i in 0..roster.node_count_on(store) {
        push_node(&mut shown, view, roster.node(store, i), steps)?;
    }
    for j in 0..roster.edge_count_on(store) {
        push_edge(&mut shown, view, roster.edge(store, j), steps)?;
    }
    Ok(shown)
}

/// Adds the place of what a span carries to `lo`, and says how many places that is.
fn push_carried(
    places: &mut Vec<EventPlace>,
    span: Span,
    lo: i64,
    shown: u32,
) -> Result<u32, Memory>
    ensures places { OnOk result (places.new.items
        ≡ places.old.items
        ++ (if span.carried
        then (record { time = lo; shown = shown; place = 0 } ∷ [])
        else [])) }
    ensures count { IfOk result (λ count. count ≡ (if span.carried then 1 else 0)) }
{
    if !span.carried {
        return Ok(0);
    }
    places.push(EventPlace {
        time: lo,
        shown,
        place: 0,
    })?;
    Ok(1)
}

/// The place of an update of a history.
fn place_at<L: Ledger>(
    history: &History,
    i: u32,
    shown: u32,
    place: u32,
    steps: &mut Steps<L>,
) -> EventPlace
    requires { i < length history.now.updates }
    ensures place { result
        ≡ record {
          time = (update_at history.now.updates i).time;
          shown = shown;
          place = place;
        } }
    ensures cost { steps.new ≡ steps.old + 1 }
{
    let time = history.time_at(i, steps);
    EventPlace { time, shown, place }
}

/// Adds the places of the events of a span, of which one that is carried is at `lo`.
fn push_span<L: Ledger>(
    places: &mut Vec<EventPlace>,
    history: &History,
    span: Span,
    lo: i64,
    shown: u32,
    steps: &mut Steps<L>,
) -> Result<(), Memory>
    requires { IsSpan history.now.updates span }
    ensures places { OnOk result ((x : Entity) (names : ℕ → List ℕ)
        → Fits x history.now.updates
        → places.new.items
        ≡ places.old.items
        ++ placed_from shown 0 (spelled x names history.now.updates span lo)) }
    ensures cost { steps.new ≤ steps.old + (span.to - span.from) }
{
    let count = push_carried(places, span, lo, shown)?;
    for i in span.from..span.to {
        places.push(place_at(history, i, shown, i - span.from + count, steps))?;
    }
    Ok(())
}

/// Adds the places of the events of a node or an edge.
fn push_events<V: View, L: Ledger>(
    places: &mut Vec<EventPlace>,
    view: &V,
    one: ShownEntity<'_>,
    shown: u32,
    steps: &mut Steps<L>,
) -> Result<(), Memory>
    requires { IsShownEntity (V.contents view.now) (V.world view.now) one }
    ensures places { OnOk result (places.new.items
        ≡ places.old.items
        ++ placed_from shown 0
        (events_of (V.world view.now) (entity_named one.entry.subject))) }
    ensures cost { steps.new ≤ steps.old
        + length (events_of (V.world view.now) (entity_named one.entry.subject)) }
{
    let store = view.store();
    let lo = view.bounds().lo();
    let history = history_of(store, one.subject);
    push_span(places, history, one.span, lo, shown, steps)
}

/// The places of the events of nodes and edges, one node or edge after another.
fn places_by_entity<V: View, L: Ledger>(
    alloc: Global,
    view: &V,
    shown: &[ShownEntity<'_>],
    steps: &mut Steps<L>,
) -> Result<Vec<EventPlace>, Memory>
    requires { AreShown (V.contents view.now) (V.world view.now) shown.now }
    ensures places { IfOk result (λ places.
        places.items ≡ all_placed (V.world view.now) 0 (entities_of shown.now)) }
    ensures cost { steps.new ≤ steps.old
        + length (all_placed (V.world view.now) 0 (entities_of shown.now)) }
{
    let store = view.store();
    let _few_nodes = store.nodes();
    let _few_events = store.events();
    let mut places = Vec::new(alloc);
    for (i, one) in shown.iter().enumerate() {
        push_events(&mut places, view, *one, i as u32, steps)?;
    }
    Ok(places)
}

/// Nodes and edges that have events in a view, put in order, and the places of all events in
/// canonical order.
pub(crate) fn places_in_order<'s, V: View, L: Ledger>(
    alloc: Global,
    view: &'s V,
    mut shown: Vec<ShownEntity<'s>>,
    steps: &mut Steps<L>,
) -> Result<ShownEvents<'s>, Memory>
    requires { AreFound (V.contents view.now) (V.world view.now) shown.items }
    ensures listed { IfOk result (λ listed.
        AreListed (V.contents view.now) (V.world view.now)
        listed.shown.items listed.events.items) }
    ensures cost { steps.new ≤ steps.old + length (V.world view.now).events }
{
    shown.sort_unstable_by(|a, b| a.subject.compare(&b.subject));
    let mut events = places_by_entity(alloc, view, shown.as_slice(), steps)?;
    events.sort_unstable_by(|a, b| a.compare(b));
    Ok(ShownEvents { shown, events })
}

/// The nodes and edges that have events in a view, and the places of all events in canonical order.
/// They are the same for every roster that covers the view. Each span of the roster is asked once.
/// An event takes 16 bytes while it is listed.
pub fn list_places<'s, V: View, L: Ledger>(
    alloc: Global,
    view: &'s V,
    roster: Roster<'_>,
    steps: &mut Steps<L>,
) -> Result<ShownEvents<'s>, Memory>
    requires covers { Covers (V.contents view.now) (V.world view.now) roster }
    ensures listed { IfOk result (λ listed.
        AreListed (V.contents view.now) (V.world view.now)
        listed.shown.items listed.events.items) }
    ensures cost { let c = V.contents view.now in
        let searches = span_searches c roster.entry (V.searches view.now) in
        steps.new ≤ steps.old + searches * digits (length c.accepted)
        + length (V.world view.now).events }
{
    let shown = shown_by_number(alloc, view, roster, steps)?;
    places_in_order(alloc, view, shown, steps)
}
