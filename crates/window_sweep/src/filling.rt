//! The events of a view, held for a sweep.
ghost use Rattle.std.specs.Prelude.{◌≡◌, ◌<◌, ◌≤◌, ◌+◌, ◌-◌, ◌*◌, ◌++◌, length, map, IfOk, OnOk};
ghost use Rattle.graph_model.specs.Rising.{in_order};
ghost use Rattle.graph_model.specs.Searches.{digits};
ghost use Rattle.time_history.specs.Spans.{IsSpan};
ghost use Rattle.time_history.specs.Updates.{update_at};
ghost use Rattle.view_trait.specs.Coverage.{Covers, edge_count_on, edges_on};
ghost use Rattle.view_trait.specs.Coverage.{node_count_on, nodes_on};
ghost use Rattle.view_trait.specs.Extent.{earlier_of, events_of_edge, events_of_node, later_of};
ghost use Rattle.view_trait.specs.Extent.{span_searches, time_of_first, time_of_last};
ghost use Rattle.view_lists.specs.Moments.{carried_moments, moment_told, moments_told};
ghost use Rattle.window_sweep.specs.Filling.{AreFilled, edges_held, first_held, held_at};
ghost use Rattle.window_sweep.specs.Filling.{held_under, last_held, nodes_held, time_cmp};

use event_sweep::HeldEvent;
use graph_model::Memory;
use graph_store::{EdgeId, NodeId};
use std::alloc::Global;
use std::sync::ledger::Ledger;
use time_column::Steps;
use time_history::{History, Span};
use view_trait::{Roster, View, roster_facts};

/// The events of nodes and those of edges, in the order of time, and the first and the last time.
#[derive(Drop)]
pub(crate) struct HeldEvents {
    pub nodes: Vec<HeldEvent>,
    pub edges: Vec<HeldEvent>,
    pub first: Option<i64>,
    pub last: Option<i64>,
}

/// What is held of an update of a history.
fn update_held<L: Ledger>(history: &History, i: u32, number: u32, steps: &mut Steps<L>) -> HeldEvent
    requires { i < length history.now.updates }
    ensures held { result ≡ held_at number (moment_told (update_at history.now.updates i)) }
    ensures cost { steps.new ≡ steps.old + 1 }
{
    let time = history.time_at(i, steps);
    let deletes = history.kind_at(i).is_deletion();
    HeldEvent {
        time,
        number,
        deletes,
    }
}

/// Holds what a span carries to the moment `lo`, if it carries something.
fn hold_carried(
    held: &mut Vec<HeldEvent>,
    history: &History,
    span: Span,
    lo: i64,
    number: u32,
) -> Result<(), Memory>
    requires { IsSpan history.now.updates span }
    ensures { OnOk result (held.new.items ≡ held.old.items
        ++ map (held_at number) (carried_moments history.now.updates span lo)) }
{
    if !span.carried {
        return Ok(());
    }
    let deletes = history.kind_at(span.from - 1).is_deletion();
    held.push(HeldEvent {
        time: lo,
        number,
        deletes,
    })?;
    Ok(())
}

/// Holds the events of a span under a number, in their order. What is carried is at the moment
/// `lo`.
fn hold_span<L: Ledger>(
    held: &mut Vec<HeldEvent>,
    history: &History,
    span: Span,
    lo: i64,
    number: u32,
    steps: &mut Steps<L>,
) -> Result<(), Memory>
    requires { IsSpan history.now.updates span }
    ensures held { OnOk result (held.new.items ≡ held.old.items
        ++ map (held_at number) (moments_told history.now.updates span lo)) }
    ensures cost { steps.new ≤ steps.old + (span.to - span.from) }
{
    hold_carried(held, history, span, lo, number)?;
    for i in span.from..span.to {
        held.push(update_held(history, i, number, steps))?;
    }
    Ok(())
}

/// Holds the events of a node. A number that the store does not have stands for none.
fn hold_node<V: View, L: Ledger>(
    held: &mut Vec<HeldEvent>,
    view: &V,
    node: NodeId,
    steps: &mut Steps<L>,
) -> Result<(), Memory>
    ensures held { let events = events_of_node (V.contents view.now) (V.world view.now) node.0 in
        OnOk result (held.new.items ≡ held.old.items ++ held_under node.0 events) }
    ensures cost { let events = events_of_node (V.contents view.now) (V.world view.now) node.0 in
        let among = length (V.contents view.now).accepted in
        steps.new ≤ steps.old + (V.searches view.now).nodes * digits among + length events }
{
    let store = view.store();
    if node.0 >= store.nodes() {
        return Ok(());
    }
    let history = store.node_history(node);
    let span = view.node_span(node, steps);
    hold_span(held, history, span, view.bounds().lo(), node.0, steps)
}

/// Holds the events of an edge. A number that the store does not have stands for none.
fn hold_edge<V: View, L: Ledger>(
    held: &mut Vec<HeldEvent>,
    view: &V,
    edge: EdgeId,
    steps: &mut Steps<L>,
) -> Result<(), Memory>
    ensures held { let events = events_of_edge (V.contents view.now) (V.world view.now) edge.0 in
        OnOk result (held.new.items ≡ held.old.items ++ held_under edge.0 events) }
    ensures cost { let events = events_of_edge (V.contents view.now) (V.world view.now) edge.0 in
        let among = length (V.contents view.now).accepted in
        steps.new ≤ steps.old + (V.searches view.now).edges * digits among + length events }
{
    let store = view.store();
    if edge.0 >= store.edges() {
        return Ok(());
    }
    let history = store.edge_history(edge);
    let span = view.edge_span(edge, steps);
    hold_span(held, history, span, view.bounds().lo(), edge.0, steps)
}

/// The events of the nodes on a roster, one node after another.
fn held_nodes<V: View, L: Ledger>(
    alloc: Global,
    view: &V,
    roster: Roster<'_>,
    steps: &mut Steps<L>,
) -> Result<Vec<HeldEvent>, Memory>
    ensures held { let c = V.contents view.now in
        IfOk result (λ held.
        held.items ≡ nodes_held c (V.world view.now) (nodes_on c roster.entry)) }
    ensures cost { let c = V.contents view.now in
        let searches = node_count_on c roster.entry * (V.searches view.now).nodes in
        steps.new ≤ steps.old + searches * digits (length c.accepted)
        + length (nodes_held c (V.world view.now) (nodes_on c roster.entry)) }
{
    let store = view.store();
    let mut held = Vec::new(alloc);
    for i in 0..roster.node_count_on(store) {
        hold_node(&mut held, view, roster.node(store, i), steps)?;
    }
    Ok(held)
}

/// The events of the edges on a roster, one edge after another.
fn held_edges<V: View, L: Ledger>(
    alloc: Global,
    view: &V,
    roster: Roster<'_>,
    steps: &mut Steps<L>,
) -> Result<Vec<HeldEvent>, Memory>
    ensures held { let c = V.contents view.now in
        IfOk result (λ held.
        held.items ≡ edges_held c (V.world view.now) (edges_on c roster.entry)) }
    ensures cost { let c = V.contents view.now in
        let searches = edge_count_on c roster.entry * (V.searches view.now).edges in
        steps.new ≤ steps.old + searches * digits (length c.accepted)
        + length (edges_held c (V.world view.now) (edges_on c roster.entry)) }
{
    let store = view.store();
    let mut held = Vec::new(alloc);
    for i in 0..roster.edge_count_on(store) {
        hold_edge(&mut held, view, roster.edge(store, i), steps)?;
    }
    Ok(held)
}

/// Events in the order of time. Those of one time stay in the order in which they came.
fn in_time(held: Vec<HeldEvent>) -> Result<Vec<HeldEvent>, Memory>
    ensures { IfOk result (λ sorted. sorted.items ≡ in_order time_cmp held.items) }
{
    let mut sorted = held;
    sorted.sort_by_key(|event| event.time)?;
    Ok(sorted)
}

/// The earlier of the first times of two lists in the order of time.
fn first_time(nodes: &[HeldEvent], edges: &[HeldEvent]) -> Option<i64>
    ensures { result ≡ earlier_of (first_held nodes.now) (first_held edges.now) }
{
    match (nodes.first(), edges.first()) {
        (Some(node), Some(edge)) => Some(node.time.min(edge.time)),
        (None, Some(edge)) => Some(edge.time),
        (Some(node), None) => Some(node.time),
        (None, None) => None,
    }
}

/// The later of the last times of two lists in the order of time.
fn last_time(nodes: &[HeldEvent], edges: &[HeldEvent]) -> Option<i64>
    ensures { result ≡ later_of (last_held nodes.now) (last_held edges.now) }
{
    match (nodes.last(), edges.last()) {
        (Some(node), Some(edge)) => Some(node.time.max(edge.time)),
        (None, Some(edge)) => Some(edge.time),
        (Some(node), None) => Some(node.time),
        (None, None) => None,
    }
}

/// Holds the events of a view. The span of each node and edge on the roster is asked once. An event
/// takes 16 bytes, and 16 more while it is put in order with the others.
pub(crate) fn held_events<V: View, L: Ledger>(
    alloc: Global,
    view: &V,
    roster: Roster<'_>,
    steps: &mut Steps<L>,
) -> Result<HeldEvents, Memory>
    requires covers { Covers (V.contents view.now) (V.world view.now) roster }
    ensures filled { IfOk result (λ held.
        AreFilled (V.contents view.now) (V.world view.now) held.nodes.items held.edges.items) }
    ensures first { IfOk result (λ held. held.first ≡ time_of_first (V.world view.now).events) }
    ensures last { IfOk result (λ held. held.last ≡ time_of_last (V.world view.now).events) }
    ensures cost { let c = V.contents view.now in
        let searches = span_searches c roster.entry (V.searches view.now) in
        steps.new ≤ steps.old + searches * digits (length c.accepted)
        + length (V.world view.now).events }
{
    roster_facts(view.store(), roster);
    let node_events = held_nodes(alloc, view, roster, steps)?;
    let edge_events = held_edges(alloc, view, roster, steps)?;
    let nodes = in_time(node_events)?;
    let edges = in_time(edge_events)?;
    let first = first_time(nodes.as_slice(), edges.as_slice());
    let last = last_time(nodes.as_slice(), edges.as_slice());
    Ok(HeldEvents {
        nodes,
        edges,
        first,
        last,
    })
}
