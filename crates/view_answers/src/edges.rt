//! The present edges of a view.
ghost use Rattle.std.specs.Prelude.{◌≡◌, ◌<◌, ◌*◌, ℕ, [], ◌∷◌, ◌++◌, length, map, IfOk, OnOk, if◌then◌else◌};
ghost use Rattle.std.specs.List.{All};
ghost use Rattle.std.specs.Ordering.{nat_cmp};
ghost use Rattle.graph_model.specs.declared.events.Model.TheVariants.{Event as Instants};
ghost use Rattle.graph_model.specs.Answer.{EdgeRow, row_fields};
ghost use Rattle.graph_model.specs.Entity.{edge_cmp};
ghost use Rattle.graph_model.specs.Output.{world_row};
ghost use Rattle.graph_model.specs.Presence.{edges};
ghost use Rattle.graph_model.specs.Rising.{Rises};
ghost use Rattle.graph_model.specs.RowText.{rows_text};
ghost use Rattle.view_trait.specs.Coverage.{Covers, edge_count_on};
ghost use Rattle.view_trait.specs.Meaning.{StepsWithin, edge_named};
ghost use Rattle.view_trait.specs.Numbered.{is_listed};
ghost use Rattle.present_links.specs.Links.{has_edge};
ghost use Rattle.answer_parts.specs.WorldPart.{part_rows};
ghost use Rattle.view_answers.specs.Edges.{edge_told};

use crate::answer_rows::add_edge;
use answer_parts::add_world;
use event_rows::RowWriter;
use graph_model::{Bounds, Memory, Name};
use graph_store::{EdgeId, Store};
use std::alloc::Global;
use std::cmp::Ordering;
use std::sync::ledger::Ledger;
use time_column::Steps;
use view_trait::{Roster, View, edge_present};

/// An edge by the names of its parts, which a store keeps.
#[derive(Clone, Copy)]
pub struct NamedEdge<'s> {
    pub src: &'s Name,
    pub dst: &'s Name,
    pub layer: &'s Name,
}

/// The names of an edge's parts.
fn named_edge(store: &Store, e: EdgeId) -> NamedEdge<'_>
    requires { e.0 < length store.now.edges }
    ensures { edge_told result ≡ edge_named store.now e.0 }
{
    let parts = store.edge_parts(e);
    let src = store.node_name(parts.0);
    let dst = store.node_name(parts.1);
    let layer = store.layer_name(parts.2);
    NamedEdge { src, dst, layer }
}

/// How two edges compare: by their sources, then by their destinations, and then by their layers.
fn compare_edges(a: &NamedEdge<'_>, b: &NamedEdge<'_>) -> Ordering
    ensures { result ≡ edge_cmp (edge_told a.now) (edge_told b.now) }
{
    let by_src = a.src.cmp(b.src);
    if by_src.is_ne() {
        return by_src;
    }
    let by_dst = a.dst.cmp(b.dst);
    if by_dst.is_ne() {
        return by_dst;
    }
    a.layer.cmp(b.layer)
}

/// Adds the number of an edge, if the store has it and the view shows it.
fn push_present<V: View, L: Ledger>(
    numbers: &mut Vec<u32>,
    view: &V,
    e: EdgeId,
    steps: &mut Steps<L>,
) -> Result<(), Memory>
    ensures numbers { let present = has_edge (V.contents view.now) (V.world view.now) e.0 in
        let more = if present then e.0 ∷ [] else [] in
        OnOk result (numbers.new.items ≡ numbers.old.items ++ more) }
    ensures cost { let among = length (V.contents view.now).accepted in
        (V.world view.now).model ≡ Instants
        → StepsWithin steps.old steps.new (V.searches view.now).edges among }
{
    if e.0 >= view.store().edges() {
        return Ok(());
    }
    if edge_present(view, e, steps) {
        numbers.push(e.0)?;
    }
    Ok(())
}

/// The numbers of the present edges, each once, rising. The span of each edge on the roster is asked
/// once.
fn present_edges<V: View, L: Ledger>(
    alloc: Global,
    view: &V,
    roster: Roster<'_>,
    steps: &mut Steps<L>,
) -> Result<Vec<u32>, Memory>
    requires covers { Covers (V.contents view.now) (V.world view.now) roster }
    ensures rise { IfOk result (λ numbers. Rises nat_cmp numbers.items) }
    ensures present { let present = has_edge (V.contents view.now) (V.world view.now) in
        IfOk result (λ numbers. (e : ℕ) → is_listed numbers.items e ≡ present e) }
    ensures cost { let among = length (V.contents view.now).accepted in
        let searches = edge_count_on (V.contents view.now) roster.entry * (V.searches view.now).edges in
        (V.world view.now).model ≡ Instants → StepsWithin steps.old steps.new searches among }
{
    let store = view.store();
    let mut numbers = Vec::new(alloc);
    for i in 0..roster.edge_count_on(store) {
        push_present(&mut numbers, view, roster.edge(store, i), steps)?;
    }
    numbers.sort_unstable();
    numbers.dedup();
    Ok(numbers)
}

/// Edges with the names of their parts, in the order of their numbers.
fn with_names<'s>(
    alloc: Global,
    store: &'s Store,
    numbers: &[u32],
) -> Result<Vec<NamedEdge<'s>>, Memory>
    requires { All (λ e. e < length store.now.edges) numbers.now }
    ensures { let names = map (edge_named store.now) numbers.now in
        IfOk result (λ named. map edge_told named.items ≡ names) }
{
    let mut named = Vec::with_capacity(alloc, numbers.len())?;
    for e in numbers {
        named.push(named_edge(store, EdgeId(*e)))?;
    }
    Ok(named)
}

/// The present edges, rising by the bytes of source, destination and layer.
fn sorted_edges<'v, V: View, L: Ledger>(
    alloc: Global,
    view: &'v V,
    roster: Roster<'_>,
    steps: &mut Steps<L>,
) -> Result<Vec<NamedEdge<'v>>, Memory>
    requires covers { Covers (V.contents view.now) (V.world view.now) roster }
    ensures names { IfOk result (λ sorted. map edge_told sorted.items ≡ edges (V.world view.now)) }
    ensures cost { let among = length (V.contents view.now).accepted in
        let searches = edge_count_on (V.contents view.now) roster.entry * (V.searches view.now).edges in
        (V.world view.now).model ≡ Instants → StepsWithin steps.old steps.new searches among }
{
    let numbers = present_edges(alloc, view, roster, steps)?;
    let mut named = with_names(alloc, view.store(), numbers.as_slice())?;
    named.sort_unstable_by(|a, b| compare_edges(a, b));
    Ok(named)
}

/// Adds the part of a world with these bounds whose answer has a row for each of some edges.
fn add_listed(out: &mut RowWriter, bounds: Bounds, listed: &[NamedEdge<'_>]) -> Result<(), Memory>
    ensures { let answer = map (λ e. EdgeRow (edge_told e)) listed.now in
        OnOk result (out.new ≡ out.old
        ++ rows_text (world_row bounds (length listed.now) ∷ map row_fields answer)) }
{
    add_world(out, bounds, listed.len())?;
    for edge in listed {
        add_edge(out, edge.src, edge.dst, edge.layer)?;
    }
    Ok(())
}

/// Adds the part of the world of a view: its present edges. They are the same for every roster that
/// covers the view.
pub fn add_edges<V: View, L: Ledger>(
    alloc: Global,
    out: &mut RowWriter,
    view: &V,
    roster: Roster<'_>,
    steps: &mut Steps<L>,
) -> Result<(), Memory>
    requires covers { Covers (V.contents view.now) (V.world view.now) roster }
    ensures rows { let w = V.world view.now in
        OnOk result (out.new ≡ out.old ++ rows_text (part_rows w (map EdgeRow (edges w)))) }
    ensures cost { let among = length (V.contents view.now).accepted in
        let searches = edge_count_on (V.contents view.now) roster.entry * (V.searches view.now).edges in
        (V.world view.now).model ≡ Instants → StepsWithin steps.old steps.new searches among }
{
    let sorted = sorted_edges(alloc, view, roster, steps)?;
    add_listed(out, view.bounds(), sorted.as_slice())
}
