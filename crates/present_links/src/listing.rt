//! The links that a view shows.
ghost use Rattle.std.specs.Prelude.{◌≡◌, ◌≤◌, ◌*◌, ◌++◌, [], ◌∷◌, length, IfOk, OnOk, if◌then◌else◌};
ghost use Rattle.graph_model.specs.declared.events.Model.TheVariants.{Event as Instants};
ghost use Rattle.view_trait.specs.Coverage.{Covers, edge_count_on};
ghost use Rattle.view_trait.specs.Meaning.{StepsWithin};
ghost use Rattle.present_links.specs.Links.{edge_ends, ends_in, has_edge, rising_links};

use crate::link_list::{Link, Links};
use graph_model::Memory;
use graph_store::EdgeId;
use std::alloc::Global;
use std::sync::ledger::Ledger;
use time_column::Steps;
use view_trait::{Roster, View, edge_present};

/// Adds the link of an edge, if the store has it and the view shows it.
fn push_shown<V: View, L: Ledger>(
    links: &mut Vec<Link>,
    view: &V,
    e: EdgeId,
    steps: &mut Steps<L>,
) -> Result<(), Memory>
    ensures links { let c = V.contents view.now in
        let more = if has_edge c (V.world view.now) e.0 then edge_ends c e.0 ∷ [] else [] in
        OnOk result (ends_in links.new.items ≡ ends_in links.old.items ++ more) }
    ensures cost { let among = length (V.contents view.now).accepted in
        (V.world view.now).model ≡ Instants
        → StepsWithin steps.old steps.new (V.searches view.now).edges among }
{
    let store = view.store();
    if e.0 >= store.edges() {
        return Ok(());
    }
    if edge_present(view, e, steps) {
        let (src, dst, _layer) = store.edge_parts(e);
        links.push(Link {
            src: src.0,
            dst: dst.0,
        })?;
    }
    Ok(())
}

/// The links that the view shows: the pairs of a source and a destination with a present edge, each
/// once, rising by source and then by destination. The span of each edge on the roster is asked once,
/// and they are the same for every roster that covers the view. It takes 8 bytes for each present edge.
pub fn links<V: View, L: Ledger>(
    alloc: Global,
    view: &V,
    roster: Roster<'_>,
    steps: &mut Steps<L>,
) -> Result<Links, Memory>
    requires covers { Covers (V.contents view.now) (V.world view.now) roster }
    ensures links { IfOk result (λ links. links ≡ rising_links (V.contents view.now) (V.world view.now)) }
    ensures few { IfOk result (λ links. length links ≤ length (V.contents view.now).pairs) }
    ensures cost { let among = length (V.contents view.now).accepted in
        let searches = edge_count_on (V.contents view.now) roster.entry * (V.searches view.now).edges in
        (V.world view.now).model ≡ Instants → StepsWithin steps.old steps.new searches among }
{
    let store = view.store();
    let mut links = Vec::new(alloc);
    for i in 0..roster.edge_count_on(store) {
        push_shown(&mut links, view, roster.edge(store, i), steps)?;
    }
    Ok(Links::from_vec(links))
}
