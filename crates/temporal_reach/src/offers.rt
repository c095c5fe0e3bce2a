//! Offering the edges that begin at a node.
ghost use Rattle.std.specs.Prelude.{◌≡◌, ◌<◌, ◌≤ℤ◌, ◌<ℤ◌, ◌↔◌, ℕ, ℤ, FitsSigned, length, OnOk};
ghost use Rattle.std.specs.Int.{w64};
ghost use Rattle.std.specs.List.{Contains};
ghost use Rattle.graph_model.specs.declared.events.EdgeName.{EdgeName};
ghost use Rattle.graph_model.specs.Presence.{IsContact};
ghost use Rattle.graph_store.specs.Ends.{ends_at};
ghost use Rattle.graph_store.specs.EdgeIndex.{edges_between};
ghost use Rattle.temporal_reach.specs.Offers.{AreOffered, LeadsAnew, LeavesAnew};

use crate::frontier::Frontier;
use crate::reach_table::ReachTable;
use graph_model::Memory;
use graph_store::{EdgeId, NodeId, PairId};
use std::sync::ledger::Ledger;
use time_column::Steps;
use view_trait::{View, next_contact};

/// A moment that is before a contact exactly where the start is not after the contact.
pub fn moment_before<V: View>(view: &V, start: i64) -> i64
    ensures { (edge : EdgeName) (t : ℤ) → IsContact (V.world view.now) edge t
        → (result <ℤ t) ↔ (start ≤ℤ t) }
{
    let lo = view.bounds().lo();
    if start > lo { start - 1 } else { lo - 1 }
}

/// The moments of contacts are numbers of 64 bits. A call does nothing when it runs: it hands out
/// this fact to the proof of the function that calls.
pub fn contact_facts<V: View>(view: &V)
    ensures { (edge : EdgeName) (t : ℤ) → IsContact (V.world view.now) edge t → FitsSigned w64 t }
{
    let bounds = view.bounds();
    let _low = bounds.lo();
    let _high = bounds.hi();
}

/// Offers an edge at its next contact.
fn offer_edge<V: View, L: Ledger>(
    view: &V,
    e: EdgeId,
    after: i64,
    frontier: &mut Frontier,
    steps: &mut Steps<L>,
) -> Result<(), Memory>
    requires { e.0 < length (V.contents view.now).edges }
    ensures { let c = V.contents view.now in
        let offered = AreOffered c (V.world view.now) after (λ k. k ≡ e.0) (λ k. ⊥) in
        OnOk result (offered frontier.old frontier.new) }
{
    contact_facts(view);
    if let Some(moment) = next_contact(view, e, after, steps) {
        frontier.push(moment, e.0)?;
    }
    Ok(())
}

/// Offers the edges of a pair, each at its next contact.
fn offer_pair<V: View, L: Ledger>(
    view: &V,
    pair: PairId,
    after: i64,
    frontier: &mut Frontier,
    steps: &mut Steps<L>,
) -> Result<(), Memory>
    requires { pair.0 < length (V.contents view.now).pairs }
    ensures { let c = V.contents view.now in
        let edges = edges_between c.edges (ends_at c.pairs pair.0) in
        let offered = AreOffered c (V.world view.now) after (Contains edges) (λ k. ⊥) in
        OnOk result (offered frontier.old frontier.new) }
{
    let mut edges = view.store().edges_of(pair);
    while let Some(e) = edges.next() {
        offer_edge(view, e, after, frontier, steps)?;
    }
    Ok(())
}

/// Offers the edges of a pair, each at its next contact, unless it is known how the node where they
/// lead is reached.
fn offer_new_pair<V: View, L: Ledger>(
    view: &V,
    table: &ReachTable,
    pair: PairId,
    after: i64,
    frontier: &mut Frontier,
    steps: &mut Steps<L>,
) -> Result<(), Memory>
    requires { pair.0 < length (V.contents view.now).pairs }
    ensures { let c = V.contents view.now in
        let edges = edges_between c.edges (ends_at c.pairs pair.0) in
        let anew = λ (e : ℕ). Contains edges e × LeadsAnew c table.now e in
        let offered = AreOffered c (V.world view.now) after anew (λ k. ⊥) in
        OnOk result (offered frontier.old frontier.new) }
{
    let (_src, dst) = view.store().pair_ends(pair);
    if table.of(dst).is_some() {
        return Ok(());
    }
    offer_pair(view, pair, after, frontier, steps)
}

/// Offers the edges that begin at a node and lead to nodes of which nothing is known, each at its
/// next contact.
pub fn offer_from<V: View, L: Ledger>(
    view: &V,
    table: &ReachTable,
    n: NodeId,
    after: i64,
    frontier: &mut Frontier,
    steps: &mut Steps<L>,
) -> Result<(), Memory>
    requires { n.0 < length (V.contents view.now).nodes }
    ensures { let c = V.contents view.now in
        let offered = AreOffered c (V.world view.now) after (LeavesAnew c table.now n.0) (λ k. ⊥) in
        OnOk result (offered frontier.old frontier.new) }
{
    let mut pairs = view.store().out_pairs(n);
    while let Some(p) = pairs.next() {
        offer_new_pair(view, table, p, after, frontier, steps)?;
    }
    Ok(())
}
