//! Settling nodes, each at the least moment at which a journey ends there.
ghost use Rattle.std.specs.Prelude.{◌≡◌, ◌<◌, ℤ, ℕ, List, length, MatchOption, IfOk, []};
ghost use Rattle.std.specs.List.{Contains};
ghost use Rattle.temporal_reach.specs.Arrivals.{AreSeeds};
ghost use Rattle.temporal_reach.specs.Search.{AreKnown, IsBegun, IsFirstNew, IsSearch};

use crate::frontier::Frontier;
use crate::offers::{contact_facts, moment_before, offer_from};
use crate::reach_table::{ReachTable, Reached};
use graph_model::Memory;
use graph_store::{EdgeId, NodeId};
use std::alloc::Global;
use std::sync::ledger::Ledger;
use time_column::Steps;
use view_trait::{NodeList, View};

/// Takes out the first of the edges that lead to a node of which nothing is known, with its node.
fn next_new<V: View>(
    view: &V,
    table: &ReachTable,
    frontier: &mut Frontier,
) -> Option<((i64, u32), NodeId)>
    requires { (x : ℤ × ℕ) → Contains frontier.old x → x.1 < length (V.contents view.now).edges }
    ensures { let c = V.contents view.now in
        MatchOption result (AreKnown c table.now frontier.old)
        (λ r. IsFirstNew c table.now frontier.old frontier.new r.0.0 r.0.1 r.1.0) }
{
    while let Some(offer) = frontier.pop() {
        let (_src, dst, _layer) = view.store().edge_parts(EdgeId(offer.1));
        if table.of(dst).is_none() {
            return Some((offer, dst));
        }
    }
    None
}

/// The seeds that the store has, and the edges that leave them.
fn begin<V: View, L: Ledger>(
    alloc: Global,
    view: &V,
    seeds: &NodeList,
    start: i64,
    steps: &mut Steps<L>,
) -> Result<(ReachTable, Frontier), Memory>
    ensures { let c = V.contents view.now in
        IfOk result (λ r. IsBegun c (V.world view.now) seeds.now start r.0 r.1) }
{
    let nodes = view.store().nodes();
    let mut table = ReachTable::new(alloc);
    let mut frontier = Frontier::new(alloc);
    let before = moment_before(view, start);
    for i in 0..seeds.len() {
        let seed = seeds.item(i);
        if seed.0 >= nodes {
            continue;
        }
        table.put(seed, Reached::Start)?;
        offer_from(view, &table, seed, before, &mut frontier, steps)?;
    }
    Ok((table, frontier))
}

/// How each node is reached from the seeds. Nodes are settled by rising moments.
pub fn settle<V: View, L: Ledger>(
    alloc: Global,
    view: &V,
    seeds: &NodeList,
    start: i64,
    steps: &mut Steps<L>,
) -> Result<ReachTable, Memory>
    ensures { let c = V.contents view.now in
        let w = V.world view.now in
        IfOk result (λ table. (names : List (List ℕ))
        → AreSeeds c seeds.now names → IsSearch c w names start table []) }
{
    contact_facts(view);
    let (mut table, mut frontier) = begin(alloc, view, seeds, start, steps)?;
    while let Some(((moment, edge), node)) = next_new(view, &table, &mut frontier) {
        let by = EdgeId(edge);
        table.put(node, Reached::Moment { moment, by })?;
        offer_from(view, &table, node, moment, &mut frontier, steps)?;
    }
    Ok(table)
}
