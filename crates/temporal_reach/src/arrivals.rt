//! The earliest arrivals in a view.
ghost use Rattle.std.specs.Prelude.{◌≡◌, ◌<◌, ℕ, List, Some, nat_eq, length, map, slice_get, IfOk};
ghost use Rattle.std.specs.List.{All, IsDistinct, filter};
ghost use Rattle.graph_model.specs.Answer.{IsAnswer};
ghost use Rattle.graph_model.specs.declared.queries.Ask.TheVariants.{Arrival as ArrivalAsk};
ghost use Rattle.temporal_reach.specs.Reaching.{reached_at, nodes_in};
ghost use Rattle.temporal_reach.specs.declared.reach_table.Reached.{Reached};
ghost use Rattle.temporal_reach.specs.Arrivals.{AreSeeds, NamesEdge, arrival_row};
ghost use Rattle.temporal_reach.specs.Arrivals.{IsNamedArrival, answer_of, is_answered};

use crate::reach_table::{ReachTable, Reached};
use crate::settling::settle;
use graph_model::Memory;
use graph_store::NodeId;
use std::alloc::Global;
use std::marker::Model;
use std::sync::ledger::Ledger;
use time_column::Steps;
use view_trait::{NodeList, View, node_present};

/// A node with how it is reached.
#[derive(Clone, Copy)]
pub struct Arrival {
    pub node: NodeId,
    pub reached: Reached,
}

/// The nodes that are reached, rising by the bytes of their names. A contract sees them as a list.
#[derive(Drop)]
pub struct Arrivals {
    rows: Vec<Arrival>,
}

impl Model for Arrivals {
    ghost use Rattle.std.specs.Prelude.{List};
    ghost use Rattle.temporal_reach.specs.declared.arrivals.Arrival.{Arrival};

    ghost Value = { List Arrival };

    ghost view = { λ a. a.rows.items };
}

impl Arrivals {
    /// How many nodes there are.
    pub fn len(&self) -> usize
        ensures { result ≡ length self.now }
    {
        self.rows.len()
    }

    /// The node in a place, counted from 0.
    pub fn item(&self, i: usize) -> &Arrival
        requires { i < length self.now }
        ensures { slice_get self.now i ≡ Some result.now }
    {
        &self.rows[i]
    }

    /// The nodes with how they are reached, side by side.
    pub fn as_slice(&self) -> &[Arrival]
        ensures { result.now ≡ self.now }
    {
        self.rows.as_slice()
    }
}

/// A reached node with its name, which the store keeps.
#[derive(Clone, Copy)]
pub struct NamedArrival<'s> {
    pub name: &'s str,
    pub arrival: Arrival,
}

/// How a node is reached, if it is answered: a seed only if it is present.
fn answer_of<V: View, L: Ledger>(
    view: &V,
    table: &ReachTable,
    node: NodeId,
    steps: &mut Steps<L>,
) -> Option<Reached>
    requires { node.0 < length (V.contents view.now).nodes }
    ensures { result ≡ answer_of (V.contents view.now) (V.world view.now) table.now node.0 }
{
    let reached = table.of(node);
    if let Some(Reached::Start) = reached {
        if !node_present(view, node, steps) {
            return None;
        }
    }
    reached
}

/// The nodes that are answered, with their names, in the order in which they were settled.
fn named_arrivals<'s, V: View, L: Ledger>(
    alloc: Global,
    view: &'s V,
    table: &ReachTable,
    steps: &mut Steps<L>,
) -> Result<Vec<NamedArrival<'s>>, Memory>
    requires { (n : ℕ) (r : Reached) → reached_at table.now n ≡ Some r
        → n < length (V.contents view.now).nodes }
    ensures nodes { let answered = is_answered (V.contents view.now) (V.world view.now) table.now in
        let numbers = filter answered (nodes_in table.now) in
        IfOk result (λ named. map (λ x. x.arrival.node.0) named.items ≡ numbers) }
    ensures once { IsDistinct nat_eq (nodes_in table.now) }
    ensures names { let c = V.contents view.now in
        let is_named = IsNamedArrival c (V.world view.now) table.now in
        IfOk result (λ named. All is_named named.items) }
{
    let store = view.store();
    let mut named = Vec::new(alloc);
    for i in 0..table.len() {
        let node = table.node(i);
        if let Some(reached) = answer_of(view, table, node, steps) {
            let name = store.node_name(node).as_str();
            let arrival = Arrival { node, reached };
            named.push(NamedArrival { name, arrival })?;
        }
    }
    Ok(named)
}

/// The arrivals alone, in their order.
fn arrivals_of(alloc: Global, named: &[NamedArrival<'_>]) -> Result<Arrivals, Memory>
    ensures { IfOk result (λ rows. rows ≡ map (λ x. x.arrival) named.now) }
{
    let mut rows = Vec::with_capacity(alloc, named.len())?;
    for x in named {
        rows.push(x.arrival)?;
    }
    Ok(Arrivals { rows })
}

/// The earliest arrivals of journeys that leave one of the seeds at a moment or later, rising by the
/// bytes of the nodes' names. A journey goes along edges at contacts that rise strictly, and may
/// wait on an edge that lasts. A seed is reached at the start, if it is present; a number that the
/// store does not have is no seed. Each other node names an edge by which a journey arrives; where
/// several would do, it is any of them.
///
/// Nodes are settled by rising moments, after Dijkstra. Only the edges that leave reached nodes are
/// asked, the edges of each pair once at most, and none that leads to a node reached before. It takes
/// memory for the reached nodes and for the edges that are asked, and none for the other nodes of the
/// store. No clause bounds its steps.
pub fn earliest_arrival<V: View, L: Ledger>(
    alloc: Global,
    view: &V,
    seeds: &NodeList,
    start: i64,
    steps: &mut Steps<L>,
) -> Result<Arrivals, Memory>
    ensures rows { let c = V.contents view.now in
        let w = V.world view.now in
        IfOk result (λ arrivals. (names : List (List ℕ)) → AreSeeds c seeds.now names
        → IsAnswer w (ArrivalAsk start names) (map (arrival_row c) arrivals)) }
    ensures by { let c = V.contents view.now in
        let w = V.world view.now in
        IfOk result (λ arrivals. (names : List (List ℕ)) → AreSeeds c seeds.now names
        → All (NamesEdge c w names start) arrivals) }
    ensures known { let c = V.contents view.now in
        IfOk result (λ arrivals. All (λ a. a.node.0 < length c.nodes) arrivals) }
{
    let table = settle(alloc, view, seeds, start, steps)?;
    let mut named = named_arrivals(alloc, view, &table, steps)?;
    named.sort_unstable_by(|a, b| a.name.cmp(b.name));
    arrivals_of(alloc, named.as_slice())
}
