//! The other nodes to which walks lead from a node, and those from which walks lead to it.
ghost use Rattle.std.specs.Prelude.{◌≡◌, ◌<◌, [], ◌∷◌, ◌++◌, true, List, length, map, IfOk, OnOk, if◌then◌else◌};
ghost use Rattle.std.specs.List.{All};
ghost use Rattle.graph_model.specs.declared.queries.Ask.TheVariants.{OutComponent, InComponent};
ghost use Rattle.graph_model.specs.Answer.{IsAnswer};
ghost use Rattle.graph_model.specs.Presence.{node_present as is_node_present};
ghost use Rattle.graph_store.specs.Contents.{name_at};
ghost use Rattle.view_trait.specs.Coverage.{Covers};
ghost use Rattle.node_visits.specs.declared.visited.Visit.{Visit};
ghost use Rattle.node_visits.specs.Visits.{nodes_of};
ghost use Rattle.walk_laws.specs.Components.{is_other, others};
ghost use Rattle.walk_laws.specs.Distances.{AreDistances};
ghost use Rattle.walk_laws.specs.Numbers.{NamesRise};
ghost use Rattle.walk_algorithms.specs.Visits.{IsSource, visit_of};
ghost use Rattle.present_links.specs.NodeNames.{node_row_of};

use crate::by_name::{NamedVisit, sorted_visits};
use crate::source::{Source, is_present, source_on};
use crate::walk::walk_from;
use graph_model::{Direction, Memory};
use graph_store::NodeId;
use node_visits::Visit;
use present_links::NodeRows;
use std::alloc::Global;
use std::sync::ledger::Ledger;
use time_column::Steps;
use view_trait::{Roster, View};

/// Adds the node of a visit, unless it is the start.
fn push_other(nodes: &mut Vec<u32>, start: NodeId, visit: Visit) -> Result<(), Memory>
    ensures { let more = if is_other start.0 visit then visit.node ∷ [] else [] in
        OnOk result (nodes.new.items ≡ nodes.old.items ++ more) }
{
    if visit.node == start.0 {
        return Ok(());
    }
    nodes.push(visit.node)?;
    Ok(())
}

/// The nodes of visits, without the start, in their order.
fn others_of(alloc: Global, start: NodeId, named: &[NamedVisit<'_>]) -> Result<NodeRows, Memory>
    ensures { let visits = others start.0 (map visit_of named.now) in
        IfOk result (λ nodes. nodes ≡ nodes_of visits) }
{
    let mut nodes = Vec::new(alloc);
    for x in named {
        push_other(&mut nodes, start, x.visit)?;
    }
    Ok(NodeRows::from_vec(nodes))
}

/// The other nodes to which walks lead from a present node in a direction, rising by the bytes of their
/// names.
fn component<V: View, L: Ledger>(
    alloc: Global,
    view: &V,
    source: &Source,
    start: NodeId,
    direction: Direction,
    steps: &mut Steps<L>,
) -> Result<NodeRows, Memory>
    requires start { start.0 < length (V.contents view.now).nodes }
    requires present { let name = name_at (V.contents view.now).nodes start.0 in
        is_node_present (V.world view.now) name ≡ true }
    requires source { IsSource (V.contents view.now) (V.world view.now) direction source.now }
    ensures { let w = V.world view.now in
        let names = (V.contents view.now).nodes in
        IfOk result (λ nodes. (visits : List Visit) × AreDistances w names direction start.0 visits
        × NamesRise names visits × (nodes ≡ nodes_of (others start.0 visits))) }
{
    let visited = walk_from(alloc, view, source, start, direction, steps)?;
    let named = sorted_visits(alloc, view.store(), &visited)?;
    others_of(alloc, start, named.as_slice())
}

/// The other nodes to which walks lead from a node, rising by the bytes of their names; there is none
/// where it is not present. They are found by a roster as the nodes of `hops` are, at
/// the same cost.
pub fn out_component<V: View, L: Ledger>(
    alloc: Global,
    view: &V,
    roster: Roster<'_>,
    start: NodeId,
    steps: &mut Steps<L>,
) -> Result<NodeRows, Memory>
    requires covers { Covers (V.contents view.now) (V.world view.now) roster }
    requires start { start.0 < length (V.contents view.now).nodes }
    ensures rows { let c = V.contents view.now in
        let ask = OutComponent (name_at c.nodes start.0) in
        IfOk result (λ nodes. IsAnswer (V.world view.now) ask (map (node_row_of c) nodes)) }
    ensures known { let c = V.contents view.now in
        IfOk result (λ nodes. All (λ n. n < length c.nodes) nodes) }
{
    let source = source_on(alloc, view, roster, Direction::Outward, steps)?;
    if !is_present(view, &source, start, steps) {
        return Ok(NodeRows::from_vec(Vec::new(alloc)));
    }
    component(alloc, view, &source, start, Direction::Outward, steps)
}

/// The other nodes from which walks lead to a node, rising by the bytes of their names; there is none
/// where it is not present. They are found by a roster as the nodes of `hops` are, at
/// the same cost.
pub fn in_component<V: View, L: Ledger>(
    alloc: Global,
    view: &V,
    roster: Roster<'_>,
    start: NodeId,
    steps: &mut Steps<L>,
) -> Result<NodeRows, Memory>
    requires covers { Covers (V.contents view.now) (V.world view.now) roster }
    requires start { start.0 < length (V.contents view.now).nodes }
    ensures rows { let c = V.contents view.now in
        let ask = InComponent (name_at c.nodes start.0) in
        IfOk result (λ nodes. IsAnswer (V.world view.now) ask (map (node_row_of c) nodes)) }
    ensures known { let c = V.contents view.now in
        IfOk result (λ nodes. All (λ n. n < length c.nodes) nodes) }
{
    let source = source_on(alloc, view, roster, Direction::Inward, steps)?;
    if !is_present(view, &source, start, steps) {
        return Ok(NodeRows::from_vec(Vec::new(alloc)));
    }
    component(alloc, view, &source, start, Direction::Inward, steps)
}
