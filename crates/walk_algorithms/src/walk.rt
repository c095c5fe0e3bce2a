//! Walks from a node, breadth first.
ghost use Rattle.std.specs.Prelude.{◌≡◌, ◌<◌, ℕ, List, true, length, IfOk, OnOk};
ghost use Rattle.graph_model.specs.Presence.{node_present};
ghost use Rattle.graph_store.specs.Contents.{name_at};
ghost use Rattle.walk_laws.specs.Distances.{AreDistances};
ghost use Rattle.walk_algorithms.specs.Visits.{IsSource, VisitsNeighbours};

use crate::source::Source;
use graph_model::{Direction, Memory};
use graph_store::NodeId;
use node_visits::{Visit, VisitedNodes};
use std::alloc::Global;
use std::sync::ledger::Ledger;
use time_column::Steps;
use view_trait::{View, neighbours};

/// Visits the neighbours of a node that were not visited, each with one mark. The view is asked for
/// them.
fn visit_asked<V: View, L: Ledger>(
    visited: &mut VisitedNodes,
    view: &V,
    node: NodeId,
    direction: Direction,
    mark: u32,
    steps: &mut Steps<L>,
) -> Result<(), Memory>
    requires node { node.0 < length (V.contents view.now).nodes }
    requires limit { visited.old.limit ≡ length (V.contents view.now).nodes }
    ensures limit { visited.new.limit ≡ visited.old.limit }
    ensures visits { let c = V.contents view.now in
        let visits = VisitsNeighbours c (V.world view.now) direction node.0 mark in
        OnOk result (visits visited.old.visits visited.new.visits) }
{
    let mut left = neighbours(view, node, direction);
    while let Some(neighbour) = left.next(steps) {
        visited.visit(neighbour.0, mark)?;
    }
    Ok(())
}

/// Visits the neighbours of a node that were not visited, each with one mark. They are looked up in
/// the lists of a source, where it has some. Both ways the lists have no node as its own neighbour.
fn visit_neighbours<V: View, L: Ledger>(
    visited: &mut VisitedNodes,
    view: &V,
    source: &Source,
    node: NodeId,
    direction: Direction,
    mark: u32,
    steps: &mut Steps<L>,
) -> Result<(), Memory>
    requires node { node.0 < length (V.contents view.now).nodes }
    requires limit { visited.old.limit ≡ length (V.contents view.now).nodes }
    requires source { IsSource (V.contents view.now) (V.world view.now) direction source.now }
    ensures limit { visited.new.limit ≡ visited.old.limit }
    ensures visits { let c = V.contents view.now in
        let visits = VisitsNeighbours c (V.world view.now) direction node.0 mark in
        OnOk result (visits visited.old.visits visited.new.visits) }
{
    let Source::Listed(lists) = source else {
        return visit_asked(visited, view, node, direction, mark, steps);
    };
    let Some(place) = lists.place_of(node) else {
        return Ok(());
    };
    let _rows = lists.len();
    for other in lists.neighbours(place) {
        visited.visit(lists.node(*other as usize).0, mark)?;
    }
    Ok(())
}

/// Visits each node to which a walk leads from a present node, and marks it with the least number of
/// steps of such a walk. Nodes that are fewer steps away are visited first, and the neighbours of each
/// are found once, where the source has them. It takes memory for these nodes, and for a flag of each
/// node of the store.
pub fn walk_from<V: View, L: Ledger>(
    alloc: Global,
    view: &V,
    source: &Source,
    start: NodeId,
    direction: Direction,
    steps: &mut Steps<L>,
) -> Result<VisitedNodes, Memory>
    requires start { start.0 < length (V.contents view.now).nodes }
    requires present { let name = name_at (V.contents view.now).nodes start.0 in
        node_present (V.world view.now) name ≡ true }
    requires source { IsSource (V.contents view.now) (V.world view.now) direction source.now }
    ensures limit { let nodes = (V.contents view.now).nodes in
        IfOk result (λ visited. visited.limit ≡ length nodes) }
    ensures distances { let nodes = (V.contents view.now).nodes in
        let are_distances = AreDistances (V.world view.now) nodes direction start.0 in
        IfOk result (λ visited. are_distances visited.visits) }
{
    let mut visited = VisitedNodes::new(alloc, view.store().nodes())?;
    visited.visit(start.0, 0)?;
    let mut next = 0;
    while next < visited.len() {
        let Visit { node, mark } = visited.item(next);
        visit_neighbours(
            &mut visited,
            view,
            source,
            NodeId(node),
            direction,
            mark + 1,
            steps,
        )?;
        next += 1;
    }
    Ok(visited)
}
