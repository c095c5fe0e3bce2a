//! The degrees of the nodes of a view.
ghost use Rattle.std.specs.Prelude.{◌≡◌, ◌<◌, ◌+◌, ◌*◌, ℕ, Some, length, map, slice_get, IfOk};
ghost use Rattle.std.specs.List.{All};
ghost use Rattle.graph_model.specs.declared.events.Model.TheVariants.{Event as Instants};
ghost use Rattle.graph_model.specs.Answer.{degree_row};
ghost use Rattle.graph_model.specs.Presence.{nodes};
ghost use Rattle.graph_store.specs.Contents.{name_at};
ghost use Rattle.view_trait.specs.Coverage.{Covers, edge_count_on, node_count_on};
ghost use Rattle.view_trait.specs.Meaning.{StepsWithin};
ghost use Rattle.present_links.specs.Links.{rising_links};
ghost use Rattle.walk_algorithms.specs.Counted.{AreWays, CountsWays};
ghost use Rattle.walk_algorithms.specs.Degrees.{degree_row_of};

use crate::link_ways::link_ways;
use crate::ways::{WayTable, Ways};
use graph_model::Memory;
use graph_store::NodeId;
use present_links::{NodeRows, links, present_nodes};
use std::alloc::Global;
use std::marker::Model;
use std::sync::ledger::Ledger;
use time_column::Steps;
use view_trait::{Roster, View};

/// How many neighbours of a node lead to it, how many it leads to, and how many do either. A node
/// that leads to itself is its own neighbour, and counts once each way and once in all.
#[derive(Clone, Copy)]
pub struct Degree {
    pub node: NodeId,
    pub ins: u32,
    pub outs: u32,
    pub both: u32,
}

/// The degrees of nodes. A contract sees them as a list.
#[derive(Drop)]
pub struct DegreeRows {
    rows: Vec<Degree>,
}

impl Model for DegreeRows {
    ghost use Rattle.std.specs.Prelude.{List};
    ghost use Rattle.walk_algorithms.specs.declared.degree_rows.Degree.{Degree};

    ghost Value = { List Degree };

    ghost view = { λ d. d.rows.items };
}

impl DegreeRows {
    /// How many nodes there are.
    pub fn len(&self) -> usize
        ensures { result ≡ length self.now }
    {
        self.rows.len()
    }

    /// The degrees of the node in a place.
    pub fn item(&self, i: usize) -> &Degree
        requires { i < length self.now }
        ensures { slice_get self.now i ≡ Some result.now }
    {
        &self.rows[i]
    }

    /// The degrees, side by side.
    pub fn as_slice(&self) -> &[Degree]
        ensures { result.now ≡ self.now }
    {
        self.rows.as_slice()
    }
}

/// The degrees of a node, by its ways.
fn degree_of<V: View>(view: &V, node: NodeId, ways: Ways) -> Degree
    requires within { node.0 < length (V.contents view.now).nodes }
    requires ways { let links = rising_links (V.contents view.now) (V.world view.now) in
        AreWays links links node.0 ways }
    ensures node { result.node ≡ node }
    ensures row { let c = V.contents view.now in
        degree_row_of c result ≡ degree_row (V.world view.now) (name_at c.nodes node.0) }
{
    let _few = view.store().nodes();
    Degree {
        node,
        ins: ways.ins,
        outs: ways.outs,
        both: ways.outs + ways.alone,
    }
}

/// The degrees of nodes, by the ways of all.
fn degrees_of<V: View>(
    alloc: Global,
    view: &V,
    nodes: &NodeRows,
    ways: &WayTable,
) -> Result<DegreeRows, Memory>
    requires known { All (λ n. n < length (V.contents view.now).nodes) nodes.now }
    requires ways { let links = rising_links (V.contents view.now) (V.world view.now) in
        CountsWays links links ways.now }
    ensures rows { let c = V.contents view.now in
        let rows_of = λ (n : ℕ). degree_row (V.world view.now) (name_at c.nodes n) in
        IfOk result (λ rows. map (degree_row_of c) rows ≡ map rows_of nodes.now) }
    ensures known { let c = V.contents view.now in
        IfOk result (λ rows. All (λ d. d.node.0 < length c.nodes) rows) }
{
    let mut rows = Vec::with_capacity(alloc, nodes.len())?;
    for i in 0..nodes.len() {
        let node = nodes.item(i);
        rows.push(degree_of(view, node, ways.of(node)))?;
    }
    Ok(DegreeRows { rows })
}

/// The degrees of the present nodes, rising by the bytes of their names. The span of each node and of
/// each edge on the roster is asked once at most, and the degrees are the same for every roster that
/// covers the view. It takes memory for the links that the view shows and for the present nodes, and
/// none for the other pairs, nodes and edges of the store.
pub fn degrees<V: View, L: Ledger>(
    alloc: Global,
    view: &V,
    roster: Roster<'_>,
    steps: &mut Steps<L>,
) -> Result<DegreeRows, Memory>
    requires covers { Covers (V.contents view.now) (V.world view.now) roster }
    ensures rows { let w = V.world view.now in
        let c = V.contents view.now in
        IfOk result (λ rows. map (degree_row_of c) rows ≡ map (degree_row w) (nodes w)) }
    ensures known { let c = V.contents view.now in
        IfOk result (λ rows. All (λ d. d.node.0 < length c.nodes) rows) }
    ensures cost { let c = V.contents view.now in
        let of_nodes = node_count_on c roster.entry * (V.searches view.now).nodes in
        let of_edges = edge_count_on c roster.entry * (V.searches view.now).edges in
        (V.world view.now).model ≡ Instants
        → StepsWithin steps.old steps.new (of_nodes + of_edges) (length c.accepted) }
{
    let links = links(alloc, view, roster, steps)?;
    let nodes = present_nodes(alloc, view, &links, roster, steps)?;
    let _few = view.store().pairs();
    let ways = link_ways(alloc, links)?;
    degrees_of(alloc, view, &nodes, &ways)
}
