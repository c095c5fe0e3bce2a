//! The core numbers of the nodes of a view, and its cores.
ghost use Rattle.std.specs.Prelude.{◌≡◌, ◌<◌, ◌+◌, ◌*◌, Some, length, map, nat_le, slice_get, IfOk};
ghost use Rattle.std.specs.List.{All, filter};
ghost use Rattle.graph_model.specs.declared.events.Model.TheVariants.{Event as Instants};
ghost use Rattle.graph_model.specs.declared.queries.Ask.TheVariants.{Core as CoreOf, CoreNumbers};
ghost use Rattle.graph_model.specs.Answer.{IsAnswer};
ghost use Rattle.graph_model.specs.Core.{IsCoreNumber};
ghost use Rattle.graph_model.specs.Presence.{nodes};
ghost use Rattle.view_trait.specs.Coverage.{Covers, edge_count_on, node_count_on};
ghost use Rattle.view_trait.specs.Meaning.{StepsWithin};
ghost use Rattle.present_links.specs.NodeNames.{node_row_of};
ghost use Rattle.core_algorithm.specs.Cores.{IsNumberIn, core_name, core_row_of};

use crate::peeling::peeled;
use graph_model::{Direction, Memory};
use graph_store::NodeId;
use present_links::{Adjacent, NodeRows, adjacent, links, present_nodes};
use std::alloc::Global;
use std::marker::Model;
use std::sync::ledger::Ledger;
use time_column::Steps;
use view_trait::{Roster, View};

/// The core number of a node: the greatest `k` whose core has the node.
#[derive(Clone, Copy)]
pub struct Core {
    pub node: NodeId,
    pub number: u32,
}

/// The core numbers of nodes. A contract sees them as a list.
#[derive(Drop)]
pub struct Cores {
    cores: Vec<Core>,
}

impl Model for Cores {
    ghost use Rattle.std.specs.Prelude.{List};
    ghost use Rattle.core_algorithm.specs.declared.core_rows.Core.{Core};

    ghost Value = { List Core };

    ghost view = { λ c. c.cores.items };
}

impl Cores {
    /// How many nodes there are.
    pub fn len(&self) -> usize
        ensures { result ≡ length self.now }
    {
        self.cores.len()
    }

    /// The core number of the node in a place, counted from 0.
    pub fn item(&self, i: usize) -> &Core
        requires { i < length self.now }
        ensures { slice_get self.now i ≡ Some result.now }
    {
        &self.cores[i]
    }

    /// The nodes with their core numbers, side by side.
    pub fn as_slice(&self) -> &[Core]
        ensures { result.now ≡ self.now }
    {
        self.cores.as_slice()
    }
}

/// The core number of a node, by those of the nodes with links. The others have no neighbour.
fn number_of(adjacent: &Adjacent, numbers: &[u32], n: NodeId) -> u32
    requires { length numbers.now ≡ length adjacent.now.nodes }
    ensures { IsNumberIn adjacent.now numbers.now n.0 result }
{
    match adjacent.place_of(n) {
        Some(place) => numbers[place],
        None => 0,
    }
}

/// The core numbers of nodes, by those of the nodes with links.
fn cores_of(
    alloc: Global,
    adjacent: &Adjacent,
    numbers: &[u32],
    nodes: &NodeRows,
) -> Result<Cores, Memory>
    requires long { length numbers.now ≡ length adjacent.now.nodes }
    ensures nodes { IfOk result (λ cores. map (λ core. core.node.0) cores ≡ nodes.now) }
    ensures numbers { let is_number = IsNumberIn adjacent.now numbers.now in
        IfOk result (λ cores. All (λ core. is_number core.node.0 core.number) cores) }
{
    let mut cores = Vec::with_capacity(alloc, nodes.len())?;
    for i in 0..nodes.len() {
        let node = nodes.item(i);
        let number = number_of(adjacent, numbers, node);
        cores.push(Core { node, number })?;
    }
    Ok(Cores { cores })
}

/// The core numbers of the present nodes, rising by the bytes of their names. A node's link to
/// itself counts for nothing, and a neighbour both ways counts once. A node without neighbours has
/// 0.
///
/// A node with the fewest neighbours left is taken away, and so on until none is left; its number
/// is the highest such count so far (Batagelj and Zaversnik, 2003). Each link is gone along once
/// from each of its ends, and moves the other end down by one bucket, so this part is linear in the
/// nodes and links. The links and the names are sorted before.
///
/// The span of each node and of each edge on the roster is asked once at most, and the numbers are
/// the same for every roster that covers the view. It takes memory for the links that the view
/// shows and for the present nodes, and none for the other pairs, nodes and edges of the store.
pub fn core_numbers<V: View, L: Ledger>(
    alloc: Global,
    view: &V,
    roster: Roster<'_>,
    steps: &mut Steps<L>,
) -> Result<Cores, Memory>
    requires covers { Covers (V.contents view.now) (V.world view.now) roster }
    ensures answer { let row_of = core_row_of (V.contents view.now) in
        IfOk result (λ cores. IsAnswer (V.world view.now) CoreNumbers (map row_of cores)) }
    ensures nodes { let name = core_name (V.contents view.now) in
        IfOk result (λ cores. map name cores ≡ nodes (V.world view.now)) }
    ensures numbers { let name = core_name (V.contents view.now) in
        let w = V.world view.now in
        IfOk result (λ cores. All (λ core. IsCoreNumber w (name core) core.number) cores) }
    ensures known { let c = V.contents view.now in
        IfOk result (λ cores. All (λ core. core.node.0 < length c.nodes) cores) }
    ensures cost { let c = V.contents view.now in
        let of_nodes = node_count_on c roster.entry * (V.searches view.now).nodes in
        let of_edges = edge_count_on c roster.entry * (V.searches view.now).edges in
        (V.world view.now).model ≡ Instants
        → StepsWithin steps.old steps.new (of_nodes + of_edges) (length c.accepted) }
{
    let links = links(alloc, view, roster, steps)?;
    let nodes = present_nodes(alloc, view, &links, roster, steps)?;
    let _few = view.store().nodes();
    let adjacent = adjacent(alloc, &links, Direction::Both)?;
    let numbers = peeled(alloc, &adjacent)?;
    cores_of(alloc, &adjacent, numbers.as_slice(), &nodes)
}

/// The nodes with a core number of at least `k`, in their order.
fn nodes_from(alloc: Global, cores: &Cores, k: u32) -> Result<NodeRows, Memory>
    ensures { let kept = filter (λ core. nat_le k core.number) cores.now in
        IfOk result (λ rows. rows ≡ map (λ core. core.node.0) kept) }
{
    let mut nodes = Vec::new(alloc);
    for i in 0..cores.len() {
        let core = cores.item(i);
        if k <= core.number {
            nodes.push(core.node.0)?;
        }
    }
    Ok(NodeRows::from_vec(nodes))
}

/// The nodes of the `k`-core, rising by the bytes of their names: the greatest set of present nodes
/// each of which has at least `k` neighbours, other than itself, in the set. These are the nodes
/// with a core number of at least `k`, and are found by the numbers of all; cost and memory are
/// those of `core_numbers`.
pub fn k_core<V: View, L: Ledger>(
    alloc: Global,
    view: &V,
    roster: Roster<'_>,
    k: u32,
    steps: &mut Steps<L>,
) -> Result<NodeRows, Memory>
    requires covers { Covers (V.contents view.now) (V.world view.now) roster }
    ensures answer { let row_of = node_row_of (V.contents view.now) in
        IfOk result (λ rows. IsAnswer (V.world view.now) (CoreOf k) (map row_of rows)) }
    ensures known { let c = V.contents view.now in
        IfOk result (λ rows. All (λ n. n < length c.nodes) rows) }
    ensures cost { let c = V.contents view.now in
        let of_nodes = node_count_on c roster.entry * (V.searches view.now).nodes in
        let of_edges = edge_count_on c roster.entry * (V.searches view.now).edges in
        (V.world view.now).model ≡ Instants
        → StepsWithin steps.old steps.new (of_nodes + of_edges) (length c.accepted) }
{
    let cores = core_numbers(alloc, view, roster, steps)?;
    nodes_from(alloc, &cores, k)
}
