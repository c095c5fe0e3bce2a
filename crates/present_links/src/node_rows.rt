//! The present nodes of a view.
ghost use Rattle.std.specs.Prelude.{◌≡◌, ◌<◌, ℕ, [], ◌∷◌, ◌++◌, ◌||◌, ◌*◌, length, map, slice_get, Some, IfOk, OnOk};
ghost use Rattle.std.specs.List.{filter, list_any, All};
ghost use Rattle.std.specs.Ordering.{nat_cmp};
ghost use Rattle.graph_model.specs.Presence.{nodes};
ghost use Rattle.graph_model.specs.Rising.{Rises};
ghost use Rattle.graph_store.specs.Contents.{name_at};
ghost use Rattle.view_trait.specs.Coverage.{Covers, node_count_on};
ghost use Rattle.view_trait.specs.Meaning.{StepsWithin};
ghost use Rattle.view_trait.specs.Numbered.{is_listed};
ghost use Rattle.present_links.specs.Links.{IsNamed, has_own, is_end, is_present_number, rising_links};

use crate::link_list::Links;
use graph_model::Memory;
use graph_store::{NodeId, Store};
use std::alloc::Global;
use std::marker::Model;
use std::sync::ledger::Ledger;
use time_column::Steps;
use view_trait::{Roster, View, has_event};

/// Numbers of nodes, rising by the bytes of their names. A contract sees them as a list.
#[derive(Drop)]
pub struct NodeRows {
    nodes: Vec<u32>,
}

impl Model for NodeRows {
    ghost use Rattle.std.specs.Prelude.{List, ℕ};

    ghost Value = { List ℕ };

    ghost view = { λ r. r.nodes.items };
}

impl NodeRows {
    /// The nodes with these numbers, which rise by the bytes of their names. It takes no memory.
    pub fn from_vec(nodes: Vec<u32>) -> NodeRows
        ensures { result ≡ nodes.items }
    {
        NodeRows { nodes }
    }

    /// How many nodes there are.
    pub fn len(&self) -> usize
        ensures { result ≡ length self.now }
    {
        self.nodes.len()
    }

    /// The number of the node in a place, counted from 0.
    pub fn item(&self, i: usize) -> NodeId
        requires { i < length self.now }
        ensures { slice_get self.now i ≡ Some result.0 }
    {
        NodeId(self.nodes[i])
    }
}

/// The numbers of the nodes where a link begins or ends.
pub fn link_nodes(alloc: Global, links: &Links) -> Result<Vec<u32>, Memory>
    ensures { IfOk result (λ numbers. (n : ℕ) → is_listed numbers.items n ≡ is_end links.now n) }
{
    let mut numbers = Vec::new(alloc);
    for i in 0..links.len() {
        let link = links.item(i);
        numbers.push(link.src)?;
        numbers.push(link.dst)?;
    }
    Ok(numbers)
}

/// Adds a node, if the store has it and it has an event of its own.
fn push_own<V: View, L: Ledger>(
    numbers: &mut Vec<u32>,
    view: &V,
    n: NodeId,
    steps: &mut Steps<L>,
) -> Result<(), Memory>
    ensures numbers { let own = has_own (V.contents view.now) (V.world view.now) in
        OnOk result (numbers.new.items ≡ numbers.old.items ++ filter own (n.0 ∷ [])) }
    ensures cost { let among = length (V.contents view.now).accepted in
        StepsWithin steps.old steps.new (V.searches view.now).nodes among }
{
    if n.0 >= view.store().nodes() {
        return Ok(());
    }
    if has_event(view, n, steps) {
        numbers.push(n.0)?;
    }
    Ok(())
}

/// The numbers of the present nodes, each once, rising: those where a link begins or ends, and those
/// with an event of their own.
fn present_numbers<V: View, L: Ledger>(
    alloc: Global,
    view: &V,
    links: &Links,
    roster: Roster<'_>,
    steps: &mut Steps<L>,
) -> Result<Vec<u32>, Memory>
    requires links { links.now ≡ rising_links (V.contents view.now) (V.world view.now) }
    requires covers { Covers (V.contents view.now) (V.world view.now) roster }
    ensures rise { IfOk result (λ numbers. Rises nat_cmp numbers.items) }
    ensures known { let c = V.contents view.now in
        IfOk result (λ numbers. All (λ n. n < length c.nodes) numbers.items) }
    ensures present { let present = is_present_number (V.contents view.now) (V.world view.now) in
        IfOk result (λ numbers. (n : ℕ) → is_listed numbers.items n ≡ present n) }
    ensures cost { let among = length (V.contents view.now).accepted in
        let searches = node_count_on (V.contents view.now) roster.entry * (V.searches view.now).nodes in
        StepsWithin steps.old steps.new searches among }
{
    let store = view.store();
    let mut numbers = link_nodes(alloc, links)?;
    for i in 0..roster.node_count_on(store) {
        push_own(&mut numbers, view, roster.node(store, i), steps)?;
    }
    numbers.sort_unstable();
    numbers.dedup();
    Ok(numbers)
}

/// A node with its name, which the store keeps.
#[derive(Clone, Copy)]
pub struct NamedNode<'s> {
    pub name: &'s str,
    pub node: u32,
}

/// Nodes with their names, in the order of their numbers.
fn with_names<'s>(
    alloc: Global,
    store: &'s Store,
    numbers: &[u32],
) -> Result<Vec<NamedNode<'s>>, Memory>
    requires { All (λ n. n < length store.now.nodes) numbers.now }
    ensures numbers { IfOk result (λ named. map (λ x. x.node) named.items ≡ numbers.now) }
    ensures names { IfOk result (λ named. All (IsNamed store.now) named.items) }
{
    let mut named = Vec::with_capacity(alloc, numbers.len())?;
    for n in numbers {
        let name = store.node_name(NodeId(*n)).as_str();
        named.push(NamedNode { name, node: *n })?;
    }
    Ok(named)
}

/// The numbers of nodes, in their order.
fn rows_of(alloc: Global, named: &[NamedNode<'_>]) -> Result<NodeRows, Memory>
    ensures { IfOk result (λ rows. rows ≡ map (λ x. x.node) named.now) }
{
    let mut nodes = Vec::with_capacity(alloc, named.len())?;
    for x in named {
        nodes.push(x.node)?;
    }
    Ok(NodeRows::from_vec(nodes))
}

/// The present nodes, rising by the bytes of their names. The links are those that the view shows, and
/// the nodes are the same for every roster that covers the view. The span of each node on the roster is
/// asked once. It takes memory for the links and for the present nodes, 8 bytes a link, and none for
/// the other nodes of the store.
pub fn present_nodes<V: View, L: Ledger>(
    alloc: Global,
    view: &V,
    links: &Links,
    roster: Roster<'_>,
    steps: &mut Steps<L>,
) -> Result<NodeRows, Memory>
    requires links { links.now ≡ rising_links (V.contents view.now) (V.world view.now) }
    requires covers { Covers (V.contents view.now) (V.world view.now) roster }
    ensures names { let c = V.contents view.now in
        IfOk result (λ rows. map (name_at c.nodes) rows ≡ nodes (V.world view.now)) }
    ensures known { IfOk result (λ rows. All (λ n. n < length (V.contents view.now).nodes) rows) }
    ensures cost { let among = length (V.contents view.now).accepted in
        let searches = node_count_on (V.contents view.now) roster.entry * (V.searches view.now).nodes in
        StepsWithin steps.old steps.new searches among }
{
    let numbers = present_numbers(alloc, view, links, roster, steps)?;
    let mut named = with_names(alloc, view.store(), numbers.as_slice())?;
    named.sort_unstable_by(|a, b| a.name.cmp(b.name));
    rows_of(alloc, named.as_slice())
}
