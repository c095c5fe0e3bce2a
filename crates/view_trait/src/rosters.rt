//! Rosters: the nodes and edges among which a call has to look.
ghost use Rattle.std.specs.Prelude.{◌≡◌, ◌<◌, [], length, slice_get, Some, OnOk, OnErr};
ghost use Rattle.std.specs.Ordering.{nat_cmp};
ghost use Rattle.graph_model.specs.Rising.{put_rising, rising};
ghost use Rattle.view_trait.specs.Coverage.{edge_count_on, edges_on, node_count_on, nodes_on};

use crate::numbers::NodeList;
use crate::sorted_numbers::{put_number, refill_numbers};
use graph_model::Memory;
use graph_store::{EdgeId, NodeId, Store};
use std::alloc::Global;
use std::marker::Model;

/// Distinct numbers of edges, rising.
#[derive(Drop)]
pub struct EdgeList {
    items: Vec<u32>,
}

impl Model for EdgeList {
    ghost use Rattle.std.specs.Prelude.{List, ℕ};
    ghost use Rattle.std.specs.Ordering.{nat_cmp};
    ghost use Rattle.graph_model.specs.Rising.{Rises};

    ghost Value = { List ℕ };

    ghost view = { λ l. l.items.items };

    ghost invariant = { λ l. Rises nat_cmp l.items.items };
}

impl EdgeList {
    ghost use Rattle.graph_model.specs.Rising.{Rises};

    /// No edge. It takes no memory.
    pub fn new(alloc: Global) -> EdgeList
        ensures { result ≡ [] }
    {
        EdgeList {
            items: Vec::new(alloc),
        }
    }

    /// How many edges there are.
    pub fn len(&self) -> usize
        ensures len { result ≡ length self.now }
        ensures rising { Rises nat_cmp self.now }
    {
        self.items.len()
    }

    /// The number at a place, counted from 0.
    pub fn item(&self, i: usize) -> EdgeId
        requires { i < length self.now }
        ensures { slice_get self.now i ≡ Some result.0 }
    {
        EdgeId(self.items[i])
    }

    /// Adds an edge, unless it is there. Where memory is wanting, the list stays as it is.
    pub fn push(&mut self, e: EdgeId) -> Result<(), Memory>
        ensures ok { OnOk result (self.new ≡ put_rising nat_cmp e.0 self.old) }
        ensures err { OnErr result (self.new ≡ self.old) }
    {
        put_number(&mut self.items, e.0)
    }

    /// Has the distinct ones of some numbers in place of those that were there. What memory the
    /// list has serves again; where more is wanting, it has no edge.
    pub fn refill(&mut self, numbers: &[u32]) -> Result<(), Memory>
        ensures ok { OnOk result (self.new ≡ rising nat_cmp numbers.now) }
        ensures err { OnErr result (self.new ≡ []) }
    {
        refill_numbers(&mut self.items, numbers)
    }
}

/// The nodes and edges of a store among which a call has to look: all, or those of these numbers. A
/// number that the store does not have stands for nothing. A roster covers a world where each node
/// and each edge that has an event in the world is on it.
#[derive(Clone, Copy)]
pub enum Roster<'r> {
    All,
    Some {
        nodes: &'r NodeList,
        edges: &'r EdgeList,
    },
}

impl Roster<'_> {
    /// How many nodes are on it, of those that a store has where it has all.
    pub fn node_count_on(self, store: &Store) -> usize
        ensures { result ≡ node_count_on store.now self.entry }
    {
        match self {
            Roster::All => store.nodes() as usize,
            Roster::Some { nodes, edges: _ } => nodes.len(),
        }
    }

    /// How many edges are on it, of those that a store has where it has all.
    pub fn edge_count_on(self, store: &Store) -> usize
        ensures { result ≡ edge_count_on store.now self.entry }
    {
        match self {
            Roster::All => store.edges() as usize,
            Roster::Some { nodes: _, edges } => edges.len(),
        }
    }

    /// The number of the node at a place of it, counted from 0.
    pub fn node(self, store: &Store, i: usize) -> NodeId
        requires { i < node_count_on store.now self }
        ensures { slice_get (nodes_on store.now self.entry) i ≡ Some result.0 }
    {
        match self {
            Roster::All => {
                let _all = store.nodes();
                NodeId(i as u32)
            }
            Roster::Some { nodes, edges: _ } => nodes.item(i),
        }
    }

    /// The number of the edge at a place of it, counted from 0.
    pub fn edge(self, store: &Store, i: usize) -> EdgeId
        requires { i < edge_count_on store.now self }
        ensures { slice_get (edges_on store.now self.entry) i ≡ Some result.0 }
    {
        match self {
            Roster::All => {
                let _all = store.edges();
                EdgeId(i as u32)
            }
            Roster::Some { nodes: _, edges } => edges.item(i),
        }
    }
}
