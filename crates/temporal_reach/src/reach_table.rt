//! How nodes are reached.
ghost use Rattle.std.specs.Prelude.{◌≡◌, ◌<◌, [], nat_eq, length, slice_get, Some, OnOk};
ghost use Rattle.std.specs.List.{IsDistinct};
ghost use Rattle.temporal_reach.specs.Reaching.{Puts, reached_at, nodes_in};

use graph_model::Memory;
use graph_store::{EdgeId, NodeId};
use indexmap::IndexMap;
use std::alloc::Global;
use std::marker::Model;

/// How a node is reached: it is one of those where journeys start, or a journey arrives there, at
/// the earliest at a moment, by an edge.
#[derive(Clone, Copy)]
pub enum Reached {
    Start,
    Moment { moment: i64, by: EdgeId },
}

/// How nodes are reached, as far as this is known. It takes memory for these nodes alone. A
/// contract sees it as a list of nodes with how they are reached.
#[derive(Drop)]
pub struct ReachTable {
    table: IndexMap<u32, Reached>,
}

impl Model for ReachTable {
    ghost use Rattle.std.specs.Prelude.{ℕ, List};
    ghost use Rattle.temporal_reach.specs.declared.reach_table.Reached.{Reached};

    ghost Value = { List (ℕ × Reached) };

    ghost view = { λ l. l.table.entries };
}

impl ReachTable {
    /// Nothing is known of any node. It takes no memory.
    pub fn new(alloc: Global) -> ReachTable
        ensures { result ≡ [] }
    {
        ReachTable {
            table: IndexMap::new(alloc),
        }
    }

    /// Of how many nodes it is known how they are reached.
    pub fn len(&self) -> usize
        ensures len { result ≡ length (nodes_in self.now) }
        ensures once { IsDistinct nat_eq (nodes_in self.now) }
    {
        self.table.len()
    }

    /// The node in a place, counted from 0.
    pub fn node(&self, i: usize) -> NodeId
        requires { i < length (nodes_in self.now) }
        ensures { slice_get (nodes_in self.now) i ≡ Some result.0 }
    {
        match self.table.get_index(i) {
            Some((n, _)) => NodeId(*n),
            None => unreachable!(),
        }
    }

    /// How a node is reached, if this is known.
    pub fn of(&self, n: NodeId) -> Option<Reached>
        ensures { result ≡ reached_at self.now n.0 }
    {
        match self.table.get(&n.0) {
            Some(reached) => Some(*reached),
            None => None,
        }
    }

    /// Says how a node is reached.
    pub fn put(&mut self, n: NodeId, reached: Reached) -> Result<(), Memory>
        ensures { OnOk result (Puts self.old n.0 reached self.new) }
    {
        self.table.insert(n.0, reached)?;
        Ok(())
    }
}
