//! The nodes that a walk has visited, in the order in which it came to them.
ghost use Rattle.std.specs.Prelude.{◌≡◌, ◌≤◌, ◌<◌, [], Some, length, slice_get, IfOk, OnOk};
ghost use Rattle.node_visits.specs.Visits.{AreVisits, visited_too};

use crate::Memory;
use std::alloc::Global;
use std::marker::Model;

/// A node that a walk came to, by its number, with a mark: how many steps led there.
#[derive(Clone, Copy)]
pub struct Visit {
    pub node: u32,
    pub mark: u32,
}

/// The visits of a walk, in their order, of which no two are of one node. The list is the queue of a
/// walk breadth first, too: a place in it parts the nodes from which the walk has gone on from those
/// from which it has yet to. A contract sees the number of nodes and the list.
#[derive(Drop)]
pub struct VisitedNodes {
    // Whether a node was visited, for each node.
    flags: Vec<bool>,
    visits: Vec<Visit>,
}

impl Model for VisitedNodes {
    ghost use Rattle.std.specs.Prelude.{length};
    ghost use Rattle.node_visits.specs.Visits.{Visited, AreFlagged};

    ghost Value = { Visited };

    ghost view = { λ v. record { limit = length v.flags.items; visits = v.visits.items } };

    ghost invariant = { λ v. AreFlagged v.flags.items v.visits.items };
}

impl VisitedNodes {
    /// No node was visited of so many. It takes a byte for each of them.
    pub fn new(alloc: Global, nodes: u32) -> Result<VisitedNodes, Memory>
        ensures limit { IfOk result (λ v. v.limit ≡ nodes) }
        ensures visits { IfOk result (λ v. v.visits ≡ []) }
    {
        let flags = vec![in alloc; false; nodes as usize]?;
        Ok(VisitedNodes {
            flags,
            visits: Vec::new(alloc),
        })
    }

    /// How many nodes were visited.
    pub fn len(&self) -> usize
        ensures len { result ≡ length self.now.visits }
        ensures few { length self.now.visits ≤ self.now.limit }
        ensures visits { AreVisits self.now.limit self.now.visits }
    {
        self.visits.len()
    }

    /// The visit in a place, counted from 0.
    pub fn item(&self, i: usize) -> Visit
        requires { i < length self.now.visits }
        ensures { slice_get self.now.visits i ≡ Some result }
    {
        self.visits[i]
    }

    /// Visits a node with a mark, unless it was visited. Where memory is wanting nothing is visited.
    pub fn visit(&mut self, node: u32, mark: u32) -> Result<(), Memory>
        requires { node < self.old.limit }
        ensures limit { self.new.limit ≡ self.old.limit }
        ensures visits { OnOk result (self.new.visits ≡ visited_too self.old.visits node mark) }
    {
        if self.flags[node as usize] {
            return Ok(());
        }
        self.visits.push(Visit { node, mark })?;
        self.flags[node as usize] = true;
        Ok(())
    }
}
