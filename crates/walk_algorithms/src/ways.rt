//! How many links begin and end at each node.
ghost use Rattle.std.specs.Prelude.{◌≡◌, ℕ, ◌^◌, ◌<◌, ◌+◌, [], OnOk};
ghost use Rattle.walk_algorithms.specs.Counted.{ways_of, plus, between, Puts, AreFew, IsJoined};

use graph_model::Memory;
use graph_store::NodeId;
use indexmap::IndexMap;
use std::alloc::Global;
use std::marker::Model;

/// How many links end at a node, how many begin there, and how many of those that end there have no
/// link back.
#[derive(Clone, Copy)]
pub struct Ways {
    pub ins: u32,
    pub outs: u32,
    pub alone: u32,
}

impl Ways {
    /// The ways that the links between a node and another, or itself, give the node: whether one leads
    /// there, and whether one leads back.
    fn between(there: bool, back: bool) -> Ways
        ensures { result ≡ between there back }
    {
        Ways {
            ins: back as u32,
            outs: there as u32,
            alone: (!there && back) as u32,
        }
    }

    /// The ways of both.
    fn plus(self, more: Ways) -> Ways
        requires { AreFew (plus self more) }
        ensures { result ≡ plus self more }
    {
        Ways {
            ins: self.ins + more.ins,
            outs: self.outs + more.outs,
            alone: self.alone + more.alone,
        }
    }
}

/// The ways of the nodes where a link begins or ends. It takes memory for these nodes alone. A
/// contract sees it as a list of nodes with their ways.
#[derive(Drop)]
pub struct WayTable {
    ways: IndexMap<u32, Ways>,
}

impl Model for WayTable {
    ghost use Rattle.std.specs.Prelude.{ℕ, List};
    ghost use Rattle.walk_algorithms.specs.declared.ways.Ways.{Ways};

    ghost Value = { List (ℕ × Ways) };

    ghost view = { λ t. t.ways.entries };
}

impl WayTable {
    /// No node has a way. It takes no memory.
    pub fn new(alloc: Global) -> WayTable
        ensures { result ≡ [] }
    {
        WayTable {
            ways: IndexMap::new(alloc),
        }
    }

    /// The ways of a node.
    pub fn of(&self, n: NodeId) -> Ways
        ensures { result ≡ ways_of self.now n.0 }
    {
        match self.ways.get(&n.0) {
            Some(ways) => *ways,
            None => Ways::between(false, false),
        }
    }

    /// Adds to the ways of a node.
    fn add(&mut self, n: NodeId, more: Ways) -> Result<(), Memory>
        requires { AreFew (plus (ways_of self.old n.0) more) }
        ensures { OnOk result (Puts self.old n.0 (plus (ways_of self.old n.0) more) self.new) }
    {
        let ways = self.ways.entry(n.0)?.or_insert(Ways::between(false, false));
        *ways = ways.plus(more);
        Ok(())
    }

    /// Counts the links between two nodes at both: whether one leads from the first to the second,
    /// and whether one leads back. A loop leads back itself, and counts once.
    pub fn count(&mut self, src: NodeId, dst: NodeId, there: bool, back: bool) -> Result<(), Memory>
        requires at_src { AreFew (plus (ways_of self.old src.0) (between there back)) }
        requires at_dst { AreFew (plus (ways_of self.old dst.0) (between back there)) }
        ensures { OnOk result (IsJoined src.0 dst.0 there back self.old self.new) }
    {
        if !there && !back {
            return Ok(());
        }
        self.add(src, Ways::between(there, back))?;
        if src.0 == dst.0 {
            return Ok(());
        }
        self.add(dst, Ways::between(back, there))
    }
}
