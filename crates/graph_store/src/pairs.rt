//! Pairs of nodes, numbered, and linked by their sources and by their destinations.
ghost use Rattle.std.specs.Prelude.{◌≡◌, ℕ, ◌+◌, ◌-◌, ◌^◌, ◌<◌, ◌≤◌, List, [], ◌∷◌, ◌++◌, Some, is_some, false, position, length, slice_get, OnOk, IsOk};
ghost use Rattle.std.specs.List.{IsDistinct, list_any};
ghost use Rattle.graph_store.specs.PairIndex.{pairs_from, pairs_to};

use graph_model::Memory;
use indexmap::IndexSet;
use link_chain::{ChainWalk, Chains};
use std::alloc::Global;
use std::marker::Model;

/// The source and the destination of edges, by their numbers.
#[derive(Clone, Copy, Eq, Hash)]
pub struct Ends {
    pub src: u32,
    pub dst: u32,
}

impl PartialEq for Ends {
    ghost use Rattle.std.proofs.Common.{rules};
    ghost use Rattle.std.specs.Cmp.Rules.{comparing};
    ghost use Rattle.graph_store.specs.Ends.{same_ends};

    ghost eq = { same_ends };

    ghost laws = { Prim.search (comparing, rules) };

    fn eq(&self, other: &Ends) -> bool {
        self.src == other.src && self.dst == other.dst
    }
}

/// Distinct pairs of numbered nodes. A pair stands in the chain of its source and in that of its
/// destination, so a walk over the pairs of a node takes no memory.
#[derive(Drop)]
pub struct PairTable {
    ends: IndexSet<Ends>,
    outward: Chains,
    inward: Chains,
}

impl Model for PairTable {
    ghost use Rattle.std.specs.Prelude.{min, length};
    ghost use Rattle.indexmap.specs.IndexSet.{spare};
    ghost use Rattle.graph_store.specs.PairIndex.{PairIndex, IsPairIndex};

    ghost Value = { PairIndex };

    ghost view = { λ t. record {
      nodes = length t.outward.lists;
      pairs = t.ends.keys;
      spare_nodes = min t.outward.spare_heads t.inward.spare_heads;
      spare_pairs = min (spare t.ends) (min t.outward.spare_links t.inward.spare_links);
    } };

    ghost invariant = { λ t. IsPairIndex t.ends.keys t.outward.lists t.inward.lists };
}

impl PairTable {
    ghost use Rattle.graph_store.specs.Ends.{same_ends};

    /// No node and no pair. It takes no memory.
    pub fn new(alloc: Global) -> PairTable
        ensures nodes { result.nodes ≡ 0 }
        ensures pairs { result.pairs ≡ [] }
    {
        PairTable {
            ends: IndexSet::new(alloc),
            outward: Chains::new(alloc),
            inward: Chains::new(alloc),
        }
    }

    /// How many pairs there are.
    pub fn len(&self) -> u32
        ensures len { result ≡ length self.now.pairs }
        ensures distinct { IsDistinct same_ends self.now.pairs }
    {
        self.ends.len() as u32
    }

    /// The number of a pair.
    pub fn find(&self, ends: Ends) -> Option<u32>
        ensures place { result ≡ position (same_ends ends) self.now.pairs }
        ensures known { is_some result ≡ list_any (same_ends ends) self.now.pairs }
    {
        match self.ends.get_index_of(&ends) {
            Some(place) => Some(place as u32),
            None => None,
        }
    }

    /// The ends of a pair.
    pub fn ends_of(&self, pair: u32) -> Ends
        requires { pair < length self.now.pairs }
        ensures { slice_get self.now.pairs pair ≡ Some result }
    {
        self.ends[pair as usize]
    }

    /// Makes room for so many more nodes and pairs.
    pub fn reserve(&mut self, nodes: u32, pairs: u32) -> Result<(), Memory>
        ensures nodes { self.new.nodes ≡ self.old.nodes }
        ensures pairs { self.new.pairs ≡ self.old.pairs }
        ensures room_for_nodes { OnOk result (nodes ≤ self.new.spare_nodes) }
        ensures room_for_pairs { OnOk result (pairs ≤ self.new.spare_pairs) }
    {
        self.ends.reserve(pairs as usize)?;
        self.outward.reserve(nodes, pairs)?;
        self.inward.reserve(nodes, pairs)
    }

    /// One more node, with no pair.
    pub fn add_node(&mut self)
        requires few { self.old.nodes < 2 ^ 32 - 1 }
        requires room { 0 < self.old.spare_nodes }
        ensures nodes { self.new.nodes ≡ self.old.nodes + 1 }
        ensures pairs { self.new.pairs ≡ self.old.pairs }
        ensures spare_nodes { self.old.spare_nodes ≤ self.new.spare_nodes + 1 }
        ensures spare_pairs { self.old.spare_pairs ≤ self.new.spare_pairs }
    {
        let _ = self.outward.add_head();
        let _ = self.inward.add_head();
    }

    /// The number of a new pair.
    pub fn add(&mut self, ends: Ends) -> u32
        requires new { list_any (same_ends ends) self.old.pairs ≡ false }
        requires src { ends.src < self.old.nodes }
        requires dst { ends.dst < self.old.nodes }
        requires few { length self.old.pairs < 2 ^ 32 - 1 }
        requires room { 0 < self.old.spare_pairs }
        ensures number { result ≡ length self.old.pairs }
        ensures nodes { self.new.nodes ≡ self.old.nodes }
        ensures pairs { self.new.pairs ≡ self.old.pairs ++ ends ∷ [] }
        ensures spare_nodes { self.old.spare_nodes ≤ self.new.spare_nodes }
    {
        let pair = self.ends.len() as u32;
        let _ = self.ends.insert(ends);
        let _ = self.outward.append(ends.src, pair);
        let _ = self.inward.append(ends.dst, pair);
        pair
    }

    /// The pairs that begin at a node.
    pub fn begin_at(&self, node: u32) -> ChainWalk<'_>
        requires { node < self.now.nodes }
        ensures { result ≡ pairs_from self.now.pairs node }
    {
        ChainWalk::along(&self.outward, node)
    }

    /// The pairs that end at a node.
    pub fn end_at(&self, node: u32) -> ChainWalk<'_>
        requires { node < self.now.nodes }
        ensures { result ≡ pairs_to self.now.pairs node }
    {
        ChainWalk::along(&self.inward, node)
    }
}
