//! Edges between nodes, numbered, and linked by their pairs.
ghost use Rattle.std.specs.Prelude.{◌≡◌, ℕ, ◌+◌, ◌-◌, ◌^◌, ◌<◌, ◌≤◌, List, [], ◌∷◌, ◌++◌, Some, is_some, false, if◌then◌else◌, position, length, slice_get, OnOk};
ghost use Rattle.std.specs.List.{AllByRecursion, IsDistinct, find, list_any};
ghost use Rattle.indexmap.specs.IndexSet.{insert_key};
ghost use Rattle.graph_store.specs.Ends.{same_ends, ends_at};
ghost use Rattle.graph_store.specs.EdgeParts.{is_in};
ghost use Rattle.graph_store.specs.PairIndex.{pairs_from, pairs_to};

use crate::pairs::{Ends, PairTable};
use graph_model::Memory;
use link_chain::{ChainWalk, NumberLists, NumberWalk};
use std::alloc::Global;
use std::marker::Model;

/// An edge, by the numbers of its source, its destination and its layer.
#[derive(Clone, Copy, Eq)]
pub struct EdgeParts {
    pub src: u32,
    pub dst: u32,
    pub layer: u8,
}

impl PartialEq for EdgeParts {
    ghost use Rattle.std.proofs.Common.{rules};
    ghost use Rattle.std.specs.Cmp.Rules.{comparing};
    ghost use Rattle.graph_store.specs.EdgeParts.{same_parts};

    ghost eq = { same_parts };

    ghost laws = { Prim.search (comparing, rules) };

    fn eq(&self, other: &EdgeParts) -> bool {
        self.src == other.src && self.dst == other.dst && self.layer == other.layer
    }
}

impl EdgeParts {
    ghost use Rattle.graph_store.specs.EdgeParts.{ends_of};

    /// The pair that the edge belongs to.
    pub fn ends(self) -> Ends
        ensures { result ≡ ends_of self }
    {
        Ends {
            src: self.src,
            dst: self.dst,
        }
    }
}

/// Distinct edges between numbered nodes, and their pairs. An edge stands in the list of its pair,
/// so a walk over the edges of a pair takes no memory, and an edge is found along the list of its
/// pair, which has one for each layer at the most. The first three lie side by side.
///
/// An edge lies here as the number of its pair and its layer, in 5 bytes, since its ends are those of
/// the pair.
#[derive(Drop)]
pub struct EdgeTable {
    pair_of: Vec<u32>,
    layer_of: Vec<u8>,
    pairs: PairTable,
    of_pair: NumberLists,
}

impl Model for EdgeTable {
    ghost use Rattle.std.specs.Prelude.{min, ◌-◌, vec_len, vec_capacity};
    ghost use Rattle.graph_store.specs.EdgeIndex.{EdgeIndex, IsEdgeIndex, edges_from, HavePairs};

    ghost Value = { EdgeIndex };

    ghost view = { λ t. record {
      nodes = t.pairs.nodes;
      edges = edges_from t.pairs.pairs t.pair_of.items t.layer_of.items;
      pairs = t.pairs.pairs;
      spare_nodes = t.pairs.spare_nodes;
      spare_edges = min
          (min
          (min (vec_capacity t.pair_of - vec_len t.pair_of)
          (vec_capacity t.layer_of - vec_len t.layer_of))
          t.pairs.spare_pairs)
          (min t.of_pair.spare_lists t.of_pair.spare_links);
    } };

    ghost invariant = { λ t. HavePairs t.pairs.pairs t.pair_of.items t.layer_of.items
        × IsEdgeIndex (edges_from t.pairs.pairs t.pair_of.items t.layer_of.items) t.pairs
        t.of_pair.lists t.of_pair.links };
}

/// The number of a pair, which is new or known.
fn number_of_pair(pairs: &mut PairTable, of_pair: &mut NumberLists, ends: Ends) -> u32
    requires src { ends.src < pairs.old.nodes }
    requires dst { ends.dst < pairs.old.nodes }
    requires lists { length of_pair.old.lists ≡ length pairs.old.pairs }
    requires few { length pairs.old.pairs < 2 ^ 32 - 1 }
    requires room { 0 < pairs.old.spare_pairs }
    requires list_room { 0 < of_pair.old.spare_lists }
    ensures nodes { pairs.new.nodes ≡ pairs.old.nodes }
    ensures pairs { pairs.new.pairs ≡ insert_key same_ends pairs.old.pairs ends }
    ensures within { result < length pairs.new.pairs }
    ensures number { ends_at pairs.new.pairs result ≡ ends }
    ensures lists { of_pair.new.lists ≡ (if list_any (same_ends ends) pairs.old.pairs
        then of_pair.old.lists else of_pair.old.lists ++ [] ∷ []) }
    ensures distinct { IsDistinct same_ends pairs.new.pairs }
    ensures spare_nodes { pairs.old.spare_nodes ≤ pairs.new.spare_nodes }
    ensures links { of_pair.new.links ≡ of_pair.old.links }
    ensures spare_links { of_pair.new.spare_links ≡ of_pair.old.spare_links }
{
    let _count = pairs.len();
    if let Some(pair) = pairs.find(ends) {
        return pair;
    }
    let pair = pairs.add(ends);
    let _ = of_pair.add_list();
    let _count = pairs.len();
    pair
}

/// The first edge of a walk that is in a layer.
fn first_in_layer(layers: &[u8], mut edges: NumberWalk<'_>, layer: u8) -> Option<u32>
    requires { AllByRecursion (λ e. e < length layers.now) edges }
    ensures { result ≡ find (is_in layers.now layer) edges.entry }
{
    while let Some(edge) = edges.step() {
        if layers[edge as usize] == layer {
            return Some(edge);
        }
    }
    None
}

impl EdgeTable {
    ghost use Rattle.graph_store.specs.EdgeParts.{same_parts, ends_of, parts_at};
    ghost use Rattle.graph_store.specs.EdgeIndex.{edges_between};

    /// No node and no edge. It takes no memory.
    pub fn new(alloc: Global) -> EdgeTable
        ensures nodes { result.nodes ≡ 0 }
        ensures edges { result.edges ≡ [] }
        ensures pairs { result.pairs ≡ [] }
    {
        EdgeTable {
            pair_of: Vec::new(alloc),
            layer_of: Vec::new(alloc),
            pairs: PairTable::new(alloc),
            of_pair: NumberLists::new(alloc),
        }
    }

    /// How many edges there are.
    pub fn len(&self) -> u32
        ensures len { result ≡ length self.now.edges }
        ensures distinct { IsDistinct same_parts self.now.edges }
        ensures within { (e : ℕ) → e < length self.now.edges
            → ((parts_at self.now.edges e).src < self.now.nodes)
            × ((parts_at self.now.edges e).dst < self.now.nodes) }
        ensures known { (ends : Ends) → list_any (same_ends ends) self.now.pairs
            ≡ list_any (λ (e : EdgeParts). same_ends ends (ends_of e)) self.now.edges }
    {
        self.pair_of.len() as u32
    }

    /// How many pairs there are.
    pub fn pairs(&self) -> u32
        ensures len { result ≡ length self.now.pairs }
        ensures distinct { IsDistinct same_ends self.now.pairs }
    {
        self.pairs.len()
    }

    /// The number of an edge.
    pub fn find(&self, parts: EdgeParts) -> Option<u32>
        ensures place { result ≡ position (same_parts parts) self.now.edges }
        ensures known { is_some result ≡ list_any (same_parts parts) self.now.edges }
    {
        let pair = self.pairs.find(parts.ends())?;
        first_in_layer(self.layer_of.as_slice(), self.edges_of(pair), parts.layer)
    }

    /// The number of a pair.
    pub fn find_pair(&self, ends: Ends) -> Option<u32>
        ensures place { result ≡ position (same_ends ends) self.now.pairs }
        ensures known { is_some result
            ≡ list_any (λ (e : EdgeParts). same_ends ends (ends_of e)) self.now.edges }
    {
        self.pairs.find(ends)
    }

    /// The parts of an edge.
    pub fn parts_of(&self, edge: u32) -> EdgeParts
        requires { edge < length self.now.edges }
        ensures { slice_get self.now.edges edge ≡ Some result }
    {
        let ends = self.pairs.ends_of(self.pair_of[edge as usize]);
        EdgeParts {
            src: ends.src,
            dst: ends.dst,
            layer: self.layer_of[edge as usize],
        }
    }

    /// The ends of a pair.
    pub fn pair_ends(&self, pair: u32) -> Ends
        requires { pair < length self.now.pairs }
        ensures { slice_get self.now.pairs pair ≡ Some result }
    {
        self.pairs.ends_of(pair)
    }

    /// Makes room for so many more nodes and edges.
    pub fn reserve(&mut self, nodes: u32, edges: u32) -> Result<(), Memory>
        ensures nodes { self.new.nodes ≡ self.old.nodes }
        ensures edges { self.new.edges ≡ self.old.edges }
        ensures pairs { self.new.pairs ≡ self.old.pairs }
        ensures room_for_nodes { OnOk result (nodes ≤ self.new.spare_nodes) }
        ensures room_for_edges { OnOk result (edges ≤ self.new.spare_edges) }
    {
        self.pair_of.reserve(edges as usize)?;
        self.layer_of.reserve(edges as usize)?;
        self.pairs.reserve(nodes, edges)?;
        self.of_pair.reserve(edges, edges)
    }

    /// One more node, with no edge.
    pub fn add_node(&mut self)
        requires few { self.old.nodes < 2 ^ 32 - 1 }
        requires room { 0 < self.old.spare_nodes }
        ensures nodes { self.new.nodes ≡ self.old.nodes + 1 }
        ensures edges { self.new.edges ≡ self.old.edges }
        ensures pairs { self.new.pairs ≡ self.old.pairs }
        ensures spare_nodes { self.old.spare_nodes ≤ self.new.spare_nodes + 1 }
        ensures spare_edges { self.old.spare_edges ≤ self.new.spare_edges }
    {
        self.pairs.add_node();
    }

    /// The number of a new edge. Its pair is new or known.
    pub fn add(&mut self, parts: EdgeParts) -> u32
        requires new { list_any (same_parts parts) self.old.edges ≡ false }
        requires src { parts.src < self.old.nodes }
        requires dst { parts.dst < self.old.nodes }
        requires few { length self.old.edges < 2 ^ 32 - 1 }
        requires room { 0 < self.old.spare_edges }
        ensures number { result ≡ length self.old.edges }
        ensures nodes { self.new.nodes ≡ self.old.nodes }
        ensures edges { self.new.edges ≡ self.old.edges ++ parts ∷ [] }
        ensures pairs { self.new.pairs ≡ insert_key same_ends self.old.pairs (ends_of parts) }
        ensures spare_nodes { self.old.spare_nodes ≤ self.new.spare_nodes }
    {
        let edge = self.pair_of.len() as u32;
        let pair = number_of_pair(&mut self.pairs, &mut self.of_pair, parts.ends());
        self.pair_of.push_reserved(pair);
        self.layer_of.push_reserved(parts.layer);
        self.of_pair.append(pair, edge);
        edge
    }

    /// The pairs that begin at a node.
    pub fn begin_at(&self, node: u32) -> ChainWalk<'_>
        requires { node < self.now.nodes }
        ensures { result ≡ pairs_from self.now.pairs node }
    {
        self.pairs.begin_at(node)
    }

    /// The pairs that end at a node.
    pub fn end_at(&self, node: u32) -> ChainWalk<'_>
        requires { node < self.now.nodes }
        ensures { result ≡ pairs_to self.now.pairs node }
    {
        self.pairs.end_at(node)
    }

    /// The edges of a pair.
    pub fn edges_of(&self, pair: u32) -> NumberWalk<'_>
        requires { pair < length self.now.pairs }
        ensures { result ≡ edges_between self.now.edges (ends_at self.now.pairs pair) }
    {
        self.of_pair.walk(pair)
    }
}
