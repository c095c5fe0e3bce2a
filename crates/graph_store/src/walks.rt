//! Walks over pairs and over edges.
ghost use Rattle.std.specs.Prelude.{◌≡◌};

use link_chain::{ChainWalk, NumberWalk};
use std::marker::Model;

/// The number of a node.
#[derive(Clone, Copy, Debug, PartialEq, Eq)]
pub struct NodeId(pub u32);

/// The number of an edge.
#[derive(Clone, Copy, Debug, PartialEq, Eq)]
pub struct EdgeId(pub u32);

/// The number of a pair: a source and a destination.
#[derive(Clone, Copy, Debug, PartialEq, Eq)]
pub struct PairId(pub u32);

/// A walk over pairs. A contract sees the numbers of the pairs yet to come.
#[derive(Drop)]
pub struct PairWalk<'a> {
    links: ChainWalk<'a>,
}

impl<'a> Model for PairWalk<'a> {
    ghost use Rattle.std.specs.Prelude.{ℕ, List};

    ghost Value = { List ℕ };

    ghost view = { λ w. w.links };
}

impl<'a> PairWalk<'a> {
    /// The pairs whose numbers a walk along a chain gives.
    pub fn over(links: ChainWalk<'a>) -> PairWalk<'a>
        ensures { result ≡ links.entry }
    {
        PairWalk { links }
    }
}

impl Iterator for PairWalk<'_> {
    ghost use Rattle.std.specs.Iterator.{YieldsFirstBy, item_count};
    ghost use Rattle.graph_store.specs.declared.walks.PairId.{PairId};

    type Item = PairId;

    ghost next_gives = { YieldsFirstBy (λ (p : PairId). p.0) (λ rest. rest) };

    ghost remaining = { item_count (λ rest. rest) };

    fn next(&mut self) -> Option<PairId> {
        match self.links.step() {
            Some(pair) => Some(PairId(pair)),
            None => None,
        }
    }
}

/// A walk over edges. A contract sees the numbers of the edges yet to come.
#[derive(Drop)]
pub struct EdgeWalk<'a> {
    numbers: NumberWalk<'a>,
}

impl<'a> Model for EdgeWalk<'a> {
    ghost use Rattle.std.specs.Prelude.{ℕ, List};

    ghost Value = { List ℕ };

    ghost view = { λ w. w.numbers };
}

impl<'a> EdgeWalk<'a> {
    /// The edges whose numbers a walk gives.
    pub fn over(numbers: NumberWalk<'a>) -> EdgeWalk<'a>
        ensures { result ≡ numbers.entry }
    {
        EdgeWalk { numbers }
    }
}

impl Iterator for EdgeWalk<'_> {
    ghost use Rattle.std.specs.Iterator.{YieldsFirstBy, item_count};
    ghost use Rattle.graph_store.specs.declared.walks.EdgeId.{EdgeId};

    type Item = EdgeId;

    ghost next_gives = { YieldsFirstBy (λ (e : EdgeId). e.0) (λ rest. rest) };

    ghost remaining = { item_count (λ rest. rest) };

    fn next(&mut self) -> Option<EdgeId> {
        match self.numbers.step() {
            Some(edge) => Some(EdgeId(edge)),
            None => None,
        }
    }
}
