//! Walks over the neighbours of a node.
ghost use Rattle.std.specs.Prelude.{◌≡◌, ◌<◌, length};
ghost use Rattle.graph_model.specs.declared.queries.Direction.TheVariants.{Outward};
ghost use Rattle.graph_model.specs.Neighbours.{leads};
ghost use Rattle.graph_store.specs.Contents.{name_at};
ghost use Rattle.view_trait.specs.Present.{AreNeighbours, is_new_start, out_left, into_left};
ghost use Rattle.view_trait.specs.Present.{ArePairs, IsNextNeighbour};

use crate::presence::pair_present;
use crate::view::View;
use graph_model::Direction;
use graph_store::{NodeId, PairId, PairWalk};
use std::marker::Model;
use std::sync::ledger::Ledger;
use time_column::Steps;

/// What is left of a walk over the neighbours of a node. A contract sees the numbers of the
/// neighbours yet to come. The walk follows links and takes no memory.
pub struct NeighbourWalk<'v, V: View> {
    view: &'v V,
    node: NodeId,
    both: bool,
    // The pairs that begin at the node, and those that end there, where they are asked.
    out: Option<PairWalk<'v>>,
    into: Option<PairWalk<'v>>,
}

impl<'v, V: View> Model for NeighbourWalk<'v, V> {
    ghost use Rattle.std.specs.Prelude.{ℕ, List};
    ghost use Rattle.view_trait.specs.Present.{numbers_left, IsNeighbourWalk};

    ghost Value = { List ℕ };

    ghost view = { λ w.
        numbers_left (V.contents w.view.now) (V.world w.view.now) w.node.0 w.both w.out w.into };

    ghost invariant = { λ w. IsNeighbourWalk (V.contents w.view.now) w.node.0 w.out w.into };
}

impl<V: View> Drop for NeighbourWalk<'_, V> {
    fn drop(self) {
        let NeighbourWalk {
            view: _,
            node: _,
            both: _,
            out: _,
            into: _,
        } = self;
    }
}

/// The neighbours of a node in a direction. It takes no memory.
pub fn neighbours<V: View>(view: &V, n: NodeId, direction: Direction) -> NeighbourWalk<'_, V>
    requires { n.0 < length (V.contents view.now).nodes }
    ensures { AreNeighbours (V.contents view.now) (V.world view.now) direction n.0 result }
{
    let store = view.store();
    let (out, into, both) = match direction {
        Direction::Outward => (Some(store.out_pairs(n)), None, false),
        Direction::Inward => (None, Some(store.in_pairs(n)), false),
        Direction::Both => (Some(store.out_pairs(n)), Some(store.in_pairs(n)), true),
    };
    NeighbourWalk {
        view,
        node: n,
        both,
        out,
        into,
    }
}

impl<V: View> NeighbourWalk<'_, V> {
    /// The next neighbour, or nothing once all were given. It asks the pairs that are left until
    /// one is present. No clause bounds its steps, since a contract sees the neighbours that are
    /// yet to come and not the pairs without a present edge between them.
    pub fn next<L: Ledger>(&mut self, steps: &mut Steps<L>) -> Option<NodeId>
        ensures { IsNextNeighbour self.old self.new result }
    {
        match next_end(self.view, &mut self.out, steps) {
            Some(end) => Some(end),
            None => next_start(self.view, self.node, self.both, &mut self.into, steps),
        }
    }
}

/// The destination of the next present pair.
fn next_end<V: View, L: Ledger>(
    view: &V,
    out: &mut Option<PairWalk<'_>>,
    steps: &mut Steps<L>,
) -> Option<NodeId>
    requires { ArePairs (V.contents view.now) out.old }
    ensures next { let left = out_left (V.contents view.now) (V.world view.now) in
        IsNextNeighbour (left out.old) (left out.new) result }
    ensures pairs { ArePairs (V.contents view.now) out.new }
{
    let Some(pairs) = out else {
        return None;
    };
    while let Some(p) = pairs.next() {
        if pair_present(view, p, steps) {
            let (_src, dst) = view.store().pair_ends(p);
            return Some(dst);
        }
    }
    None
}

/// The source of the next present pair that gives a new neighbour of its destination.
fn next_start<V: View, L: Ledger>(
    view: &V,
    n: NodeId,
    both: bool,
    into: &mut Option<PairWalk<'_>>,
    steps: &mut Steps<L>,
) -> Option<NodeId>
    requires node { n.0 < length (V.contents view.now).nodes }
    requires pairs { ArePairs (V.contents view.now) into.old }
    ensures next { let left = into_left (V.contents view.now) (V.world view.now) n.0 both in
        IsNextNeighbour (left into.old) (left into.new) result }
    ensures pairs { ArePairs (V.contents view.now) into.new }
{
    let Some(pairs) = into else {
        return None;
    };
    while let Some(p) = pairs.next() {
        if gives_start(view, n, both, p, steps) {
            let (src, _dst) = view.store().pair_ends(p);
            return Some(src);
        }
    }
    None
}

/// Whether a pair is present and, where both directions are asked, the reverse pair is not.
fn gives_start<V: View, L: Ledger>(
    view: &V,
    n: NodeId,
    both: bool,
    p: PairId,
    steps: &mut Steps<L>,
) -> bool
    requires node { n.0 < length (V.contents view.now).nodes }
    requires pair { p.0 < length (V.contents view.now).pairs }
    ensures { result ≡ is_new_start (V.contents view.now) (V.world view.now) n.0 both p.0 }
{
    let (src, _dst) = view.store().pair_ends(p);
    pair_present(view, p, steps) && !(both && leads_to(view, n, src, steps))
}

/// Whether a present edge leads from one node to another.
fn leads_to<V: View, L: Ledger>(view: &V, src: NodeId, dst: NodeId, steps: &mut Steps<L>) -> bool
    requires src { src.0 < length (V.contents view.now).nodes }
    requires dst { dst.0 < length (V.contents view.now).nodes }
    ensures { let name = name_at (V.contents view.now).nodes in
        result ≡ leads (V.world view.now) Outward (name src.0) (name dst.0) }
{
    match view.store().pair_of(src, dst) {
        Some(p) => pair_present(view, p, steps),
        None => false,
    }
}
