//! Edges that may be taken, the least moment first.
ghost use Rattle.std.specs.Prelude.{◌≡◌, ◌≤ℤ◌, [], ◌∷◌, OnOk, MatchOption};
ghost use Rattle.std.specs.List.{AllByRecursion};
ghost use Rattle.std.specs.List.Sorted.{IsPermutation};

use graph_model::Memory;
use std::alloc::Global;
use std::cmp::Reverse;
use std::collections::BinaryHeap;
use std::marker::Model;

/// Moments, each with the number of an edge that may be taken then. A contract sees them as a list,
/// in no particular order.
#[derive(Drop)]
pub struct Frontier {
    heap: BinaryHeap<Reverse<(i64, u32)>>,
}

impl Model for Frontier {
    ghost use Rattle.std.specs.Prelude.{ℕ, ℤ, List, map};
    ghost use Rattle.std.specs.BinaryHeap.{IsHeap, heap_items};
    ghost use Rattle.std.specs.Ordering.{ordering_then, int_cmp, nat_cmp};

    ghost Value = { List (ℤ × ℕ) };

    ghost view = { λ f. map (λ x. (x.0.0, x.0.1)) (heap_items f.heap) };

    ghost invariant = { λ f.
        IsHeap (λ x y. ordering_then (int_cmp y.0.0 x.0.0) (nat_cmp y.0.1 x.0.1)) (heap_items f.heap) };
}

impl Frontier {
    /// No edge. It takes no memory.
    pub fn new(alloc: Global) -> Frontier
        ensures { result ≡ [] }
    {
        Frontier {
            heap: BinaryHeap::new(alloc),
        }
    }

    /// Adds an edge with a moment.
    pub fn push(&mut self, moment: i64, edge: u32) -> Result<(), Memory>
        ensures { OnOk result (IsPermutation ((moment, edge) ∷ self.old) self.new) }
    {
        self.heap.push(Reverse((moment, edge)))?;
        Ok(())
    }

    /// Takes out an edge with the least moment.
    pub fn pop(&mut self) -> Option<(i64, u32)>
        ensures { MatchOption result (self.old ≡ [])
            (λ x. IsPermutation self.old (x ∷ self.new) × AllByRecursion (λ y. x.0 ≤ℤ y.0) self.new) }
    {
        match self.heap.pop() {
            Some(Reverse(first)) => Some(first),
            None => None,
        }
    }
}
