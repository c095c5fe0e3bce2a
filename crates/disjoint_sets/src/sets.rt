//! Disjoint sets of numbers, of which two at a time are joined.
ghost use Rattle.std.specs.Prelude.{◌≡◌, ◌<◌, length, map, set, slice_get, slice_index_or, Some, IfOk};
ghost use Rattle.std.specs.List.{range_with_len};
ghost use Rattle.disjoint_sets.specs.Sets.{AreParents, joined, least_numbers};

use crate::Memory;
use std::alloc::Global;
use std::marker::Model;

/// The numbers below some count, in disjoint sets. A contract sees, for each number, the least one of
/// its set. It is a union-find forest (Galler and Fischer, 1964) in which the lesser root stays, with
/// halving of paths (Tarjan and van Leeuwen, 1984).
#[derive(Drop)]
pub struct DisjointSets {
    // For each number a lesser one of its set, and itself for the least.
    parents: Vec<u32>,
}

impl Model for DisjointSets {
    ghost use Rattle.std.specs.Prelude.{List, ℕ};
    ghost use Rattle.disjoint_sets.specs.Sets.{AreParents, least_numbers};

    ghost Value = { List ℕ };

    ghost view = { λ s. least_numbers s.parents.items };

    ghost invariant = { λ s. AreParents s.parents.items };
}

/// The least number of the set of one. Each second number on the way is given the parent of its parent.
fn find(parents: &mut Vec<u32>, number: u32) -> u32
    requires parents { AreParents parents.old.items }
    requires number { number < length parents.old.items }
    ensures parents { AreParents parents.new.items }
    ensures same { least_numbers parents.new.items ≡ least_numbers parents.old.items }
    ensures least { slice_get (least_numbers parents.old.items) number ≡ Some result }
{
    let mut at = number;
    while parents[at as usize] != at {
        let next = parents[parents[at as usize] as usize];
        parents[at as usize] = next;
        at = next;
    }
    at
}

/// Gives the greater of two numbers that are least in their sets the lesser one as its parent.
fn unite(parents: &mut Vec<u32>, a: u32, b: u32)
    requires parents { AreParents parents.old.items }
    requires a { slice_get parents.old.items a ≡ Some a }
    requires b { slice_get parents.old.items b ≡ Some b }
    ensures parents { AreParents parents.new.items }
    ensures joined { least_numbers parents.new.items ≡ joined a b (least_numbers parents.old.items) }
{
    if a < b {
        parents[b as usize] = a;
    } else {
        parents[a as usize] = b;
    }
}

impl DisjointSets {
    /// Each number below a count alone in its set. It takes 4 bytes a number.
    pub fn new(alloc: Global, count: u32) -> Result<DisjointSets, Memory>
        ensures { IfOk result (λ sets. sets ≡ range_with_len 0 count) }
    {
        let mut parents = Vec::with_capacity(alloc, count as usize)?;
        for number in 0..count {
            parents.push(number)?;
        }
        Ok(DisjointSets { parents })
    }

    /// The least number of the set of one.
    pub fn least(&mut self, number: u32) -> u32
        requires { number < length self.old }
        ensures same { self.new ≡ self.old }
        ensures least { slice_get self.old number ≡ Some result }
    {
        find(&mut self.parents, number)
    }

    /// Joins the sets of two numbers. It takes no memory.
    pub fn join(&mut self, a: u32, b: u32)
        requires a { a < length self.old }
        requires b { b < length self.old }
        ensures { let least_of = slice_index_or self.old in
            self.new ≡ joined (least_of a 0) (least_of b 0) self.old }
    {
        let a = find(&mut self.parents, a);
        let b = find(&mut self.parents, b);
        unite(&mut self.parents, a, b);
    }
}
