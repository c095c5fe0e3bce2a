//! Core numbers by peeling.
ghost use Rattle.std.specs.Prelude.{◌≡◌, ℕ, ◌+◌, ◌<◌, ◌≤◌, List, Bool, true, false, max, cond, nat_eq, length, slice_set, slice_index_or, replicate, vec_len, IfOk};
ghost use Rattle.link_chain.specs.Buckets.{count_of};
ghost use Rattle.present_links.specs.Adjacent.{row_at};
ghost use Rattle.core_algorithm.specs.Peeled.{how_many, is_left, degree_of, IsPeeled, IsPeeling, IsGraph, IsGreatest, AreShelved};

use graph_model::Memory;
use link_chain::Buckets;
use present_links::Adjacent;
use std::alloc::Global;

/// One neighbour less for a node, if it is left.
fn lower(buckets: &mut Buckets, degrees: &mut Vec<u32>, left: &[bool], node: u32)
    requires shelved { AreShelved buckets.old left.now degrees.old.items }
    requires node { node < length left.now }
    requires some { is_left left.now node ≡ true → 0 < degree_of degrees.old.items node }
    ensures shelved { AreShelved buckets.new left.now degrees.new.items }
    ensures degrees { (v : ℕ) → is_left left.now v ≡ true
        → degree_of degrees.new.items v + cond (nat_eq node v) 1 0 ≡ degree_of degrees.old.items v }
{
    if !left[node as usize] {
        return;
    }
    let degree = degrees[node as usize] - 1;
    degrees[node as usize] = degree;
    buckets.move_to(node, degree);
}

/// One neighbour less for each of some nodes that is left.
fn lower_each(buckets: &mut Buckets, degrees: &mut Vec<u32>, left: &[bool], nodes: &[u32])
    requires shelved { AreShelved buckets.old left.now degrees.old.items }
    requires nodes { (k : ℕ) → k < length nodes.now
        → slice_index_or nodes.now k 0 < length left.now }
    requires some { (v : ℕ) → is_left left.now v ≡ true
        → count_of v nodes.now ≤ degree_of degrees.old.items v }
    ensures shelved { AreShelved buckets.new left.now degrees.new.items }
    ensures degrees { (v : ℕ) → is_left left.now v ≡ true
        → degree_of degrees.new.items v + count_of v nodes.now ≡ degree_of degrees.old.items v }
{
    for i in 0..nodes.len() {
        lower(buckets, degrees, left, nodes[i]);
    }
}

/// Puts a node that is not left into the bucket of its degree.
fn place(
    buckets: &mut Buckets,
    degrees: &mut Vec<u32>,
    left: &mut Vec<bool>,
    node: u32,
    degree: u32,
)
    requires shelved { AreShelved buckets.old left.old.items degrees.old.items }
    requires node { node < length left.old.items }
    requires degree { degree < length left.old.items }
    requires free { is_left left.old.items node ≡ false }
    ensures shelved { AreShelved buckets.new left.new.items degrees.new.items }
    ensures left { left.new.items ≡ slice_set left.old.items node true }
    ensures degrees { degrees.new.items ≡ slice_set degrees.old.items node degree }
    ensures left_len { vec_len left.new ≡ vec_len left.old }
    ensures degrees_len { vec_len degrees.new ≡ vec_len degrees.old }
{
    left[node as usize] = true;
    degrees[node as usize] = degree;
    buckets.put(node, degree);
}

/// Takes a node that is left out of the buckets.
fn leave(buckets: &mut Buckets, left: &mut Vec<bool>, node: u32, _degrees: &[u32])
    requires shelved { AreShelved buckets.old left.old.items _degrees.now }
    requires node { is_left left.old.items node ≡ true }
    ensures shelved { AreShelved buckets.new left.new.items _degrees.now }
    ensures left { left.new.items ≡ slice_set left.old.items node false }
    ensures left_len { vec_len left.new ≡ vec_len left.old }
{
    left[node as usize] = false;
    buckets.take(node);
}

/// Puts every node into the bucket of its degree.
fn place_all(
    adjacent: &Adjacent,
    buckets: &mut Buckets,
    left: &mut Vec<bool>,
    degrees: &mut Vec<u32>,
)
    requires graph { IsGraph adjacent.now.rows }
    requires shelved { AreShelved buckets.old left.old.items degrees.old.items }
    requires len { length left.old.items ≡ length adjacent.now.rows }
    requires none { (v : ℕ) → is_left left.old.items v ≡ false }
    ensures shelved { AreShelved buckets.new left.new.items degrees.new.items }
    ensures len { length left.new.items ≡ length adjacent.now.rows }
    ensures all { (v : ℕ) → v < length adjacent.now.rows → is_left left.new.items v ≡ true }
    ensures degrees { (v : ℕ) → v < length adjacent.now.rows
        → degree_of degrees.new.items v ≡ length (row_at adjacent.now.rows v) }
{
    for v in 0..adjacent.len() {
        let degree = adjacent.neighbours(v).len();
        place(buckets, degrees, left, v as u32, degree as u32);
    }
}

/// So many zeros.
fn zeros(alloc: Global, len: usize) -> Result<Vec<u32>, Memory>
    ensures items { IfOk result (λ v. v.items ≡ replicate len 0) }
    ensures len { IfOk result (λ v. length v.items ≡ len) }
{
    vec![in alloc; 0; len]
}

/// So many times false.
fn flags(alloc: Global, len: usize) -> Result<Vec<bool>, Memory>
    ensures items { IfOk result (λ v. v.items ≡ replicate len false) }
    ensures len { IfOk result (λ v. length v.items ≡ len) }
{
    vec![in alloc; false; len]
}

/// What is left of a graph while its nodes are peeled, and the core numbers of the others.
#[derive(Drop)]
struct Peeling {
    buckets: Buckets,
    left: Vec<bool>,
    degrees: Vec<u32>,
    level: u32,
    numbers: Vec<u32>,
}

impl Peeling {
    /// Every node is left.
    fn start(alloc: Global, adjacent: &Adjacent) -> Result<Peeling, Memory>
        requires graph { IsGraph adjacent.now.rows }
        ensures { IfOk result (IsPeeling adjacent.now.rows) }
    {
        let len = adjacent.len();
        let numbers = zeros(alloc, len)?;
        let mut degrees = zeros(alloc, len)?;
        let mut left = flags(alloc, len)?;
        let mut buckets = Buckets::new(alloc, len as u32, len as u32)?;
        place_all(adjacent, &mut buckets, &mut left, &mut degrees);
        Ok(Peeling {
            buckets,
            left,
            degrees,
            level: 0,
            numbers,
        })
    }

    /// Peels a node of the least degree.
    fn peel(&mut self, adjacent: &Adjacent, node: u32, degree: u32)
        requires graph { IsGraph adjacent.now.rows }
        requires state { IsPeeling adjacent.now.rows self.old }
        requires here { is_left self.old.left.items node ≡ true }
        requires degree { degree_of self.old.degrees.items node ≡ degree }
        requires least { (u : ℕ) → is_left self.old.left.items u ≡ true
            → degree ≤ degree_of self.old.degrees.items u }
        ensures state { IsPeeling adjacent.now.rows self.new }
        ensures left { self.new.left.items ≡ slice_set self.old.left.items node false }
    {
        leave(
            &mut self.buckets,
            &mut self.left,
            node,
            self.degrees.as_slice(),
        );
        let level = self.level.max(degree);
        self.level = level;
        self.numbers[node as usize] = level;
        let others = adjacent.neighbours(node as usize);
        lower_each(
            &mut self.buckets,
            &mut self.degrees,
            self.left.as_slice(),
            others,
        );
    }

    /// Peels every node.
    fn peel_all(&mut self, adjacent: &Adjacent)
        requires graph { IsGraph adjacent.now.rows }
        requires state { IsPeeling adjacent.now.rows self.old }
        ensures count { length self.new.numbers.items ≡ length adjacent.now.rows }
        ensures numbers { (v : ℕ) → v < length adjacent.now.rows
            → IsGreatest adjacent.now.rows v (slice_index_or self.new.numbers.items v 0) }
    {
        while let Some((node, degree)) = self.buckets.least() {
            self.peel(adjacent, node, degree);
        }
    }
}

/// The core number of each node of a graph, by its place: the greatest `k` for which some set of
/// nodes has the node, and in it each node has at least `k` neighbours.
///
/// A node with the fewest neighbours left is taken away, and so on until none is left. The number
/// of a node is the highest such count so far, when it is taken away (Batagelj and Zaversnik, An
/// O(m) Algorithm for Cores Decomposition of Networks, 2003).
///
/// The time is linear in the nodes and links. Each node is put into its bucket and taken out of it
/// once, and each of its neighbours that is left is moved once, to the bucket below; so there are
/// at most as many moves as neighbours of all nodes. A put, a take or a move writes a few places,
/// and the search for the lowest bucket makes in all at most as many steps as there are buckets and
/// moves, since a move lowers it by one at most.
pub fn peeled(alloc: Global, adjacent: &Adjacent) -> Result<Vec<u32>, Memory>
    requires graph { IsGraph adjacent.now.rows }
    ensures count { IfOk result (λ numbers. length numbers.items ≡ length adjacent.now.rows) }
    ensures numbers { IfOk result (λ numbers. (v : ℕ) → v < length adjacent.now.rows
        → IsGreatest adjacent.now.rows v (slice_index_or numbers.items v 0)) }
{
    let mut peeling = Peeling::start(alloc, adjacent)?;
    peeling.peel_all(adjacent);
    Ok(peeling.numbers)
}
