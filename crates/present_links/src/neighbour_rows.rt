//! The neighbours of nodes by links.
ghost use Rattle.std.specs.Prelude.{◌≡◌, ℕ, ◌+◌, ◌≤◌, ◌++◌, length, map, slice_index_or, IfOk, OnOk};
ghost use Rattle.std.specs.Ordering.{nat_cmp};
ghost use Rattle.graph_model.specs.Rising.{Rises, rising};
ghost use Rattle.view_trait.specs.Numbered.{is_listed};
ghost use Rattle.present_links.specs.Links.{ends_cmp, ends_in, is_end, link_ends};
ghost use Rattle.present_links.specs.Adjacent.{AreAdjacent, place_among, placed, ways_along, ways_before, ways_of};

use crate::adjacency::Adjacent;
use crate::link_list::{Link, Links};
use crate::node_rows::link_nodes;
use graph_model::{Direction, Memory};
use std::alloc::Global;

/// How many of some numbers that rise are less than one: its place, where it is among them.
fn place_in(numbers: &[u32], n: u32) -> usize
    requires { Rises nat_cmp numbers.now }
    ensures place { result ≡ place_among numbers.now n }
    ensures small { result ≤ n }
{
    numbers.partition_point(|m| *m < n)
}

/// A link by the places of its ends among nodes that rise.
fn placed_link(nodes: &[u32], link: Link) -> Link
    requires { Rises nat_cmp nodes.now }
    ensures { link_ends result ≡ placed nodes.now (link_ends link) }
{
    Link {
        src: place_in(nodes, link.src) as u32,
        dst: place_in(nodes, link.dst) as u32,
    }
}

/// Adds the ways that a link leads in a direction.
fn push_ways(ways: &mut Vec<Link>, link: Link, direction: Direction) -> Result<(), Memory>
    ensures { let more = ways_along direction (link_ends link) in
        OnOk result (ends_in ways.new.items ≡ ends_in ways.old.items ++ more) }
{
    let back = Link {
        src: link.dst,
        dst: link.src,
    };
    match direction {
        Direction::Outward => ways.push(link)?,
        Direction::Inward => ways.push(back)?,
        Direction::Both if link.src == link.dst => (),
        Direction::Both => {
            ways.push(link)?;
            ways.push(back)?;
        }
    }
    Ok(())
}

/// The ways that links lead in a direction, by the places of their ends.
fn ways(
    alloc: Global,
    links: &Links,
    nodes: &[u32],
    direction: Direction,
) -> Result<Vec<Link>, Memory>
    requires { Rises nat_cmp nodes.now }
    ensures { IfOk result (λ ways. ends_in ways.items ≡ ways_of nodes.now direction links.now) }
{
    let mut ways = Vec::with_capacity(alloc, links.len())?;
    for i in 0..links.len() {
        push_ways(&mut ways, placed_link(nodes, links.item(i)), direction)?;
    }
    Ok(ways)
}

/// The same ways, each once, rising.
fn rising_ways(
    alloc: Global,
    links: &Links,
    nodes: &[u32],
    direction: Direction,
) -> Result<Vec<Link>, Memory>
    requires { Rises nat_cmp nodes.now }
    ensures { let ways = ways_of nodes.now direction links.now in
        IfOk result (λ rising_ways. ends_in rising_ways.items ≡ rising ends_cmp ways) }
{
    let ways = ways(alloc, links, nodes, direction)?;
    Ok(Links::from_vec(ways).into_vec())
}

/// The numbers of the nodes where a link begins or ends, each once, rising.
fn end_nodes(alloc: Global, links: &Links) -> Result<Vec<u32>, Memory>
    ensures rise { IfOk result (λ nodes. Rises nat_cmp nodes.items) }
    ensures nodes { let end = is_end links.now in
        IfOk result (λ nodes. (n : ℕ) → is_listed nodes.items n ≡ end n) }
{
    let mut nodes = link_nodes(alloc, links)?;
    nodes.sort_unstable();
    nodes.dedup();
    Ok(nodes)
}

/// How many ways begin before each of so many places, and before the place behind them.
fn starts_of(alloc: Global, ways: &[Link], count: usize) -> Result<Vec<usize>, Memory>
    requires rise { Rises ends_cmp (ends_in ways.now) }
    ensures count { IfOk result (λ starts. length starts.items ≡ count + 1) }
    ensures starts { IfOk result (λ starts. (v : ℕ) → v ≤ count
        → slice_index_or starts.items v 0 ≡ ways_before (ends_in ways.now) v) }
{
    let mut starts = Vec::new(alloc);
    starts.push(0)?;
    for v in 0..count {
        let next = v + 1;
        starts.push(ways.partition_point(|way| (way.src as usize) < next))?;
    }
    Ok(starts)
}

/// The places where ways end.
fn ends_of(alloc: Global, ways: &[Link]) -> Result<Vec<u32>, Memory>
    ensures { IfOk result (λ ends. ends.items ≡ map (λ way. way.dst) ways.now) }
{
    let mut ends = Vec::with_capacity(alloc, ways.len())?;
    for way in ways {
        ends.push(way.dst)?;
    }
    Ok(ends)
}

/// The neighbours in a direction of all nodes where a link begins or ends. Both ways a node is no
/// neighbour of its own, and a neighbour to which a link leads and from which one leads back stands
/// once. The ways that links lead are sorted, and the places of their ends found by binary search,
/// so `m` links take time in the order of `m log m`. It takes memory for these links and nodes
/// alone, and none for the other pairs and nodes of the store.
pub fn adjacent(alloc: Global, links: &Links, direction: Direction) -> Result<Adjacent, Memory>
    ensures { IfOk result (AreAdjacent links.now direction) }
{
    let nodes = end_nodes(alloc, links)?;
    let ways = rising_ways(alloc, links, nodes.as_slice(), direction)?;
    let starts = starts_of(alloc, ways.as_slice(), nodes.len())?;
    let others = ends_of(alloc, ways.as_slice())?;
    Ok(Adjacent::from_parts(nodes, starts, others))
}
