//! Each call once, with lists worked by hand.
ghost use Rattle.std.specs.Prelude.{◌≡◌, ◌<◌, length, IfOk};
ghost use Rattle.link_chain.specs.Chains.{items_at};
ghost use Rattle.link_chain.specs.NumberLists.{numbers_at};

use link_chain::{Buckets, Chains, Memory, NumberLists};
use std::alloc::Global;
use std::test::Fail;

/// The items of a head's list, in order.
fn items_of(alloc: Global, chains: &Chains, head: u32) -> Result<Vec<u32>, Memory>
    requires { head < length chains.now.lists }
    ensures { IfOk result (λ items. items.items ≡ items_at chains.now.lists head) }
{
    let mut items = Vec::new(alloc);
    let mut at = chains.first(head);
    while let Some(link) = at {
        items.push(chains.item(link))?;
        at = chains.next(link);
    }
    Ok(items)
}

/// An edge from `a` to `b` in two layers and one from `b` to `c`: pair 0 has the edges 0 and 2, pair 1
/// has the edge 1, and a third pair has no edge yet.
#[test]
fn edges_of_pairs(rt: HostRuntime) -> Result<(), Fail> {
    let mut edges = Chains::new(rt.alloc());
    edges.reserve(3, 3)?;
    let ab = edges.add_head()?;
    edges.append(ab, 0)?;
    let bc = edges.add_head()?;
    edges.append(bc, 1)?;
    edges.append(ab, 2)?;
    let ca = edges.add_head()?;
    assert_eq!(rt; (ab, bc, ca), (0, 1, 2));
    assert_eq!(rt;
        items_of(rt.alloc(), &edges, ab)?.as_slice(),
        [0, 2].as_slice()
    );
    assert_eq!(rt;
        items_of(rt.alloc(), &edges, bc)?.as_slice(),
        [1].as_slice()
    );
    assert!(rt; items_of(rt.alloc(), &edges, ca)?.is_empty());
    Ok(())
}

/// The numbers of a list, in order.
fn numbers_of(alloc: Global, lists: &NumberLists, list: u32) -> Result<Vec<u32>, Memory>
    requires { list < length lists.now.lists }
    ensures { IfOk result (λ numbers. numbers.items ≡ numbers_at lists.now.lists list) }
{
    let mut numbers = Vec::new(alloc);
    let mut walk = lists.walk(list);
    while let Some(number) = walk.step() {
        numbers.push(number)?;
    }
    Ok(numbers)
}

/// | List | Numbers            | Of these in a chain |
/// |------|--------------------|---------------------|
/// | 0    | none               | none                |
/// | 1    | 10, 11, 12, 13, 14 | 13, 14              |
/// | 2    | 20                 | none                |
#[test]
fn long_list_beside_short_ones(rt: HostRuntime) -> Result<(), Fail> {
    let mut lists = NumberLists::new(rt.alloc());
    lists.reserve(3, 6)?;
    let none = lists.add_list();
    let many = lists.add_list();
    let one = lists.add_list();
    assert_eq!(rt; (none, many, one), (0, 1, 2));
    lists.append(many, 10);
    lists.append(many, 11);
    lists.append(one, 20);
    lists.append(many, 12);
    lists.append(many, 13);
    lists.append(many, 14);
    assert!(rt; numbers_of(rt.alloc(), &lists, none)?.is_empty());
    assert_eq!(rt;
        numbers_of(rt.alloc(), &lists, many)?.as_slice(),
        [10, 11, 12, 13, 14].as_slice()
    );
    assert_eq!(rt;
        numbers_of(rt.alloc(), &lists, one)?.as_slice(),
        [20].as_slice()
    );
    Ok(())
}

/// A triangle of the nodes 0, 1 and 2 with a tail, node 3, at node 2, in the buckets of their degrees,
/// as they are peeled: the core numbers are 2, 2, 2 and 1.
#[test]
fn triangle_with_a_tail_is_peeled(rt: HostRuntime) -> Result<(), Fail> {
    let mut degrees = Buckets::new(rt.alloc(), 4, 4)?;
    assert_eq!(rt; degrees.least(), None);
    degrees.put(0, 2);
    degrees.put(1, 2);
    degrees.put(2, 3);
    degrees.put(3, 1);
    assert_eq!(rt; degrees.least(), Some((3, 1)));
    degrees.take(3);
    degrees.move_to(2, 2);
    assert_eq!(rt; degrees.least(), Some((2, 2)));
    degrees.take(2);
    degrees.move_to(0, 1);
    degrees.move_to(1, 1);
    assert_eq!(rt; degrees.least(), Some((1, 1)));
    degrees.take(1);
    degrees.move_to(0, 0);
    assert_eq!(rt; degrees.least(), Some((0, 0)));
    degrees.take(0);
    assert_eq!(rt; degrees.least(), None);
    Ok(())
}
