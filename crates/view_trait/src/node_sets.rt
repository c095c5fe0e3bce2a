//! The nodes of two lists.
ghost use Rattle.std.specs.Prelude.{◌≡◌, ◌≤◌, ◌<◌, ◌&&◌, ◌||◌, ℕ, length, true, false, IfOk};
ghost use Rattle.view_trait.specs.Numbered.{is_listed};

use crate::numbers::NodeList;
use graph_model::Memory;
use std::alloc::Global;

/// The nodes that two lists have in common.
pub fn common_nodes(alloc: Global, first: &NodeList, second: &NodeList) -> Result<NodeList, Memory>
    ensures { IfOk result (λ nodes. (n : ℕ)
        → is_listed nodes n ≡ (is_listed first.now n && is_listed second.now n)) }
{
    let mut nodes = NodeList::new(alloc);
    for i in 0..first.len() {
        let n = first.item(i);
        if second.contains(n) {
            nodes.push(n)?;
        }
    }
    Ok(nodes)
}

// Whether the next of two rising lists, of which some numbers are taken, is the first list's.
fn is_first_next(first: &NodeList, i: usize, second: &NodeList, j: usize) -> bool
    requires first { i ≤ length first.now }
    requires second { j ≤ length second.now }
    ensures first { result ≡ true → i < length first.now }
    ensures second { result ≡ false → i < length first.now → j < length second.now }
{
    if j < second.len() {
        i < first.len() && first.item(i).0 <= second.item(j).0
    } else {
        i < first.len()
    }
}

/// The nodes of two lists, merged.
pub fn all_nodes(alloc: Global, first: &NodeList, second: &NodeList) -> Result<NodeList, Memory>
    ensures { IfOk result (λ nodes. (n : ℕ)
        → is_listed nodes n ≡ (is_listed first.now n || is_listed second.now n)) }
{
    let first_count = first.len();
    let second_count = second.len();
    let mut nodes = NodeList::new(alloc);
    let mut i = 0;
    let mut j = 0;
    while i < first_count || j < second_count {
        if is_first_next(first, i, second, j) {
            nodes.push(first.item(i))?;
            i += 1;
        } else {
            nodes.push(second.item(j))?;
            j += 1;
        }
    }
    Ok(nodes)
}
