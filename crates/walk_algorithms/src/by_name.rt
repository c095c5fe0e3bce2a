//! Visited nodes in the order of their names.
ghost use Rattle.std.specs.Prelude.{◌≡◌, length, map, IfOk, IsPermutation};
ghost use Rattle.std.specs.List.{All};
ghost use Rattle.walk_laws.specs.Numbers.{NamesRise};
ghost use Rattle.walk_algorithms.specs.Visits.{IsNamed, visit_of};

use graph_model::Memory;
use graph_store::{NodeId, Store};
use node_visits::{Visit, VisitedNodes};
use std::alloc::Global;

/// A visit with the name of its node, which the store keeps.
#[derive(Clone, Copy)]
pub struct NamedVisit<'s> {
    pub name: &'s str,
    pub visit: Visit,
}

/// Visits with the names of their nodes, in the order of the visits.
fn named_visits<'s>(
    alloc: Global,
    store: &'s Store,
    visited: &VisitedNodes,
) -> Result<Vec<NamedVisit<'s>>, Memory>
    requires { visited.now.limit ≡ length store.now.nodes }
    ensures visits { IfOk result (λ named. map visit_of named.items ≡ visited.now.visits) }
    ensures names { IfOk result (λ named. All (IsNamed store.now) named.items) }
{
    let mut named = Vec::with_capacity(alloc, visited.len())?;
    for i in 0..visited.len() {
        let visit = visited.item(i);
        let name = store.node_name(NodeId(visit.node)).as_str();
        named.push(NamedVisit { name, visit })?;
    }
    Ok(named)
}

/// Visits with the names of their nodes, rising by the bytes of these.
pub fn sorted_visits<'s>(
    alloc: Global,
    store: &'s Store,
    visited: &VisitedNodes,
) -> Result<Vec<NamedVisit<'s>>, Memory>
    requires { visited.now.limit ≡ length store.now.nodes }
    ensures visits { let visits = visited.now.visits in
        IfOk result (λ named. IsPermutation visits (map visit_of named.items)) }
    ensures rise { let nodes = store.now.nodes in
        IfOk result (λ named. NamesRise nodes (map visit_of named.items)) }
    ensures names { IfOk result (λ named. All (IsNamed store.now) named.items) }
{
    let _indexed = store.nodes();
    let _once = visited.len();
    let mut named = named_visits(alloc, store, visited)?;
    named.sort_unstable_by(|a, b| a.name.cmp(b.name));
    Ok(named)
}
