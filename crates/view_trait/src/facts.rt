//! What always holds of a store, and of a roster.
ghost use Rattle.std.specs.Ordering.{nat_cmp};
ghost use Rattle.graph_model.specs.Rising.{Rises};
ghost use Rattle.graph_store.specs.Contents.{base_of};
ghost use Rattle.view_trait.specs.Coverage.{edges_on, nodes_on};
ghost use Rattle.view_trait.specs.Meaning.{IsShown};

use crate::rosters::Roster;
use graph_store::Store;

/// What always holds of a store: its contents are indexed, it has 64 layers at the most, and what
/// it has accepted is a lawful world over it. A call does nothing when it runs: it hands out these
/// facts to the proof of the function that calls.
pub fn store_facts(store: &Store)
    ensures { IsShown store.now (base_of store.now) }
{
    let _lawful = store.events();
    let _indexed = store.nodes();
    let _few = store.layers();
}

/// What always holds of a roster: its numbers rise. A call does nothing when it runs: it hands out
/// this fact to the proof of the function that calls.
pub fn roster_facts(store: &Store, roster: Roster<'_>)
    ensures nodes { Rises nat_cmp (nodes_on store.now roster.entry) }
    ensures edges { Rises nat_cmp (edges_on store.now roster.entry) }
{
    match roster {
        Roster::All => {}
        Roster::Some { nodes, edges } => {
            let _nodes = nodes.len();
            let _edges = edges.len();
        }
    }
}
