//! Where walks find the neighbours of nodes.
ghost use Rattle.std.specs.Prelude.{◌≡◌, ◌<◌, length, IfOk};
ghost use Rattle.graph_model.specs.declared.queries.Direction.{Direction as Way};
ghost use Rattle.graph_model.specs.Presence.{node_present as is_node_present};
ghost use Rattle.graph_store.specs.Contents.{name_at};
ghost use Rattle.view_trait.specs.Coverage.{Covers};
ghost use Rattle.walk_algorithms.specs.Visits.{IsSource};

use graph_model::{Direction, Memory};
use graph_store::NodeId;
use present_links::{Adjacent, adjacent, links};
use std::alloc::Global;
use std::sync::ledger::Ledger;
use time_column::Steps;
use view_trait::{Roster, View, has_event, node_present};

/// Where a walk in a direction finds the neighbours of a node: it asks the view, which looks at each
/// pair that the store has of the node; or they are in lists of all neighbours that the view shows.
#[derive(Drop)]
pub enum Source {
    Asked,
    Listed(Adjacent),
}

/// Where to find neighbours by a roster. Where it has all nodes and edges, the view is asked; where it
/// has some, the links that it gives are listed. The span of each edge on it is asked once then, and
/// it takes memory for these links alone.
pub fn source_on<V: View, L: Ledger>(
    alloc: Global,
    view: &V,
    roster: Roster<'_>,
    direction: Direction,
    steps: &mut Steps<L>,
) -> Result<Source, Memory>
    requires covers { Covers (V.contents view.now) (V.world view.now) roster }
    ensures { let c = V.contents view.now in
        IfOk result (λ source. IsSource c (V.world view.now) direction source) }
{
    match roster {
        Roster::All => Ok(Source::Asked),
        Roster::Some { nodes: _, edges: _ } => {
            let links = links(alloc, view, roster, steps)?;
            let lists = adjacent(alloc, &links, direction)?;
            Ok(Source::Listed(lists))
        }
    }
}

/// Whether a node is present. Where there are lists, no pair is asked for it.
pub fn is_present<V: View, L: Ledger>(
    view: &V,
    source: &Source,
    n: NodeId,
    steps: &mut Steps<L>,
) -> bool
    requires node { n.0 < length (V.contents view.now).nodes }
    requires source { (d : Way) × IsSource (V.contents view.now) (V.world view.now) d source.now }
    ensures { let name = name_at (V.contents view.now).nodes n.0 in
        result ≡ is_node_present (V.world view.now) name }
{
    match source {
        Source::Asked => node_present(view, n, steps),
        Source::Listed(lists) => lists.place_of(n).is_some() || has_event(view, n, steps),
    }
}
