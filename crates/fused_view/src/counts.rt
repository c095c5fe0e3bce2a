//! How many searches a list of views costs, as numbers.
ghost use Rattle.std.specs.Prelude.{◌≡◌};
ghost use Rattle.graph_model.specs.Searches.{Searches, searches_with};
ghost use Rattle.view_trait.specs.Ready.{ready_kind};
ghost use Rattle.fused_view.specs.Counts.{counted};

use view_trait::ReadyOp;

/// How many searches it takes to find a node's part of its history, and an edge's: 2^64 - 1 where
/// there are more.
#[derive(Clone, Copy, Debug, PartialEq, Eq, Drop)]
pub struct SearchCounts {
    pub nodes: u64,
    pub edges: u64,
}

impl SearchCounts {
    // With one more view.
    pub(crate) fn with(self, op: &ReadyOp) -> SearchCounts
        ensures { (s : Searches) → self ≡ counted s
            → result ≡ counted (searches_with s (ready_kind op.now)) }
    {
        match op {
            ReadyOp::Window(_, _) => SearchCounts {
                nodes: self.nodes.saturating_add(2),
                edges: self.edges.saturating_add(2),
            },
            ReadyOp::NodesWhere(_, _, _) => SearchCounts {
                nodes: self.nodes,
                edges: self.edges.saturating_add(self.nodes.saturating_mul(2)),
            },
            _ => self,
        }
    }
}
