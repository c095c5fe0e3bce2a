//! Nodes with their neighbours, side by side in one list.
ghost use Rattle.std.specs.Prelude.{◌≡◌, ◌<◌, ◌≤◌, Some, length, slice_get, slice_range, IfNone, IfSome, false};
ghost use Rattle.view_trait.specs.Numbered.{is_listed};
ghost use Rattle.present_links.specs.Adjacent.{AreOffsets, parts_between, row_at};

use graph_store::NodeId;
use std::marker::Model;

/// The nodes where a link begins or ends, rising by their numbers, and of each its neighbours in a
/// direction, by their places among these nodes. A contract sees the list of the nodes, and a list
/// of places for each.
///
/// The neighbours of all nodes lie in one block of memory, those of a node one behind the other
/// from an offset on, up to the offset of the next node.
#[derive(Drop)]
pub struct Adjacent {
    nodes: Vec<u32>,
    starts: Vec<usize>,
    others: Vec<u32>,
}

impl Model for Adjacent {
    ghost use Rattle.present_links.specs.Adjacent.{AdjacentNodes, AreOffsets, parts_between};

    ghost Value = { AdjacentNodes };

    ghost view = { λ a. record {
      nodes = a.nodes.items;
      rows = parts_between a.others.items a.starts.items;
    } };

    ghost invariant = { λ a. AreOffsets a.nodes.items a.starts.items a.others.items };
}

impl Adjacent {
    /// Nodes that rise, and the list of the neighbours of all, with an offset into it for each node
    /// and one behind the last.
    pub(crate) fn from_parts(nodes: Vec<u32>, starts: Vec<usize>, others: Vec<u32>) -> Adjacent
        requires { AreOffsets nodes.items starts.items others.items }
        ensures nodes { result.nodes ≡ nodes.items }
        ensures rows { result.rows ≡ parts_between others.items starts.items }
    {
        Adjacent {
            nodes,
            starts,
            others,
        }
    }

    /// How many nodes there are.
    pub fn len(&self) -> usize
        ensures nodes { result ≡ length self.now.nodes }
        ensures rows { result ≡ length self.now.rows }
    {
        self.nodes.len()
    }

    /// The number of the node in a place, counted from 0.
    pub fn node(&self, place: usize) -> NodeId
        requires { place < length self.now.nodes }
        ensures { slice_get self.now.nodes place ≡ Some result.0 }
    {
        NodeId(self.nodes[place])
    }

    /// The place of a node, or nothing where no link begins or ends at it.
    pub fn place_of(&self, n: NodeId) -> Option<usize>
        ensures found { IfSome result (λ place. slice_get self.now.nodes place ≡ Some n.0) }
        ensures none { IfNone result (is_listed self.now.nodes n.0 ≡ false) }
    {
        self.nodes.as_slice().binary_search(&n.0).ok()
    }

    /// The places of the neighbours of the node in a place, rising.
    pub fn neighbours(&self, place: usize) -> &[u32]
        requires { place < length self.now.rows }
        ensures { result.now ≡ row_at self.now.rows place }
    {
        part(
            self.others.as_slice(),
            self.starts[place],
            self.starts[place + 1],
        )
    }
}

/// The part of a list from one place up to another.
fn part(items: &[u32], from: usize, to: usize) -> &[u32]
    requires order { from ≤ to }
    requires within { to ≤ length items.now }
    ensures { result.now ≡ slice_range items.now from to }
{
    &items[from..to]
}
