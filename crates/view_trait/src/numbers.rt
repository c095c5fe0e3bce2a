//! Numbers of layers and nodes, and what is asked of them.
ghost use Rattle.std.specs.Prelude.{◌≡◌, ◌<◌, ◌&&◌, [], length, slice_get, Some, false};
ghost use Rattle.std.specs.Prelude.{IfOk, OnOk, OnErr};
ghost use Rattle.std.specs.Ordering.{nat_cmp};
ghost use Rattle.graph_model.specs.Rising.{put_rising, rising};
ghost use Rattle.view_trait.specs.Numbered.{has_bit, is_listed, keeps_number};

use crate::sorted_numbers::{put_number, refill_numbers};
use graph_model::Memory;
use graph_store::NodeId;
use std::alloc::Global;
use std::marker::Model;
use time_history::Span;

/// Distinct numbers of nodes, rising.
#[derive(Drop)]
pub struct NodeList {
    items: Vec<u32>,
}

impl Model for NodeList {
    ghost use Rattle.std.specs.Prelude.{List, ℕ};
    ghost use Rattle.std.specs.Ordering.{nat_cmp};
    ghost use Rattle.graph_model.specs.Rising.{Rises};

    ghost Value = { List ℕ };

    ghost view = { λ l. l.items.items };

    ghost invariant = { λ l. Rises nat_cmp l.items.items };
}

impl NodeList {
    ghost use Rattle.graph_model.specs.Rising.{Rises};

    /// No node. It takes no memory.
    pub fn new(alloc: Global) -> NodeList
        ensures { result ≡ [] }
    {
        NodeList {
            items: Vec::new(alloc),
        }
    }

    /// How many nodes there are.
    pub fn len(&self) -> usize
        ensures len { result ≡ length self.now }
        ensures rising { Rises nat_cmp self.now }
    {
        self.items.len()
    }

    /// The number at a place, counted from 0.
    pub fn item(&self, i: usize) -> NodeId
        requires { i < length self.now }
        ensures { slice_get self.now i ≡ Some result.0 }
    {
        NodeId(self.items[i])
    }

    /// Adds a node, unless it is there. Where memory is wanting, the list stays as it is.
    pub fn push(&mut self, n: NodeId) -> Result<(), Memory>
        ensures ok { OnOk result (self.new ≡ put_rising nat_cmp n.0 self.old) }
        ensures err { OnErr result (self.new ≡ self.old) }
    {
        put_number(&mut self.items, n.0)
    }

    /// Has the distinct ones of some numbers in place of those that were there. What memory the
    /// list has serves again; where more is wanting, it has no node.
    pub fn refill(&mut self, numbers: &[u32]) -> Result<(), Memory>
        ensures ok { OnOk result (self.new ≡ rising nat_cmp numbers.now) }
        ensures err { OnErr result (self.new ≡ []) }
    {
        refill_numbers(&mut self.items, numbers)
    }

    /// Equal nodes.
    pub fn copy(&self, alloc: Global) -> Result<NodeList, Memory>
        ensures { IfOk result (λ nodes. nodes ≡ self.now) }
    {
        let mut items = Vec::new(alloc);
        items.extend_from_slice(&self.items)?;
        Ok(NodeList { items })
    }

    /// Whether a node is there.
    pub fn contains(&self, n: NodeId) -> bool
        ensures { result ≡ is_listed self.now n.0 }
    {
        self.items.binary_search(&n.0).is_ok()
    }
}

/// Whether a layer's bit is there.
pub fn has_layer(kept: u64, layer: u8) -> bool
    requires { layer < 64 }
    ensures { result ≡ has_bit kept layer }
{
    (kept >> layer) & 1 == 1
}

/// Whether a node is kept, where either the listed nodes are kept or the others.
pub fn has_node(nodes: &NodeList, keeps: bool, n: NodeId) -> bool
    ensures { result ≡ keeps_number keeps (is_listed nodes.now n.0) }
{
    nodes.contains(n) == keeps
}

/// Whether both ends of an edge are kept.
pub fn has_nodes(nodes: &NodeList, keeps: bool, src: NodeId, dst: NodeId) -> bool
    ensures { result ≡ (keeps_number keeps (is_listed nodes.now src.0)
        && keeps_number keeps (is_listed nodes.now dst.0)) }
{
    has_node(nodes, keeps, src) && has_node(nodes, keeps, dst)
}

/// The part of a history that is shown of an entity without events.
pub fn nothing() -> Span
    ensures { result ≡ record { from = 0; to = 0; carried = false } }
{
    Span {
        from: 0,
        to: 0,
        carried: false,
    }
}
