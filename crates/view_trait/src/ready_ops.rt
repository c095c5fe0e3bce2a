//! Views whose names were found in a store.
ghost use Rattle.std.specs.Prelude.{◌≡◌, ◌<◌, [], ◌∷◌, ◌++◌, length, slice_get, Some, IfOk, OnOk};
ghost use Rattle.std.specs.Prelude.{OnErr};

use crate::numbers::NodeList;
use graph_model::{Cmp, Memory, Value};
use std::alloc::Global;
use std::marker::Model;

/// A view that names layers, nodes and keys by their numbers in a store. A number that the store
/// does not have selects nothing, and a key that it does not have compares false.
#[derive(Drop)]
pub enum ReadyOp {
    /// The moments from the first up to but not including the second.
    Window(i64, i64),
    /// The layers of these bits.
    Layers(u64),
    /// These nodes, and the edges between them.
    Subgraph(NodeList),
    /// The other nodes, and the edges between them.
    ExcludeNodes(NodeList),
    /// The edges whose value of a key compares true.
    EdgesWhere(Option<u32>, Cmp, Value),
    /// The nodes whose value of a key compares true, and the edges between them.
    NodesWhere(Option<u32>, Cmp, Value),
    /// The edges whose last event is an addition.
    Valid,
}

impl ReadyOp {
    /// An equal view.
    pub fn copy(&self, alloc: Global) -> Result<ReadyOp, Memory>
        ensures { IfOk result (λ op. op ≡ self.now) }
    {
        match self {
            ReadyOp::Window(from, to) => Ok(ReadyOp::Window(*from, *to)),
            ReadyOp::Layers(bits) => Ok(ReadyOp::Layers(*bits)),
            ReadyOp::Subgraph(nodes) => Ok(ReadyOp::Subgraph(nodes.copy(alloc)?)),
            ReadyOp::ExcludeNodes(nodes) => Ok(ReadyOp::ExcludeNodes(nodes.copy(alloc)?)),
            ReadyOp::EdgesWhere(key, cmp, value) => {
                Ok(ReadyOp::EdgesWhere(*key, *cmp, value.copy()?))
            }
            ReadyOp::NodesWhere(key, cmp, value) => {
                Ok(ReadyOp::NodesWhere(*key, *cmp, value.copy()?))
            }
            ReadyOp::Valid => Ok(ReadyOp::Valid),
        }
    }
}

/// A list of ready views, of which the first is applied first.
#[derive(Drop)]
pub struct ReadyOps {
    items: Vec<ReadyOp>,
}

impl Model for ReadyOps {
    ghost use Rattle.std.specs.Prelude.{List};
    ghost use Rattle.view_trait.specs.declared.ready_ops.ReadyOp.{ReadyOp};

    ghost Value = { List ReadyOp };

    ghost view = { λ l. l.items.items };
}

impl ReadyOps {
    /// No view. It takes no memory.
    pub fn new(alloc: Global) -> ReadyOps
        ensures { result ≡ [] }
    {
        ReadyOps {
            items: Vec::new(alloc),
        }
    }

    /// How many views there are.
    pub fn len(&self) -> usize
        ensures { result ≡ length self.now }
    {
        self.items.len()
    }

    /// The view at a place, counted from 0.
    pub fn item(&self, i: usize) -> &ReadyOp
        requires { i < length self.now }
        ensures { slice_get self.now i ≡ Some result.now }
    {
        &self.items[i]
    }

    /// Adds a view at the end. Where memory is wanting, the list stays as it is.
    pub fn push(&mut self, op: ReadyOp) -> Result<(), Memory>
        ensures ok { OnOk result (self.new ≡ self.old ++ op ∷ []) }
        ensures err { OnErr result (self.new ≡ self.old) }
    {
        self.items.push(op)?;
        Ok(())
    }
    /// Equal views.
    pub fn copy(&self, alloc: Global) -> Result<ReadyOps, Memory>
        ensures { IfOk result (λ ops. ops ≡ self.now) }
    {
        let mut ops = ReadyOps::new(alloc);
        for i in 0..self.len() {
            ops.push(self.item(i).copy(alloc)?)?;
        }
        Ok(ops)
    }
}
