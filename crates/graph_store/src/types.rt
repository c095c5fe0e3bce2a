//! The types of nodes, by numbers.
ghost use Rattle.std.specs.Prelude.{◌≡◌, ◌<◌, ◌≤◌, [], ◌∷◌, ◌++◌, None, OnOk};
ghost use Rattle.graph_store.specs.TypeIndex.{kind_in};

use graph_model::Memory;
use indexmap::IndexMap;
use std::alloc::Global;
use std::marker::Model;

/// The number of the type of each node that has one, by the node's number.
#[derive(Drop)]
pub struct TypeTable {
    kinds: IndexMap<u32, u32>,
}

impl Model for TypeTable {
    ghost use Rattle.indexmap.specs.IndexMap.{spare};
    ghost use Rattle.graph_store.specs.TypeIndex.{TypeIndex};

    ghost Value = { TypeIndex };

    ghost view = { λ t. record { numbers = t.kinds.entries; spare = spare t.kinds } };
}

impl TypeTable {
    /// No node has a type. It takes no memory.
    pub fn new(alloc: Global) -> TypeTable
        ensures { result.numbers ≡ [] }
    {
        TypeTable {
            kinds: IndexMap::new(alloc),
        }
    }
    /// The number of a node's type, if it has one.
    pub fn kind_of(&self, node: u32) -> Option<u32>
        ensures { result ≡ kind_in self.now.numbers node }
    {
        self.kinds.get(&node).copied()
    }

    /// Makes room for the types of so many more nodes.
    pub fn reserve(&mut self, additional: u32) -> Result<(), Memory>
        ensures numbers { self.new.numbers ≡ self.old.numbers }
        ensures ok { OnOk result (additional ≤ self.new.spare) }
    {
        self.kinds.reserve(additional as usize)
    }

    /// Gives a node a type. It has none, and there is room.
    pub fn put(&mut self, node: u32, kind: u32)
        requires absent { kind_in self.old.numbers node ≡ None }
        requires room { 0 < self.old.spare }
        ensures { self.new.numbers ≡ self.old.numbers ++ (node, kind) ∷ [] }
    {
        let _ = self.kinds.insert(node, kind);
    }
}
