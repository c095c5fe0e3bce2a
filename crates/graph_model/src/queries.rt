//! Views, questions and queries.
ghost use Rattle.std.specs.Prelude.{◌≡◌, ◌<◌, List, [], ◌∷◌, ◌++◌, length, OnOk, OnErr, Some, slice_get};

use crate::events::EdgeName;
use crate::names::Name;
use crate::properties::Value;
use std::alloc::{AllocError, Global};

/// How two values are compared.
#[derive(Clone, Copy, Drop)]
pub enum Cmp {
    /// Equal.
    Eq,
    /// Not equal, of one type.
    Ne,
    /// Less.
    Lt,
    /// Less or equal.
    Le,
    /// Greater.
    Gt,
    /// Greater or equal.
    Ge,
}

/// Which way a walk follows edges.
#[derive(Clone, Copy, Drop)]
pub enum Direction {
    /// Along edges, from source to destination.
    Outward,
    /// Against edges.
    Inward,
    /// Either way.
    Both,
}

/// A list of names.
#[derive(Drop)]
pub struct NameList {
    items: Vec<Name>,
}

impl std::marker::Model for NameList {
    ghost use Rattle.std.specs.Prelude.{List, ℕ};

    ghost Value = { List (List ℕ) };

    ghost view = { λ a. a.items.items };
}

impl NameList {
    /// An empty list. It takes no memory.
    pub fn new(alloc: Global) -> NameList
        ensures { result ≡ [] }
    {
        NameList {
            items: Vec::new(alloc),
        }
    }

    /// How many items there are.
    pub fn len(&self) -> usize
        ensures { result ≡ length self.now }
    {
        self.items.len()
    }

    /// The item at a place, counted from 0.
    pub fn item(&self, i: usize) -> &Name
        requires { i < length self.now }
        ensures { slice_get self.now i ≡ Some result.now }
    {
        &self.items[i]
    }

    /// Adds an item at the end. Where memory is wanting, the list stays as it is.
    pub fn push(&mut self, x: Name) -> Result<(), AllocError>
        ensures ok { OnOk result (self.new ≡ self.old ++ x ∷ []) }
        ensures err { OnErr result (self.new ≡ self.old) }
    {
        self.items.push(x)?;
        Ok(())
    }
}

/// A list of types of nodes: pairs of a node's name and a type's name.
#[derive(Drop)]
pub struct TypeList {
    items: Vec<(Name, Name)>,
}

impl std::marker::Model for TypeList {
    ghost use Rattle.std.specs.Prelude.{List, ℕ};

    ghost Value = { List (List ℕ × List ℕ) };

    ghost view = { λ a. a.items.items };
}

impl TypeList {
    /// An empty list. It takes no memory.
    pub fn new(alloc: Global) -> TypeList
        ensures { result ≡ [] }
    {
        TypeList {
            items: Vec::new(alloc),
        }
    }

    /// How many items there are.
    pub fn len(&self) -> usize
        ensures { result ≡ length self.now }
    {
        self.items.len()
    }

    /// The item at a place, counted from 0.
    pub fn item(&self, i: usize) -> &(Name, Name)
        requires { i < length self.now }
        ensures { slice_get self.now i ≡ Some result.now }
    {
        &self.items[i]
    }

    /// Adds an item at the end. Where memory is wanting, the list stays as it is.
    pub fn push(&mut self, x: (Name, Name)) -> Result<(), AllocError>
        ensures ok { OnOk result (self.new ≡ self.old ++ x ∷ []) }
        ensures err { OnErr result (self.new ≡ self.old) }
    {
        self.items.push(x)?;
        Ok(())
    }
}

/// A view of a graph.
#[derive(Drop)]
pub enum Op {
    /// The moments from the first number up to but not including the second, each from -2^62 to
    /// 2^62.
    Window(i64, i64),
    /// One moment, from -2^62 to 2^62 - 1.
    At(i64),
    /// The moments before one from -2^62 to 2^62.
    Before(i64),
    /// The moments after one from -2^62 to 2^62 - 1.
    After(i64),
    /// Edges in these layers, and all nodes.
    Layers(NameList),
    /// Edges in other layers, and all nodes.
    ExcludeLayers(NameList),
    /// These nodes, and the edges between them.
    Subgraph(NameList),
    /// The other nodes, and the edges between them.
    ExcludeNodes(NameList),
    /// Edges whose value of the key compares so with the given one, and all nodes.
    EdgesWhere(Name, Cmp, Value),
    /// Nodes whose value of the key compares so with the given one, and the edges between them.
    NodesWhere(Name, Cmp, Value),
    /// Edges whose last event is an addition, and all nodes.
    Valid,
    /// Nodes that have one of these types, and the edges between them.
    NodeTypes(NameList),
}

/// A list of views, the first applied first.
#[derive(Drop)]
pub struct OpList {
    items: Vec<Op>,
}

impl std::marker::Model for OpList {
    ghost use Rattle.std.specs.Prelude.{List};
    ghost use Rattle.graph_model.specs.declared.queries.Op.{Op};

    ghost Value = { List Op };

    ghost view = { λ a. a.items.items };
}

impl OpList {
    /// An empty list. It takes no memory.
    pub fn new(alloc: Global) -> OpList
        ensures { result ≡ [] }
    {
        OpList {
            items: Vec::new(alloc),
        }
    }

    /// How many items there are.
    pub fn len(&self) -> usize
        ensures { result ≡ length self.now }
    {
        self.items.len()
    }

    /// The item at a place, counted from 0.
    pub fn item(&self, i: usize) -> &Op
        requires { i < length self.now }
        ensures { slice_get self.now i ≡ Some result.now }
    {
        &self.items[i]
    }

    /// Adds an item at the end. Where memory is wanting, the list stays as it is.
    pub fn push(&mut self, x: Op) -> Result<(), AllocError>
        ensures ok { OnOk result (self.new ≡ self.old ++ x ∷ []) }
        ensures err { OnErr result (self.new ≡ self.old) }
    {
        self.items.push(x)?;
        Ok(())
    }
}

/// The windows of a query: width and step, or the step alone.
#[derive(Clone, Copy, Drop)]
pub enum Each {
    /// Windows of a width, each a step after the one before it; both from 1 to 2^62.
    Rolling(i64, i64),
    /// Windows that all begin at the first event, each a step longer; the step from 1 to 2^62.
    Expanding(i64),
}

/// A question.
#[derive(Drop)]
pub enum Ask {
    /// The present nodes.
    Nodes,
    /// The present edges.
    Edges,
    /// The number of events, and the first and last time.
    Events,
    /// How many neighbours each present node has.
    Degree,
    /// The nodes to which walks lead from a node, with their distances.
    Hops(Name, Direction),
    /// The label of each present node's part of the graph: the least name in it.
    Weak,
    /// The other nodes to which walks lead outward from a node.
    OutComponent(Name),
    /// The other nodes from which walks lead outward to a node.
    InComponent(Name),
    /// The nodes of the core of a number from 0 to 1,048,576.
    Core(u32),
    /// The core number of each present node.
    CoreNumbers,
    /// When journeys from the seeds, begun at a moment from -2^62 to 2^62 - 1 or later, first reach
    /// each node.
    Arrival(i64, NameList),
    /// The events of a node.
    NodeHistory(Name),
    /// The events of an edge.
    EdgeHistory(EdgeName),
    /// The value of a node's key.
    NodeValue(Name, Name),
    /// The value of an edge's key.
    EdgeValue(EdgeName, Name),
    /// Whether an edge is alive at a moment from -2^62 to 2^62 - 1.
    EdgeAlive(EdgeName, i64),
    /// All records of the world.
    Materialise,
    /// How many updates each node has.
    Updates,
}

/// A question, about what views leave of a graph, once or in each window.
#[derive(Drop)]
pub struct Query {
    pub ask: Ask,
    pub views: OpList,
    pub each: Option<Each>,
}
