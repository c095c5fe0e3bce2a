//! Entities and events.
ghost use Rattle.std.specs.Prelude.{◌≡◌, ℕ, ◌+◌, ◌^◌, ◌<◌, ◌≤◌, ◌⊎◌, ◌↔◌, List, [], ◌∷◌, ◌++◌, length, IfOk, OnOk, OnErr, Some, slice_get};
ghost use Rattle.graph_model.specs.Entity.{entity_cmp};

use crate::names::Name;
use crate::properties::Props;
use std::alloc::{AllocError, Global};
use std::cmp::Ordering;

/// An edge, by its source, its destination and its layer.
#[derive(PartialEq, Eq, PartialOrd, Ord, Drop)]
pub struct EdgeName {
    /// The node that it leads from.
    pub src: Name,
    /// The node that it leads to.
    pub dst: Name,
    /// The layer that it lies in.
    pub layer: Name,
}

/// What an event is about: a node or an edge.
#[derive(PartialEq, Eq, PartialOrd, Ord, Drop)]
pub enum Entity {
    Node(Name),
    Edge(EdgeName),
}

/// What happens: an update of a node, an addition of an edge, or its deletion.
#[derive(Drop)]
pub enum What {
    /// An update of a node, with properties.
    Node(Name, Props),
    /// An addition of an edge, with properties.
    Add(EdgeName, Props),
    /// A deletion of an edge.
    Delete(EdgeName),
}

/// An event: when it happens, from -2^62 to 2^62 - 1, and what. The order tells apart the events of
/// one entity at one time.
#[derive(Drop)]
pub struct Event {
    pub time: i64,
    pub order: u32,
    pub what: What,
}

/// Whether edges are instants, or last until they are deleted.
#[derive(Clone, Copy, Drop)]
pub enum Model {
    /// An edge is an instant: it is alive at the times of its additions.
    Event,
    /// An edge lasts from an addition until a deletion.
    Persistent,
}

impl EdgeName {
    /// An equal name of an edge.
    pub fn copy(&self) -> Result<EdgeName, AllocError>
        ensures { IfOk result (λ edge. edge ≡ self.now) }
    {
        Ok(EdgeName {
            src: self.src.copy()?,
            dst: self.dst.copy()?,
            layer: self.layer.copy()?,
        })
    }
}

impl What {
    /// An equal happening.
    pub fn copy(&self) -> Result<What, AllocError>
        ensures { IfOk result (λ what. what ≡ self.now) }
    {
        match self {
            What::Node(name, props) => Ok(What::Node(name.copy()?, props.copy()?)),
            What::Add(edge, props) => Ok(What::Add(edge.copy()?, props.copy()?)),
            What::Delete(edge) => Ok(What::Delete(edge.copy()?)),
        }
    }
}

impl Event {
    /// An equal event.
    pub fn copy(&self) -> Result<Event, AllocError>
        ensures { IfOk result (λ event. event ≡ self.now) }
    {
        Ok(Event {
            time: self.time,
            order: self.order,
            what: self.what.copy()?,
        })
    }
}

impl Entity {
    /// How two entities compare: nodes before edges, and then by their names.
    pub fn compare(&self, other: &Entity) -> Ordering
        ensures { result ≡ entity_cmp self.now other.now }
    {
        self.cmp(other)
    }
}

/// A list of events.
#[derive(Drop)]
pub struct EventList {
    items: Vec<Event>,
}

impl std::marker::Model for EventList {
    ghost use Rattle.std.specs.Prelude.{List};
    ghost use Rattle.graph_model.specs.declared.events.Event.{Event};

    ghost Value = { List Event };

    ghost view = { λ a. a.items.items };
}

impl EventList {
    /// An empty list. It takes no memory.
    pub fn new(alloc: Global) -> EventList
        ensures { result ≡ [] }
    {
        EventList {
            items: Vec::new(alloc),
        }
    }

    /// How many items there are.
    pub fn len(&self) -> usize
        ensures { result ≡ length self.now }
    {
        self.items.len()
    }

    /// The item at a place, counted from 0.
    pub fn item(&self, i: usize) -> &Event
        requires { i < length self.now }
        ensures { slice_get self.now i ≡ Some result.now }
    {
        &self.items[i]
    }

    /// Adds an item at the end. Where memory is wanting, the list stays as it is.
    pub fn push(&mut self, x: Event) -> Result<(), AllocError>
        ensures ok { OnOk result (self.new ≡ self.old ++ x ∷ []) }
        ensures err { OnErr result (self.new ≡ self.old) }
    {
        self.items.push(x)?;
        Ok(())
    }
}
