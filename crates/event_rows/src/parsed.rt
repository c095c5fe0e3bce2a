//! What a record says, and why it is refused.
use graph_model::{Bounds, Event, Name};

/// What the fields of a record say.
#[derive(Drop)]
pub enum Parsed {
    /// The bounds of the graph, as record 1 gives them.
    Span(Bounds),
    /// An update of a node, or the addition or deletion of an edge.
    Event(Event),
    /// The name of a node, and the name of the type that it is given.
    NodeType(Name, Name),
}

/// Why a record is refused for its fields alone: the first of these that holds.
#[derive(Clone, Copy, Debug, PartialEq, Eq, Drop)]
pub enum RowRefusal {
    /// The first field names no kind of record, the record has not the number of fields of its
    /// kind, or it is a `span` that is not record 1.
    Shape,
    /// A field is not UTF-8.
    Text,
    /// The time is no whole number of -2^62 to 2^62 - 1 with an order that can be read, or the
    /// bounds are no two whole numbers of -2^62 to 2^62 in order.
    Time,
    /// The time is not inside the bounds.
    Outside,
    /// The name of a node, of a layer or of a type is empty or longer than 256 bytes.
    Name,
    /// There are more than 256 properties, a key is repeated, or a field is no property: a key of 1
    /// to 256 bytes, a `:`, and a whole number, a flag, or a text of at most 4,096 bytes.
    Property,
    /// Memory was wanting.
    Memory,
}

/// The kinds of records, each named by its first field.
#[derive(Clone, Copy, Drop)]
pub enum RowKind {
    /// `span`: the bounds of the graph.
    Span,
    /// `type`: the type of a node.
    NodeType,
    /// `node`: an update of a node.
    Update,
    /// `edge`: the addition of an edge.
    Addition,
    /// `delete`: the deletion of an edge.
    Deletion,
}
