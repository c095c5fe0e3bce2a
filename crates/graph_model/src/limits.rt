//! How many bytes, properties, events, names and numbers there may be at the most.

/// The bytes of a name.
pub const MOST_NAME_BYTES: usize = 256;

/// The bytes of the text of a value.
pub const MOST_TEXT_BYTES: usize = 4_096;

/// The properties of one event.
pub const MOST_PROPERTIES: usize = 256;

/// The events of a graph.
pub const MOST_EVENTS: u32 = 4_194_304;

/// The nodes of a graph.
pub const MOST_NODES: u32 = 1_048_576;

/// The layers of a graph.
pub const MOST_LAYERS: u32 = 64;

/// The keys of a graph's nodes, and those of its edges.
pub const MOST_KEYS: u32 = 256;

/// The names of types of nodes.
pub const MOST_TYPES: u32 = 4_096;

/// The views of a query.
pub const MOST_VIEWS: usize = 64;

/// The bytes of an events file: 256 MiB.
pub const MOST_EVENTS_BYTES: usize = 268_435_456;

/// The bytes of a script: 1 MiB.
pub const MOST_SCRIPT_BYTES: usize = 1_048_576;
