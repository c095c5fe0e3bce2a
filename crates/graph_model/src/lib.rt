//! The public types of a temporal property graph, and the definitions that say what its answers
//! mean.
#![tactic(auto)]

mod events;
mod limits;
mod names;
mod properties;
mod queries;
mod short_text;
mod time_bounds;
mod word_list;

pub use events::{EdgeName, Entity, Event, EventList, Model, What};
pub use limits::{
    MOST_EVENTS, MOST_EVENTS_BYTES, MOST_KEYS, MOST_LAYERS, MOST_NAME_BYTES, MOST_NODES,
    MOST_PROPERTIES, MOST_SCRIPT_BYTES, MOST_TEXT_BYTES, MOST_TYPES, MOST_VIEWS,
};
pub use names::{Name, NameFault, Text, TextFault};
pub use properties::{Props, PropsFault, Value, ValueType};
pub use queries::{Ask, Cmp, Direction, Each, NameList, Op, OpList, Query, TypeList};
pub use time_bounds::Bounds;
pub use word_list::Words;

/// Want of memory: the one answer that no clause ties to a cause.
pub type Memory = std::alloc::AllocError;
