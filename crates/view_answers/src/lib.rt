//! The rows that answer one question about any view of a graph: its edges and events, and histories,
//! values and moments of one entity.
#![tactic(auto)]

mod answer_rows;
mod edges;
mod events;
mod histories;
mod point;
mod records;
mod values;

pub use edges::add_edges;
pub use events::add_events;
pub use histories::{add_edge_history, add_node_history};
pub use point::{PointAnswer, PointAsk, answer_point};
pub use records::add_world_records;
pub use values::{add_edge_alive, add_edge_value, add_node_value};
