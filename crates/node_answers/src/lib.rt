//! The answers that have a row for each of some nodes of a view.
#![tactic(auto)]

mod arrivals;
mod cores;
mod nodes;
mod store_row;
mod walks;

pub use arrivals::add_arrivals;
pub use cores::{add_core, add_core_numbers};
pub use nodes::{add_node_degrees, add_nodes};
pub use walks::{add_hops, add_in_component, add_out_component, add_weak_labels};
