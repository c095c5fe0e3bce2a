//! When the nodes of a view are reached from some of them.
#![tactic(auto)]

mod arrivals;
mod frontier;
mod offers;
mod reach_table;
mod settling;

pub use arrivals::{Arrival, Arrivals, earliest_arrival};
pub use reach_table::Reached;
