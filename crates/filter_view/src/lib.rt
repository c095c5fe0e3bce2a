//! Views that keep or drop entities by their values and their last events.
#![tactic(auto)]

mod valid_view;
mod value_filters;

pub use valid_view::{ValidView, valid};
pub use value_filters::{EdgeFilter, NodeFilter, edges_where, nodes_where};
