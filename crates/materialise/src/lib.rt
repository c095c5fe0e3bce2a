//! The events and types of a view, copied as lists, and stores made of such lists.
#![tactic(auto)]

mod event_list;
mod type_list;
mod world_store;

pub use event_list::{list_world, listed_event};
pub use type_list::list_types;
pub use world_store::into_store;
