//! The part of one world in the answer to a question: what it is, and the row with which it begins.
#![tactic(auto)]

mod world_row;

pub use world_row::add_world;
