//! Disjoint sets of numbers.
#![tactic(auto)]

mod sets;

pub use sets::DisjointSets;

/// Memory was wanting.
pub type Memory = std::alloc::AllocError;
