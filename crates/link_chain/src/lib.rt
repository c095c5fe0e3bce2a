//! Lists of numbers that are linked by index: chains, which grow at their ends, the same with the first numbers of a list beside one another, and buckets, between which a number moves in a few writes.
#![tactic(auto)]

mod chain_walks;
mod item_buckets;
mod linked_lists;
mod number_lists;

pub use chain_walks::ChainWalk;
pub use item_buckets::Buckets;
pub use linked_lists::Chains;
pub use number_lists::{NumberLists, NumberWalk};

/// Want of memory: the one answer that no clause ties to a cause.
pub type Memory = std::alloc::AllocError;

/// The index that stands for no link and no item. It is past the end of them all.
const NOWHERE: u32 = u32::MAX;
