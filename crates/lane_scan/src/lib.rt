//! The rows of a timeline, side by side, and a plain filter over them. The marks of 1,024 rows at a time
//! lie on the stack, and where none of these is selected they are passed over. Eight rows are marked at once,
//! one in each lane of `std::simd`, and the test of a row joins its parts without a branch.
#![tactic(auto)]

mod chunks;
mod hits;
mod selection;
mod timeline;

pub use hits::{Hit, Hits};
pub use selection::select;
pub use timeline::Timeline;

/// Want of memory: the one answer that no clause ties to a cause.
pub type Memory = std::alloc::AllocError;
