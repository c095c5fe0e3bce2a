//! Times in rising order, where each reading of a time or an order is counted.
//!
//! What was tuned. Each choice was measured, in turn with what it took the place of, and no
//! contract rests on it.
//!
//! - **Times stand side by side.** A history is one list, so that a place is looked up once. Its
//!   keys are the times, 8 bytes each; order, arrival, kind and the values of an update stand
//!   beside a time, in 48 bytes. A search reads the block of times alone, and looks at an order
//!   only where two times are equal. `TimeColumn` is generic in what stands beside a stamp, a tag
//!   and one thing more, and stays the only reader of times and orders. The tag, which is the kind
//!   of an update, lies in the bytes that an order leaves: with the kind beside the values each
//!   update took 8 bytes more.
//! - **What reads a time is inlined, and what reads an order is not.** A search reads times at
//!   every step and orders only where two times are equal. Without these hints the benchmark of
//!   late updates took a fifth longer.
#![tactic(auto)]

mod column;
mod steps;

pub use chunk_list::Near;
pub use column::TimeColumn;
pub use steps::Steps;

/// Want of memory: the one answer that no clause ties to a cause.
pub type Memory = std::alloc::AllocError;
