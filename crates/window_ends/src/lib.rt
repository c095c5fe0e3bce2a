//! Where the windows of an `each` begin and end.
#![tactic(auto)]

mod counting;
mod ends;
mod ends_left;

pub use counting::{MOST_WINDOWS, TooMany, ends_between};
pub use ends::Ends;
pub use ends_left::WindowEnds;
