//! The windows of an `each` over a view.
#![tactic(auto)]

mod ends_of_view;
mod windows;

pub use ends_of_view::{ends_from_to, ends_over};
pub use window_ends::{Ends, MOST_WINDOWS, TooMany, WindowEnds};
pub use windows::{ExpandingWindows, RollingWindows, WindowsOver, expanding, rolling};
