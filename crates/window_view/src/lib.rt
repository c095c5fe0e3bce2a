//! Windows of views.
#![tactic(auto)]

mod spans;
mod view;

pub use spans::window_span;
pub use view::{WindowView, after, at, before, window};
