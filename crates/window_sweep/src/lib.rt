//! The windows of a view, one after another, each with a roster that covers it.
#![tactic(auto)]

mod filling;
mod sweep;

pub use sweep::WindowSweep;
