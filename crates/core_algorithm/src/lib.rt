//! The cores of views.
#![tactic(auto)]

mod core_rows;
mod peeling;

pub use core_rows::{Core, Cores, core_numbers, k_core};
