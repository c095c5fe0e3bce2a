//! Distinct names, numbered in the order in which they were first seen.
#![tactic(auto)]

mod table;

pub use table::{InternFault, NameTable};
