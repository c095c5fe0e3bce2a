//! Algorithms over the links of views, and walks over their nodes.
#![tactic(auto)]

mod by_name;
mod components;
mod degree_rows;
mod hop_rows;
mod labels;
mod link_ways;
mod source;
mod walk;
mod ways;

pub use components::{in_component, out_component};
pub use degree_rows::{Degree, DegreeRows, degrees};
pub use hop_rows::{Hop, HopRows, hops};
pub use labels::{Part, Parts, weak_parts};
