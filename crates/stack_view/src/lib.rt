//! Lists of views, applied one after another.
#![tactic(auto)]

mod bounded_spans;
mod edges;
mod nodes;
mod view;

pub use bounded_spans::{BoundedSpan, bounds_below};
pub use edges::edge_span_below;
pub use nodes::node_span_below;
pub use view::StackView;
