//! Views that keep or drop layers and nodes.
#![tactic(auto)]

mod layer_view;
mod node_view;

pub use layer_view::{LayerView, exclude_layers, layers};
pub use node_view::{NodeView, exclude_nodes, subgraph};
