//! Views of a graph, and what they show as present.
#![tactic(auto)]

mod contacts;
mod extent_of_view;
mod facts;
mod neighbour_walk;
mod node_sets;
mod numbers;
mod presence;
mod ready_ops;
mod ready_views;
mod roster_laws;
mod rosters;
mod sorted_numbers;
mod view;

pub use contacts::next_contact;
pub use extent_of_view::{WorldExtent, extent};
pub use facts::{roster_facts, store_facts};
pub use neighbour_walk::{NeighbourWalk, neighbours};
pub use node_sets::{all_nodes, common_nodes};
pub use numbers::{NodeList, has_layer, has_node, has_nodes, nothing};
pub use presence::{edge_present, has_event, node_present, pair_present};
pub use ready_ops::{ReadyOp, ReadyOps};
pub use ready_views::{nodes_of, ready};
pub use roster_laws::{
    keeping_views_are_covered, whole_roster_covers_each_world, windows_are_covered,
};
pub use rosters::{EdgeList, Roster};
pub use view::View;
