//! Laws of walks over numbered nodes. The functions do nothing: their contracts are the laws.
#![tactic(auto)]

mod laws;

pub use laws::{
    distances_are_the_facts, least_places_are_labels, other_nodes_are_components,
    settled_walks_have_distances,
};
