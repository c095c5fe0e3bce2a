//! The links that a view shows, and its present nodes by name.
//!
//! What was tuned. Each choice was measured, in turn with what it took the place of, and no
//! contract rests on it.
//!
//! - **Degrees sort the links.** The links that a view shows are listed, 8 bytes each, and sorted
//!   by their lower end and then by their higher one, so that each stands beside its way back and
//!   the two are counted at once. To look for the way back of each pair by its hash reads two or
//!   three places a pair that no other pair has read lately: a million edges between any two nodes
//!   took a twentieth more time, loading included. The counts of nodes with a link stand in a table
//!   by number, and each span is asked once at most.
#![tactic(auto)]

mod adjacency;
mod laws;
mod link_list;
mod listing;
mod neighbour_rows;
mod node_rows;

pub use adjacency::Adjacent;
pub use laws::{
    links_count_neighbours, neighbours_are_at_the_ends_of_links, pairs_are_links,
    rows_have_neighbours, shown_pairs_are_links, views_have_links,
};
pub use link_list::{Link, Links};
pub use listing::links;
pub use neighbour_rows::adjacent;
pub use node_rows::{NodeRows, present_nodes};
