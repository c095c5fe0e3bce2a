//! The laws that a world which is printed as rows is read again as the same world.
#![tactic(auto)]

mod laws;

pub use laws::{
    a_printed_world_is_answered_as_the_world, a_printed_world_is_read_back,
    base_worlds_can_be_printed, materialise_prints_the_text_of_a_world, views_can_be_printed,
    what_a_line_leaves_is_read_back, what_a_query_leaves_is_read_back,
};
