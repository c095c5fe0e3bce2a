//! The lines of a script, read as queries.
#![tactic(auto)]

mod forms;
mod laws;
mod line;
mod places;
mod refusal;

pub use laws::{
    any_number_is_of_the_form, causes_are_judged_over_the_whole_line, causes_lie_in_values,
    lines_that_cannot_be_read_are_no_json, numbers_of_lines, queries_are_in_range,
    questions_of_lines, shapes_of_lines,
};
pub use line::read_query;
pub use refusal::QueryRefusal;
