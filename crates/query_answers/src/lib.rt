//! A query's block on a store: its row, and the answer on each world that it asks about.
#![tactic(auto)]

mod answer_fault;
mod block_rows;
mod laws;
mod part;
mod query_block;
mod view_block;
mod windows_block;

pub use answer_fault::AnswerFault;
pub use block_rows::append_rows;
pub use laws::readings_of_two_questions;
pub use part::add_part;
pub use query_block::answer_query;
pub use view_answers::{PointAnswer, PointAsk, answer_point};
