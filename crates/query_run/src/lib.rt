//! The top call: from the words of a command and the bytes of its files to the text that is written.
//!
//! What was tuned. Each choice was measured, in turn with what it took the place of, and no
//! contract rests on it.
//!
//! - **The store of a run is not given back.** The process ends soon after its answer, and the
//!   system takes its memory back at once; block by block it took a twentieth of the time of a
//!   large file.
#![tactic(auto)]

mod endings;
mod file_output;
mod laws;
mod line_blocks;
mod lines;
mod output_rows;
mod query_causes;
mod top;

pub use laws::outputs_are_one;
pub use query_answers::{AnswerFault, PointAnswer, PointAsk, answer_point, answer_query};
pub use top::{Status, Which, run};
