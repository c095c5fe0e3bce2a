//! The words of a command line, read as a command, and the events file and the script that the program makes of itself.
#![tactic(auto)]

mod generator;
mod laws;
mod words;

pub use generator::{MOST_GENERATED, generated, generator_script};
pub use laws::{commands_ask_for_records, commands_name_their_files};
pub use words::{Command, read_words};
