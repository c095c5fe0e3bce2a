//! What an events file says: its records, taken into a store one after another.
#![tactic(auto)]

mod causes;
mod reading;

pub use causes::{Cause, word};
pub use reading::{FileReading, RefusedRecord, read_events};
