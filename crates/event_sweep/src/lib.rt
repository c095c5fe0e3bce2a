//! Windows one after another over events in the order of time, each with the numbers of what it
//! shows.
#![tactic(auto)]

mod held_events;
mod laws;
mod number_set;
mod sweep;

pub use held_events::HeldEvent;
pub use laws::{event_windows_have_what_is_inside, what_is_not_shown_has_no_event};
pub use sweep::EventSweep;
