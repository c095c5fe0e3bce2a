//! Stores that take and refuse events and types, what they keep these in, and timelines, as tests: they
//! stand apart, so that a change of a test proves nothing else again.
#![tactic(auto)]

#[cfg(test)]
mod events;
#[cfg(test)]
mod histories;
#[cfg(test)]
mod linked_lists;
#[cfg(test)]
mod names;
#[cfg(test)]
mod numbered_names;
#[cfg(test)]
mod timelines;
#[cfg(test)]
mod types;
