//! Whole runs of the top call over memory, and uses of the public types, as tests: they stand apart, so that a change of a
//! test proves nothing else again.
#![tactic(auto)]

#[cfg(test)]
mod tests;
#[cfg(test)]
mod values;
