//! Texts that are read and written, and the files in which they stand, as tests: they stand apart,
//! so that the crates of which they tell are proved once, and a change of a test proves nothing
//! else again.
#![tactic(auto)]

#[cfg(test)]
mod commands;
#[cfg(test)]
mod files;
#[cfg(test)]
mod records;
#[cfg(test)]
mod scripts;
#[cfg(test)]
mod values;
