//! Tests of views: views in views, by value and over references, and what is listed and counted of a view.
#![tactic(auto)]

#[cfg(test)]
mod arrivals;
#[cfg(test)]
mod filters;
#[cfg(test)]
mod listing;
#[cfg(test)]
mod tests;
#[cfg(test)]
mod walks;
#[cfg(test)]
mod windows_in_a_row;
