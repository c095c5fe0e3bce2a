//! Tests of entities, and views that keep what passes one.
#![tactic(auto)]

mod entity_test;
mod keep_view;
mod number_tests;
mod ready_test;
mod valid_test;
mod value_tests;
mod values;

pub use entity_test::{EntityTest, edge_passes_in};
pub use keep_view::KeepView;
pub use number_tests::{LayerTest, NodeTest};
pub use valid_test::{ValidTest, ends_in_addition};
pub use value_tests::{EdgeValueTest, NodeValueTest};
pub use values::key_compares;
