//! Changes of trees, and the values at their paths.
#![tactic(auto)]

pub mod laws;
pub mod path_value;
pub mod tree_builder;
