//! Tests and proved callers of merges of files.
//
// The tests also run with one allocation failing: a call that reports it is repeated once.
#![tactic(auto)]

pub mod callers;
#[cfg(test)]
pub mod fixtures;
#[cfg(test)]
mod path_tests;
#[cfg(test)]
mod tree_tests;
