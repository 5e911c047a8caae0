//! Tests and proved callers of the files of trees.
//
// The tests also run with one allocation failing: a call that reports it is repeated once.
#![tactic(auto)]

pub mod callers;
#[cfg(test)]
mod changes_tests;
#[cfg(test)]
mod files_tests;
#[cfg(test)]
pub mod fixtures;
