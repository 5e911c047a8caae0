//! Tests and proved callers of jj_backend's public interface.
//
// The tests also run with one allocation failing: a call that reports it is repeated once.
#![tactic(auto)]

#[cfg(test)]
pub mod callers;
#[cfg(test)]
mod copy_tests;
#[cfg(test)]
mod records;
#[cfg(test)]
pub mod tree_callers;
