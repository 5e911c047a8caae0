//! Tests and proved callers of jj_trees' public interface.
//
// The tests also run with one allocation failing: a call that reports it is repeated once.
#![tactic(auto)]

#[cfg(test)]
pub mod building;
#[cfg(test)]
pub mod callers;
#[cfg(test)]
mod levels_tests;
#[cfg(test)]
pub mod object_callers;
#[cfg(test)]
mod one_byte_tests;
#[cfg(test)]
mod root_tests;
#[cfg(test)]
pub mod three_sides;
#[cfg(test)]
mod three_sides_tests;
#[cfg(test)]
pub mod tree_paths;
