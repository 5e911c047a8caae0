//! Proved callers of paths, and tests with their own readers, writers and directories.
//! All other cases are rows of the conformance table.
//
// In a run with an injected allocation failure, a test returns the failure and is run once more.
#![tactic(auto)]

#[cfg(test)]
pub mod callers;
#[cfg(test)]
mod directories;
#[cfg(test)]
mod error_tests;
#[cfg(test)]
mod file_util_tests;
#[cfg(test)]
mod fixtures;
#[cfg(test)]
pub mod fs_callers;
#[cfg(test)]
pub mod listings;
#[cfg(test)]
mod trees;
