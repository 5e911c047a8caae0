//! Proved callers of walks over commits, and tests of walks that are no rows of the table.
#![tactic(auto)]

#[cfg(test)]
pub mod adjacency;
#[cfg(test)]
pub mod ancestry;
#[cfg(test)]
pub mod branches;
#[cfg(test)]
pub mod callers;
#[cfg(test)]
pub mod children_first;
#[cfg(test)]
mod chunks;
#[cfg(test)]
mod closest_common_tests;
pub mod commits;
#[cfg(test)]
mod edges;
#[cfg(test)]
pub mod failing_callers;
#[cfg(test)]
pub mod large;
pub mod lookups;
#[cfg(test)]
pub mod missing;
#[cfg(test)]
mod outcomes;
#[cfg(test)]
mod strings;
#[cfg(test)]
mod walk_errors;
