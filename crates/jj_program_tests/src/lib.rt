//! Proved callers of the program's engine, and tests with readers and writers that fail.
#![tactic(auto)]

#[cfg(test)]
pub mod callers;
#[cfg(test)]
mod ends;
#[cfg(test)]
mod runs;
#[cfg(test)]
mod sample_tests;
#[cfg(test)]
mod start_tests;
