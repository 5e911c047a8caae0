//! Tests of jj_globs over its public calls, and proved callers of it.
//
// In a run with one failing allocation a test returns the error, and is then run again.
#![tactic(auto)]

#[cfg(test)]
pub mod callers;
#[cfg(test)]
mod globs;
