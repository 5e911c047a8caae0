//! Tests of matchers and of the walk, over the public calls.
//
// In a run with an injected allocation failure, a test returns the failure and is run once more.
#![tactic(auto)]

#[cfg(test)]
pub mod callers;
#[cfg(test)]
mod fixtures;
#[cfg(test)]
pub mod own_matcher;
#[cfg(test)]
mod walks;
