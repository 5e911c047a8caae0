//! Tests of jj_strings over its public calls, and proved callers of it.
//
// In a run with one failing allocation a test returns the error, and is then run again.
#![tactic(auto)]

#[cfg(test)]
pub mod callers;
#[cfg(test)]
mod fixtures;
#[cfg(test)]
mod lookup;
#[cfg(test)]
mod maps;
#[cfg(test)]
mod searchers;
