//! Callers that restate the contracts of the libraries of globs and sets of paths; the mutations of
//! these libraries are edits of their bodies.
#![tactic(auto)]

pub mod filesets;
pub mod globs;
pub mod matchers;
