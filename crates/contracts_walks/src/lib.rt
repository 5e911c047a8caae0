//! Callers that restate the contracts of the libraries of graph walks; the mutations of these
//! libraries are edits of their bodies.
#![tactic(auto)]

pub mod acyclic;
pub mod dag;
pub mod walks;
