//! The history of a store in memory: it is read once, and then merge bases and heads are found over
//! numbers.
#![tactic(auto)]

mod commit_graph;
mod numbering;

pub use crate::commit_graph::CommitGraph;
