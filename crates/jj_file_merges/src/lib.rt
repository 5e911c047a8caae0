//! Merges of the contents of files, over any backend: at one path, and in a merge of trees.
#![tactic(auto)]

pub mod marking;
pub mod resolving;
mod terms;
pub mod trees;
