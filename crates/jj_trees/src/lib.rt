//! An in-memory backend, and recursive merges of trees over any backend.
#![tactic(auto)]

pub mod laws;
pub mod memory_backend;
pub mod tree_merge;
