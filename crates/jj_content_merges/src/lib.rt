//! Merges of file contents, hunk by hunk.
#![tactic(auto)]

pub mod files;
pub mod laws;
