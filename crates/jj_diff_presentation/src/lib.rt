//! Presentation of diffs of file contents.
#![tactic(auto)]

mod lines;
pub mod unified;
