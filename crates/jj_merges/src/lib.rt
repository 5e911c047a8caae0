//! Conflicts as merges: lists of terms that are alternately added and removed.
#![tactic(auto)]

pub mod conflict_labels;
pub mod laws;
pub mod merge;
