//! The files of trees in any backend at the paths of a matcher.
#![tactic(auto)]

pub mod changes;
pub mod files;
