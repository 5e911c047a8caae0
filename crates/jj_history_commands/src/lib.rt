//! The commands of `jj-history`: their arguments, and the output of those that read any backend.
#![tactic(auto)]

pub mod arguments;
pub mod changes;
pub mod checks;
pub mod commands;
pub mod contents;
pub mod error;
pub mod filesets;
pub mod logs;
pub mod questions;
pub mod revisions;
pub mod usage;
