//! Views and operations of a repository, commit signing, and the paths of workspaces.
#![tactic(auto)]

pub mod op_store;
pub mod signing;
pub mod workspace_store;
