//! Facade crate: re-exports what the Rust crate has, under its names, and laws, but not what is
//! beside it, as `jj_sqlite`.
#![tactic(auto)]

pub mod content_hash;
pub mod file_util;
pub mod laws;

pub use jj_backend::backend;
pub use jj_content::{blake2b, hex_util, symbol_util};
pub use jj_dates::timestamp;
pub use jj_diff::diff;
pub use jj_files::fs_text;
pub use jj_globs::glob;
pub use jj_ids::{object_id, ref_name};
pub use jj_matchers::matchers;
pub use jj_merges::{conflict_labels, merge};
pub use jj_paths::{repo_path, repo_path_tree};
pub use jj_stores::{op_store, signing, workspace_store};
pub use jj_strings::str_util;
pub use jj_trees::{memory_backend, tree_merge};
pub use jj_walks::{dag_walk, dag_walk_async, graph};
