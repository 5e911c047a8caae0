//! Import of streams of Git into a backend.
#![tactic(auto)]

mod change_paths;
mod changes;
mod commits;
pub mod error;
pub mod importer;
mod marks;
mod name_maps;
mod name_records;
pub mod names;
mod records;
pub mod stream;
