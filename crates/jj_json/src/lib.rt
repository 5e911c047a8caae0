//! Conversion of values, names, paths, merges and records to JSON.
#![tactic(auto)]

mod ids;
mod merges;
mod operations;
mod paths;
mod records;
pub mod to_json;
