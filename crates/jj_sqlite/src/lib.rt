//! A backend that keeps its objects in an SQLite database.
#![tactic(auto)]

mod counts;
pub mod error;
pub mod files;
mod row_replay;
pub mod sqlite_batch;
pub mod sqlite_log;
pub mod store;
