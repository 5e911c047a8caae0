//! A backend in memory beside a log of its writes, and backends from logs.
#![tactic(auto)]

pub mod digests;
mod entry_writes;
pub mod error;
mod free_digests;
pub mod memory_log;
pub mod mirrored;
pub mod object_log;
pub mod replay;
