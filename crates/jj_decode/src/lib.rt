//! Decoding of content, the prefix-free serialization that content hashes digest.
#![tactic(auto)]

pub mod decode;
pub mod error;
mod hash_tables;
mod integers;
pub mod lists;
mod maps;
pub mod read_content;
mod records;
pub mod strings;
mod tuples;
