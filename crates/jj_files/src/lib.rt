//! File utilities: byte streams, directories and lexical path operations.
#![tactic(auto)]

pub mod file_util;
pub mod fs_text;
