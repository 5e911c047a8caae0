//! Encodings: content hashing, BLAKE2b, hexadecimal and string escapes.
#![tactic(auto)]

pub mod blake2b;
pub mod content_hash;
pub mod hex_util;
pub mod symbol_util;
