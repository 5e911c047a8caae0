//! Decoding of ids, names, paths, merges, and the records of backends and operation stores.
mod commits;
mod ids;
mod merges;
mod names;
mod op_store;
mod paths;
mod signatures;
mod trees;
