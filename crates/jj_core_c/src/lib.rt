//! The C interface: exports over slices of bytes and numbers, declared in `include/jj_core.h`.
#![tactic(auto)]

mod array_graph;
mod buffers;
mod digests;
mod error;
mod filesets;
mod flatten;
mod globs;
mod graph_batches;
mod graphs;
mod hasher;
mod hex;
mod id_prefixes;
mod joined_lists;
mod merges;
mod paths;
mod pieces;
mod text_merges;
mod tree_walks;
