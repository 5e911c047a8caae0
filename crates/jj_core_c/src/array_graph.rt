//! Graphs in two arrays: the joined lists of targets, and the index at which each list ends.
ghost use Rattle.std.specs.Prelude.{◌≡◌, ◌<◌, length, All, IfOk, IsTrue, ◌↔◌, true};
ghost use Rattle.jj_core_c.specs.Pieces.{are_ends, pieces_of};

use crate::pieces::piece_at;
use jj_dag::array_graph::ArrayGraph;
use jj_dag::packed_lists::PackedLists;
use std::alloc::{AllocError, Global};

// Returns the graph in which node `n` has the `n`-th list of targets.
pub(crate) fn graph_of(
    alloc: Global,
    targets: &[usize],
    ends: &[usize],
) -> Result<ArrayGraph, AllocError>
    requires { are_ends (length targets.now) ends.now ≡ true }
    ensures { IfOk result (λ graph. graph ≡ pieces_of targets.now ends.now) }
{
    let mut lists = PackedLists::new(alloc);
    for index in 0..ends.len() {
        lists.push_list(piece_at(targets, ends, index))?;
    }
    Ok(ArrayGraph::new(lists))
}

// Returns whether all nodes are below `len`.
pub(crate) fn are_nodes(len: usize, nodes: &[usize]) -> bool
    ensures { IsTrue result ↔ All (λ node. node < len) nodes.now }
{
    nodes.iter().all(|node| *node < len)
}

// Returns whether all nodes of both lists are below `len`.
pub(crate) fn are_all_nodes(len: usize, set1: &[usize], set2: &[usize]) -> bool
    ensures { IsTrue result ↔ (All (λ node. node < len) set1.now
        × All (λ node. node < len) set2.now) }
{
    are_nodes(len, set1) && are_nodes(len, set2)
}
