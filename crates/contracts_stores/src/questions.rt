//! Callers of `jj_commit_graph`: questions about a history that is read once.
ghost use Rattle.std.specs.Prelude.{◌≡◌, ◌∷◌, [], All, IfOk};
ghost use Rattle.std.specs.List.{Contains};
ghost use Rattle.jj_commit_graph.specs.CommitGraphs.{InEachHistoryOf};
ghost use Rattle.jj_dag.specs.NodeGraph.{AreMaximalNodes, IsCommonNode};
ghost use Rattle.jj_dag.specs.Outcomes.{IfFails};
ghost use Rattle.jj_store_walks.specs.Histories.{InEachHistory, IsHistoryError};

use jj_backend::backend::{Backend, CommitId};
use jj_commit_graph::CommitGraph;
use jj_dag::walk_error::WalkError;
use jj_store_walks::HistoryError;
use std::alloc::{AllocError, Global};
use std::slice;

// Returns the merge bases of two commits of the graph.
fn bases_in(
    alloc: Global,
    graph: &mut CommitGraph,
    left: &CommitId,
    right: &CommitId,
) -> Result<Vec<CommitId>, AllocError>
    requires left { Contains graph.old.ids left.now }
    requires right { Contains graph.old.ids right.now }
    ensures bases { IfOk result (λ bases. InEachHistoryOf graph.old (λ parents. AreMaximalNodes
        parents (IsCommonNode parents (left.now ∷ []) (right.now ∷ [])) bases.items)) }
    ensures unchanged { graph.new ≡ graph.old }
{
    match graph.merge_bases(alloc, slice::from_ref(left), slice::from_ref(right))? {
        Some(bases) => Ok(bases),
        // The graph has both commits.
        None => unreachable!(),
    }
}

// Returns the merge bases of `ours` and `theirs` and those of `left` and `right`.
fn both_bases_in(
    alloc: Global,
    graph: &mut CommitGraph,
    ours: &CommitId,
    theirs: &CommitId,
    left: &CommitId,
    right: &CommitId,
) -> Result<(Vec<CommitId>, Vec<CommitId>), AllocError>
    requires { All (Contains graph.old.ids)
        (ours.now ∷ theirs.now ∷ left.now ∷ right.now ∷ []) }
    ensures first { IfOk result (λ found. InEachHistoryOf graph.old (λ parents. AreMaximalNodes
        parents (IsCommonNode parents (ours.now ∷ []) (theirs.now ∷ [])) found.0.items)) }
    ensures second { IfOk result (λ found. InEachHistoryOf graph.old (λ parents. AreMaximalNodes
        parents (IsCommonNode parents (left.now ∷ []) (right.now ∷ [])) found.1.items)) }
{
    let first = bases_in(alloc, graph, ours, theirs)?;
    let second = bases_in(alloc, graph, left, right)?;
    Ok((first, second))
}

// Copies four ids into a list.
fn four(
    alloc: Global,
    ours: &CommitId,
    theirs: &CommitId,
    left: &CommitId,
    right: &CommitId,
) -> Result<Vec<CommitId>, AllocError>
    ensures { IfOk result (λ ids. ids.items
        ≡ ours.now ∷ theirs.now ∷ left.now ∷ right.now ∷ []) }
{
    let mut ids = Vec::new(alloc);
    ids.push(ours.clone()?)?;
    ids.push(theirs.clone()?)?;
    ids.push(left.clone()?)?;
    ids.push(right.clone()?)?;
    Ok(ids)
}

/// Reads the ancestors of four commits once, and returns the merge bases of `ours` and `theirs` and
/// those of `left` and `right`.
pub fn two_merge_bases<B: Backend>(
    alloc: Global,
    store: &B,
    ours: &CommitId,
    theirs: &CommitId,
    left: &CommitId,
    right: &CommitId,
) -> Result<(Vec<CommitId>, Vec<CommitId>), WalkError<HistoryError>>
    // The first ids are exactly the merge bases of `ours` and `theirs` in the store's history.
    ensures first { IfOk result (λ found. InEachHistory (B.objects store.now) (λ parents.
        AreMaximalNodes parents (IsCommonNode parents (ours.now ∷ []) (theirs.now ∷ []))
        found.0.items)) }
    // The second ids are exactly those of `left` and `right`.
    ensures second { IfOk result (λ found. InEachHistory (B.objects store.now) (λ parents.
        AreMaximalNodes parents (IsCommonNode parents (left.now ∷ []) (right.now ∷ []))
        found.1.items)) }
    ensures error { IfFails result (IsHistoryError (B.objects store.now) (B.may_fail store.now)
        (ours.now ∷ theirs.now ∷ left.now ∷ right.now ∷ [])) }
{
    let starts = four(alloc, ours, theirs, left, right)?;
    let mut graph = CommitGraph::read(alloc, store, &starts)?;
    match both_bases_in(alloc, &mut graph, ours, theirs, left, right) {
        Ok(found) => Ok(found),
        Err(_) => Err(WalkError::Memory),
    }
}

// Returns the heads of ids of the graph.
fn heads_in(
    alloc: Global,
    graph: &mut CommitGraph,
    ids: &[CommitId],
) -> Result<Vec<CommitId>, AllocError>
    requires { All (Contains graph.old.ids) ids.now }
    ensures { IfOk result (λ heads. InEachHistoryOf graph.old (λ parents.
        AreMaximalNodes parents (Contains ids.now) heads.items)) }
{
    match graph.heads(alloc, ids)? {
        Some(heads) => Ok(heads),
        // The graph has all these ids.
        None => unreachable!(),
    }
}

/// Returns the ids that are no proper ancestor of another one.
pub fn heads_of<B: Backend>(
    alloc: Global,
    store: &B,
    ids: &[CommitId],
) -> Result<Vec<CommitId>, WalkError<HistoryError>>
    // The heads are exactly the ids that are no proper ancestor of another one in the store's
    // history.
    ensures { IfOk result (λ heads. InEachHistory (B.objects store.now) (λ parents.
        AreMaximalNodes parents (Contains ids.now) heads.items)) }
{
    let mut graph = CommitGraph::read(alloc, store, ids)?;
    match heads_in(alloc, &mut graph, ids) {
        Ok(heads) => Ok(heads),
        Err(_) => Err(WalkError::Memory),
    }
}
