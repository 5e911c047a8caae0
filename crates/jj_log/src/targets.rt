//! Targets of edges: the nearest ancestors that are not elided, by dynamic programming over a
//! topological order, parents first.
ghost use Rattle.std.specs.Prelude.{◌≡◌, ◌∷◌, [], ◌<◌, ℕ, true, length, map, false, IfOk, OnOk};
ghost use Rattle.std.specs.List.{Contains};
ghost use Rattle.jj_log.specs.Edges.{AreEdges, AreTargets, IsOfType};
ghost use Rattle.jj_log.specs.Numbers.{is_elided};
ghost use Rattle.jj_log.specs.Orders.{IsCommitOrder};
ghost use Rattle.jj_log.specs.Targets.{AddsNew, AddsVia, KnowsParents, KnowsTargets, targets_at};

use crate::commits::{NumberedCommit, is_elided_at, is_visible_at, parents_at};
use jj_dag::dense_set::DenseSet;
use jj_dag::node_set::NodeSet;
use jj_walks::graph::GraphEdge;
use std::alloc::{AllocError, Global};

fn insert_all(set: &mut DenseSet, numbers: &[usize]) -> Result<(), AllocError>
    ensures { OnOk result (AddsNew numbers.now set.old set.new) }
{
    for number in numbers {
        set.insert(*number)?;
    }
    Ok(())
}

/// Returns the targets of a number.
pub fn list_at(known: &[Vec<usize>], number: usize) -> &[usize]
    ensures { result.now ≡ targets_at known.now number }
{
    match known.get(number) {
        Some(targets) => targets.as_slice(),
        None => &[],
    }
}

// Inserts the targets of a parent if it is elided, or else the parent itself.
fn insert_via(
    commits: &[NumberedCommit],
    known: &[Vec<usize>],
    targets: &mut DenseSet,
    parent: usize,
) -> Result<(), AllocError>
    requires { is_elided commits.now parent ≡ true
        → AreTargets commits.now parent (targets_at known.now parent) }
    ensures { OnOk result
        (AddsVia commits.now parent targets.old targets.new) }
{
    if !is_elided_at(commits, parent) {
        targets.insert(parent)?;
        return Ok(());
    }
    insert_all(targets, list_at(known, parent))?;
    Ok(())
}

// Returns the targets of a commit, from those of its elided parents. Overwrites `found`.
fn targets_of(
    alloc: Global,
    commits: &[NumberedCommit],
    known: &[Vec<usize>],
    found: &mut DenseSet,
    number: usize,
) -> Result<Vec<usize>, AllocError>
    requires { KnowsParents commits.now known.now number }
    ensures { IfOk result (λ targets. AreTargets commits.now number targets.items) }
{
    found.clear();
    for parent in parents_at(commits, number) {
        insert_via(commits, known, found, *parent)?;
    }
    found.as_slice().to_vec(alloc)
}

fn empty_lists(alloc: Global, count: usize) -> Result<Vec<Vec<usize>>, AllocError>
    ensures { IfOk result (λ lists. length lists.items ≡ count) }
{
    let mut lists = Vec::new(alloc);
    for _ in 0..count {
        lists.push(Vec::new(alloc))?;
    }
    Ok(lists)
}

// Sets the targets of a number, if it is a commit. Overwrites `found`.
fn add_targets(
    alloc: Global,
    commits: &[NumberedCommit],
    known: &mut Vec<Vec<usize>>,
    found: &mut DenseSet,
    number: usize,
) -> Result<(), AllocError>
    requires lists { length known.old.items ≡ length commits.now }
    requires parents { KnowsParents commits.now known.old.items number }
    ensures lists { OnOk result (length known.new.items ≡ length commits.now) }
    ensures others { OnOk result ((m : ℕ) → (number ≡ m → ⊥)
        → targets_at known.new.items m ≡ targets_at known.old.items m) }
    ensures own { OnOk result (number < length commits.now
        → AreTargets commits.now number (targets_at known.new.items number)) }
{
    if number >= commits.len() {
        return Ok(());
    }
    let targets = targets_of(alloc, commits, known, found, number)?;
    known[number] = targets;
    Ok(())
}

/// Returns the targets of each commit. `order` has each commit before its parents. Takes constant
/// time for each parent and for each target of an elided parent: `O(n + e (1 + t))` for n commits
/// with e parents, if no elided commit has more than t targets. Fails if memory runs out.
pub fn all_targets(
    alloc: Global,
    commits: &[NumberedCommit],
    order: &[usize],
) -> Result<Vec<Vec<usize>>, AllocError>
    requires { IsCommitOrder commits.now order.now }
    ensures { IfOk result (λ known. KnowsTargets commits.now known.items (λ n. Unit {0})) }
{
    let mut known = empty_lists(alloc, commits.len())?;
    let mut found = DenseSet::new(alloc);
    for index in 0..order.len() {
        let number = order[order.len() - 1 - index];
        add_targets(alloc, commits, &mut known, &mut found, number)?;
    }
    Ok(known)
}

fn edge_to(commits: &[NumberedCommit], parents: &DenseSet, target: usize) -> GraphEdge<usize>
    requires { is_elided commits.now target ≡ false }
    ensures target { result.target ≡ target }
    ensures edge_type { IsOfType commits.now parents.now result.edge_type target }
{
    if !is_visible_at(commits, target) {
        GraphEdge::missing(target)
    } else if parents.contains(&target) {
        GraphEdge::direct(target)
    } else {
        GraphEdge::indirect(target)
    }
}

/// Returns the edges of a commit to these targets, in constant time for each parent and target.
/// Overwrites `parents`, a set that callers reuse. Fails if memory runs out.
pub fn edges_of(
    alloc: Global,
    commits: &[NumberedCommit],
    parents: &mut DenseSet,
    number: usize,
    targets: &[usize],
) -> Result<Vec<GraphEdge<usize>>, AllocError>
    requires { AreTargets commits.now number targets.now }
    ensures { IfOk result (λ edges. AreEdges commits.now number edges.items) }
{
    parents.clear();
    insert_all(parents, parents_at(commits, number))?;
    let mut edges = Vec::new(alloc);
    for target in targets {
        edges.push(edge_to(commits, parents, *target))?;
    }
    Ok(edges)
}
