//! Proved callers over a list of commits: each states the result of a walk as commits.
ghost use Rattle.std.specs.Prelude.{◌≡◌, true, IfOk, IfErr, eqb, map, reverse};
ghost use Rattle.std.specs.List.{Contains, IsDistinct};
ghost use Rattle.jj_dag.specs.CommonNodes.{AreClosestCommon};
ghost use Rattle.jj_dag.specs.Errors.{IfNode};
ghost use Rattle.jj_dag.specs.Graph.{IsAcyclicFrom, AreMaximalElements, IsPreorder};
ghost use Rattle.jj_walks_tests.specs.declared.commits.Commit.{Commit};
ghost use Rattle.jj_walks_tests.specs.Commits.{has_commit, ids_of, known_ids, parent_graph, IsParentsFirst, IsOnCycle};

use crate::commits::{Commit, commits_of, ok_parents_of, parents_of};
use jj_content_tests::fallible_iterators::collect_fallible;
use jj_walks::dag_walk::{WalkError, dfs, heads, topo_order_forward, topo_order_reverse};
use jj_walks::dag_walk_async::closest_common_nodes;
use std::alloc::{AllocError, Global};
use std::collections::HashSet;

/// Returns the commits of the list, each after its parents that are in the list. Fails with the id
/// of a commit on a cycle.
pub fn parents_first<'a>(
    alloc: Global,
    commits: &'a [Commit],
) -> Result<Vec<&'a Commit>, WalkError<u64>>
    requires { IsDistinct eqb (ids_of commits.now) }
    ensures order { IfOk result (λ order. IsParentsFirst commits.now
        (map (λ commit. commit.now) order.items)) }
    ensures cycle { IfErr result (λ e. IfNode e (IsOnCycle commits.now)) }
{
    topo_order_forward(
        alloc,
        commits.iter(),
        |commit: &&Commit| Ok(&commit.id),
        |commit: &&Commit| parents_of(commits, *commit),
        |commit: &Commit| commit.id,
    )
}

/// Returns the commits of the list, each before its parents that are in the list. Fails with the id
/// of a commit on a cycle.
pub fn parents_last<'a>(
    alloc: Global,
    commits: &'a [Commit],
) -> Result<Vec<&'a Commit>, WalkError<u64>>
    requires { IsDistinct eqb (ids_of commits.now) }
    ensures order { IfOk result (λ order. IsParentsFirst commits.now
        (reverse (map (λ commit. commit.now) order.items))) }
    ensures cycle { IfErr result (λ e. IfNode e (IsOnCycle commits.now)) }
{
    topo_order_reverse(
        alloc,
        commits.iter(),
        |commit: &&Commit| Ok(&commit.id),
        |commit: &&Commit| parents_of(commits, *commit),
        |commit: &Commit| commit.id,
    )
}

/// Returns the commits of the list that are no ancestor of another one.
pub fn tips<'a>(alloc: Global, commits: &'a [Commit]) -> Result<HashSet<&'a Commit>, AllocError>
    requires once { IsDistinct eqb (ids_of commits.now) }
    requires acyclic { IsAcyclicFrom (parent_graph commits.now) (ids_of commits.now) }
    ensures { IfOk result (λ found. AreMaximalElements (parent_graph commits.now)
        (ids_of commits.now) (map (λ commit. commit.now.id) found.keys)) }
{
    heads(
        alloc,
        commits.iter(),
        |commit: &&Commit| Ok(&commit.id),
        |commit: &&Commit| parents_of(commits, *commit),
    )
}

/// Returns the common ancestors of two sets of commits of the list that are no ancestor of another
/// one.
pub fn merge_bases<'a>(
    alloc: Global,
    commits: &'a [Commit],
    set1: &'a [Commit],
    set2: &'a [Commit],
) -> Result<Vec<&'a Commit>, WalkError<u64>>
    requires first { (c : Commit) → Contains set1.now c → has_commit commits.now c ≡ true }
    requires second { (c : Commit) → Contains set2.now c → has_commit commits.now c ≡ true }
    requires acyclic { IsAcyclicFrom (parent_graph commits.now) (ids_of set1.now) }
    ensures { IfOk result (λ bases. AreClosestCommon (parent_graph commits.now) (ids_of set1.now)
        (ids_of set2.now) (map (λ commit. commit.now.id) bases.items)) }
{
    closest_common_nodes(
        alloc,
        set1.iter(),
        set2.iter(),
        |commit: &&Commit| Ok(&commit.id),
        |commit: &&Commit| ok_parents_of(commits, *commit),
    )
}

/// Returns the commits with these ids and their ancestors in depth-first preorder.
pub fn ancestors<'a>(
    alloc: Global,
    commits: &'a [Commit],
    ids: &'a [u64],
) -> Result<Vec<&'a Commit>, AllocError>
    ensures { IfOk result (λ found. IsPreorder (parent_graph commits.now)
        (known_ids commits.now ids.now) (map (λ commit. commit.now.id) found.items)) }
{
    let walk = dfs(
        alloc,
        commits_of(commits, ids),
        |commit: &&Commit| Ok(&commit.id),
        |commit: &&Commit| parents_of(commits, *commit),
    )?;
    collect_fallible(alloc, walk)
}
