//! Callers over a list of commits that may lack parents of its commits.
ghost use Rattle.std.specs.Prelude.{◌⊎◌, IfOk, IfErr, map, reverse};
ghost use Rattle.jj_dag.specs.Errors.{IfNode};
ghost use Rattle.jj_dag.specs.Graph.{IsAcyclicFrom, AreMaximalElements, OnCycleFrom};
ghost use Rattle.jj_dag.specs.Orders.{IsWholePostorder};
ghost use Rattle.jj_walks_tests.specs.Commits.{known_ids, parent_graph};
ghost use Rattle.jj_walks_tests.specs.Missing.{AreKnownAncestors, IsMissingFrom};

use crate::commits::Commit;
use crate::lookups::look_up;
use jj_walks::dag_walk::{
    WalkError, collect_dfs_ok, heads_ok, topo_order_forward_ok, topo_order_reverse_ok,
};
use std::alloc::{AllocError, Global};
use std::collections::HashSet;

/// Returns the commits with these ids that no other of them has as an ancestor. Fails at a missing
/// commit.
pub fn tips_of<'a>(
    alloc: Global,
    commits: &'a [Commit],
    ids: &'a [u64],
) -> Result<HashSet<&'a Commit>, WalkError<u64>>
    requires { IsAcyclicFrom (parent_graph commits.now) (known_ids commits.now ids.now) }
    ensures tips { IfOk result (λ found. AreMaximalElements (parent_graph commits.now)
        (known_ids commits.now ids.now) (map (λ commit. commit.now.id) found.keys)) }
    ensures missing { IfErr result (λ e. IfNode e (IsMissingFrom commits.now ids.now)) }
{
    heads_ok(
        alloc,
        look_up(commits, ids),
        |commit: &&Commit| Ok(&commit.id),
        |commit: &&Commit| look_up(commits, &commit.parents),
    )
}

/// Returns the commits with these ids and their ancestors, parents first. Fails at a missing commit
/// and at a cycle.
pub fn ancestors_first<'a>(
    alloc: Global,
    commits: &'a [Commit],
    ids: &'a [u64],
) -> Result<Vec<&'a Commit>, WalkError<u64>>
    ensures order { IfOk result (λ order. IsWholePostorder (parent_graph commits.now)
        (known_ids commits.now ids.now) (map (λ commit. commit.now.id) order.items)) }
    ensures error { IfErr result (λ e. IfNode e (λ id. IsMissingFrom commits.now ids.now id
        ⊎ OnCycleFrom (parent_graph commits.now) (known_ids commits.now ids.now) id)) }
{
    topo_order_forward_ok(
        alloc,
        look_up(commits, ids),
        |commit: &&Commit| Ok(&commit.id),
        |commit: &&Commit| look_up(commits, &commit.parents),
        |commit: &Commit| commit.id,
    )
}

/// Returns the commits with these ids and their ancestors, children first. Fails at a missing
/// commit and at a cycle.
pub fn ancestors_last<'a>(
    alloc: Global,
    commits: &'a [Commit],
    ids: &'a [u64],
) -> Result<Vec<&'a Commit>, WalkError<u64>>
    ensures order { IfOk result (λ order. IsWholePostorder (parent_graph commits.now)
        (known_ids commits.now ids.now) (reverse (map (λ commit. commit.now.id) order.items))) }
    ensures error { IfErr result (λ e. IfNode e (λ id. IsMissingFrom commits.now ids.now id
        ⊎ OnCycleFrom (parent_graph commits.now) (known_ids commits.now ids.now) id)) }
{
    topo_order_reverse_ok(
        alloc,
        look_up(commits, ids),
        |commit: &&Commit| Ok(&commit.id),
        |commit: &&Commit| look_up(commits, &commit.parents),
        |commit: &Commit| commit.id,
    )
}

/// Returns the commits with these ids and their ancestors, depth first. The item of a missing
/// commit is its id. Fails if memory runs out.
pub fn known_ancestors<'a>(
    alloc: Global,
    commits: &'a [Commit],
    ids: &'a [u64],
) -> Result<Vec<Result<&'a Commit, u64>>, AllocError>
    ensures { IfOk result (λ found. AreKnownAncestors commits.now ids.now found.items) }
{
    collect_dfs_ok(
        alloc,
        look_up(commits, ids),
        |commit: &&Commit| Ok(&commit.id),
        |commit: &&Commit| look_up(commits, &commit.parents),
    )
}
