//! Callers that order a list of commits, children first.
ghost use Rattle.std.specs.Prelude.{◌≡◌, IfOk, IfErr, map};
ghost use Rattle.jj_walks.specs.Chunks.{IsNextChunk};
ghost use Rattle.jj_dag.specs.Errors.{IfNode};
ghost use Rattle.jj_dag.specs.Graph.{IsTopologicalOrder, ReachesCycle};
ghost use Rattle.jj_walks_tests.specs.Commits.{known_ids, parent_graph};
ghost use Rattle.jj_walks_tests.specs.Newest.{IsNewestFirst};

use crate::commits::{Commit, failing_parents_of, ok_commits, ok_parent_ids};
use jj_walks::dag_walk::WalkError;
use jj_walks::dag_walk_async::{
    topo_order_reverse_chunked, topo_order_reverse_lazy, topo_order_reverse_ord,
};
use smallvec::SmallVec;
use std::alloc::Global;

/// Returns the commits with these ids and their ancestors, each before its parents, produced
/// lazily. An error other than out of memory means that one of them is its own ancestor.
pub fn children_first<'a>(
    alloc: Global,
    commits: &'a [Commit],
    ids: &'a [u64],
) -> Result<Vec<&'a Commit>, WalkError<u64>>
    ensures order { IfOk result (λ order. IsTopologicalOrder (parent_graph commits.now)
        (known_ids commits.now ids.now) (map (λ commit. commit.now.id) order.items)) }
    ensures cycle { IfErr result (λ e. IfNode e (λ _. ReachesCycle (parent_graph commits.now)
        (known_ids commits.now ids.now))) }
{
    let walk = topo_order_reverse_lazy(
        alloc,
        ok_commits(commits, ids),
        |commit: &&Commit| Ok(&commit.id),
        |commit: &&Commit| failing_parents_of(commits, *commit),
        |commit: &Commit| commit.id,
    )?;
    let mut order = Vec::new(alloc);
    for item in walk {
        let commit = item?;
        order.push(commit)?;
    }
    Ok(order)
}

/// Returns such a list in one call, with the newest ready commit at each position.
pub fn newest_first<'a>(
    alloc: Global,
    commits: &'a [Commit],
    ids: &'a [u64],
) -> Result<Vec<&'a Commit>, WalkError<u64>>
    ensures order { IfOk result (λ order. IsNewestFirst commits.now
        (known_ids commits.now ids.now) (map (λ commit. commit.now.id) order.items)) }
    ensures cycle { IfErr result (λ e. IfNode e (λ _. ReachesCycle (parent_graph commits.now)
        (known_ids commits.now ids.now))) }
{
    topo_order_reverse_ord(
        alloc,
        ok_commits(commits, ids),
        |commit: &&Commit| Ok(&commit.id),
        |commit: &&Commit| failing_parents_of(commits, *commit),
        |commit: &Commit| commit.id,
    )
}

/// Returns the next chunk of the ids of such a list, and leaves the starts of the next one.
pub fn next_ids(
    alloc: Global,
    commits: &[Commit],
    start: &mut Vec<u64>,
) -> Result<SmallVec<u64, 1>, WalkError<u64>>
    ensures chunk { IfOk result (λ chunk. IsNextChunk (parent_graph commits.now) start.old.items
        chunk.items start.new.items) }
    ensures cycle { IfErr result (λ e. IfNode e (λ _. ReachesCycle (parent_graph commits.now)
        start.old.items)) }
{
    topo_order_reverse_chunked(
        alloc,
        start,
        |id: &u64| Ok(*id),
        |id: &u64| ok_parent_ids(commits, *id),
        |id: u64| id,
    )
}

#[cfg(test)]
mod tests {
    use super::*;
    use crate::outcomes::found;
    use jj_content_tests::retry::passes;
    use std::alloc::AllocError;
    use std::process::Abort;
    use std::test::Fail;

    fn commit(alloc: Global, time: u64, id: u64, parents: &[u64]) -> Result<Commit, AllocError> {
        Ok(Commit {
            time,
            id,
            parents: parents.to_vec(alloc)?,
            text: String::new(alloc),
        })
    }

    // Commits of these times, ids and parents.
    fn commits_of(alloc: Global, rows: &[(u64, u64, &[u64])]) -> Result<Vec<Commit>, AllocError> {
        let mut commits = Vec::new(alloc);
        for (time, id, parents) in rows {
            commits.push(commit(alloc, *time, *id, *parents)?)?;
        }
        Ok(commits)
    }

    // The reachable ids, the newest first where there is a choice.
    fn newest_ids(
        alloc: Global,
        commits: &[Commit],
        heads: &[u64],
    ) -> Result<Vec<u64>, WalkError<u64>> {
        let mut ids = Vec::new(alloc);
        for commit in newest_first(alloc, commits, heads)?.iter() {
            ids.push(commit.id)?;
        }
        Ok(ids)
    }

    static HISTORY: [(u64, u64, &[u64]); 5] = [
        (1, 1, &[]),
        (9, 2, &[1]),
        (5, 3, &[1]),
        (5, 4, &[1]),
        (6, 5, &[2, 3]),
    ];

    #[test]
    fn newest_commits_come_first(rt: HostRuntime) -> Result<(), Fail> {
        passes(&rt, |rt, alloc| {
            let commits = commits_of(alloc, &HISTORY)?;
            let ids = found(rt, newest_ids(alloc, &commits, &[4, 5]))?;
            assert_eq!(rt; ids.as_slice(), [5, 2, 4, 3, 1].as_slice());
            Ok(())
        })
    }
}
