//! A caller whose lists of neighbors fail with errors that own a string: a new value at each call.
ghost use Rattle.std.specs.Prelude.{◌≡◌, true, false, IfOk, IfErr, eqb, map};
ghost use Rattle.std.specs.List.{IsDistinct};
ghost use Rattle.jj_dag.specs.Errors.{IfNode};
ghost use Rattle.jj_dag.specs.Graph.{IsAcyclicFrom, AreMaximalElements};
ghost use Rattle.jj_walks_tests.specs.Commits.{ids_of};
ghost use Rattle.jj_walks_tests.specs.Gaps.{has_ids, describes_gap, whole_graph, IsGapIn};

use crate::commits::{Commit, Gap, Parents, commit_of, parents_of};
use jj_walks::dag_walk::WalkError;
use jj_walks::dag_walk_async::heads;
use std::alloc::Global;
use std::collections::HashSet;

// Returns whether the list has a commit of each of these ids.
fn has_all(commits: &[Commit], ids: &[u64]) -> bool
    ensures { result ≡ has_ids commits.now ids.now }
{
    for id in ids {
        if commit_of(commits, *id).is_none() {
            return false;
        }
    }
    true
}

// Returns the parents of a commit, if the list has them all.
fn whole_parents_of<'a>(
    alloc: Global,
    commits: &'a [Commit],
    commit: &'a Commit,
) -> Result<Parents<'a>, Gap>
    ensures whole { IfOk result (λ parents. has_ids commits.now commit.now.parents.items ≡ true) }
    ensures parents { IfOk result (λ parents. (parents.commits.now ≡ commits.now)
        × (parents.ids.now ≡ commit.now.parents.items)) }
    ensures gap { IfErr result (λ gap. (has_ids commits.now commit.now.parents.items ≡ false)
        × (describes_gap commit.now gap ≡ true)) }
{
    if !has_all(commits, &commit.parents) {
        return match String::from_str(alloc, commit.text.as_str()) {
            Ok(text) => Err(Gap::Text(text)),
            Err(_error) => Err(Gap::Memory),
        };
    }
    Ok(parents_of(commits, commit))
}

/// Returns the commits of the list that are no ancestor of another one, over commits whose parents
/// are all in the list. If the walk reaches a commit with a missing parent, fails with that
/// commit's description.
pub fn whole_tips<'a>(
    alloc: Global,
    commits: &'a [Commit],
) -> Result<HashSet<&'a Commit>, WalkError<Gap>>
    requires once { IsDistinct eqb (ids_of commits.now) }
    requires acyclic { IsAcyclicFrom (whole_graph commits.now) (ids_of commits.now) }
    ensures tips { IfOk result (λ found. AreMaximalElements (whole_graph commits.now)
        (ids_of commits.now) (map (λ commit. commit.now.id) found.keys)) }
    ensures gap { IfErr result (λ e. IfNode e (IsGapIn commits.now)) }
{
    heads(
        alloc,
        commits.iter(),
        |commit: &&Commit| Ok(commit.id),
        |commit: &&Commit| whole_parents_of(alloc, commits, *commit),
    )
}

#[cfg(test)]
mod tests {
    use super::*;
    use jj_content_tests::retry::passes;
    use std::alloc::AllocError;
    use std::process::Abort;
    use std::test::Fail;

    fn commit(alloc: Global, id: u64, parents: &[u64], text: &str) -> Result<Commit, AllocError> {
        Ok(Commit {
            time: id,
            id,
            parents: parents.to_vec(alloc)?,
            text: String::from_str(alloc, text)?,
        })
    }

    fn found_tips<'a>(
        alloc: Global,
        commits: &'a [Commit],
    ) -> Result<HashSet<&'a Commit>, WalkError<Gap>> {
        heads(
            alloc,
            commits.iter(),
            |commit: &&Commit| Ok(commit.id),
            |commit: &&Commit| whole_parents_of(alloc, commits, *commit),
        )
    }

    // Ids, parents and descriptions of commits.
    type Rows<'a> = &'a [(u64, &'a [u64], &'a str)];

    fn commits_of(alloc: Global, rows: Rows<'_>) -> Result<Vec<Commit>, AllocError> {
        let mut commits = Vec::new(alloc);
        for (id, parents, text) in rows {
            commits.push(commit(alloc, *id, *parents, *text)?)?;
        }
        Ok(commits)
    }

    // The number of tips, or the description of a commit with a missing parent.
    fn tips_of(alloc: Global, rows: Rows<'_>) -> Result<Result<usize, String>, AllocError> {
        let commits = commits_of(alloc, rows)?;
        match found_tips(alloc, &commits) {
            Ok(tips) => Ok(Ok(tips.len())),
            Err(WalkError::Memory) => Err(AllocError),
            Err(WalkError::Node(Gap::Memory)) => Err(AllocError),
            Err(WalkError::Node(Gap::Text(text))) => Ok(Err(text)),
        }
    }

    #[test]
    fn two_commits_are_tips(rt: HostRuntime) -> Result<(), Fail> {
        passes(&rt, |rt, alloc| {
            let tips = tips_of(
                alloc,
                &[(1, &[], "root"), (2, &[1], "left"), (3, &[1], "right")],
            )?;
            assert!(rt; tips.is_ok_and(|tips| tips == 2));
            Ok(())
        })
    }

    #[test]
    fn errors_own_strings(rt: HostRuntime) -> Result<(), Fail> {
        passes(&rt, |rt, alloc| {
            let merge = "merge of what is not there";
            let tips = tips_of(
                alloc,
                &[(1, &[], "root"), (2, &[1], "left"), (4, &[2, 9], merge)],
            )?;
            assert!(rt; tips.is_err_and(|text| text.as_str() == merge));
            Ok(())
        })
    }
}
