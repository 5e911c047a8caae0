//! A list of commits: the type of the nodes, and the parents of one.
ghost use Rattle.std.specs.Prelude.{◌≡◌, IsOkAnd, MatchOption, None, Ok, Some, map};
ghost use Rattle.std.specs.Iterator.{YieldsFirstRef, item_count};
ghost use Rattle.jj_walks_tests.specs.Commits.{commit_with, parent_graph};
ghost use Rattle.jj_walks_tests.specs.Parents.{ids_left};

/// A commit. Commits are ordered by time, and by id where two have one time.
#[derive(PartialEq, Eq, PartialOrd, Ord, Hash, Drop)]
pub struct Commit {
    pub time: u64,
    pub id: u64,
    pub parents: Vec<u64>,
    pub text: String,
}

/// An error of listing the parents of a commit.
#[derive(Debug, Drop)]
pub enum Gap {
    Memory,
    /// The description of a commit with a parent that is not in the list.
    Text(String),
}

/// The first commit of the list that has this id.
pub fn commit_of(commits: &[Commit], id: u64) -> Option<&Commit>
    ensures { MatchOption result (commit_with commits.now id ≡ None)
        (λ commit. commit_with commits.now id ≡ Some commit.now) }
{
    for commit in commits {
        if commit.id == id {
            return Some(commit);
        }
    }
    None
}

/// The parents of a commit that are in the list.
#[derive(Drop)]
pub struct Parents<'a> {
    commits: &'a [Commit],
    ids: &'a [u64],
}

impl<'a> Iterator for Parents<'a> {
    type Item = &'a Commit;

    ghost use Rattle.jj_walks_tests.specs.Parents.{parents_left};

    ghost next_gives = { YieldsFirstRef parents_left };

    ghost remaining = { item_count parents_left };

    fn next(&mut self) -> Option<&'a Commit> {
        while let Some((id, others)) = self.ids.split_first() {
            self.ids = others;
            if let Some(commit) = commit_of(self.commits, *id) {
                return Some(commit);
            }
        }
        None
    }
}

/// The parents of a commit that are in the list, in the order in which it names them.
pub fn parents_of<'a>(commits: &'a [Commit], commit: &'a Commit) -> Parents<'a>
    ensures commits { result.commits.now ≡ commits.now }
    ensures ids { result.ids.now ≡ commit.now.parents.items }
{
    Parents {
        commits,
        ids: &commit.parents,
    }
}

/// Returns the parents as a result, which is never an error.
pub fn ok_parents_of<'a>(commits: &'a [Commit], commit: &'a Commit) -> Result<Parents<'a>, u64>
    ensures { IsOkAnd result (λ parents. (parents.commits.now ≡ commits.now)
        × (parents.ids.now ≡ commit.now.parents.items)) }
{
    Ok(parents_of(commits, commit))
}

/// Commits of the list, as items that may fail in the eyes of a walk. They never do.
#[derive(Drop)]
pub struct OkCommits<'a> {
    found: Parents<'a>,
}

impl<'a> Iterator for OkCommits<'a> {
    type Item = Result<&'a Commit, u64>;

    ghost use Rattle.std.specs.Iterator.{YieldsFirstBy, item_count};
    ghost use Rattle.jj_walks_tests.specs.Parents.{value_of_item, items_left};

    ghost next_gives = { YieldsFirstBy value_of_item items_left };

    ghost remaining = { item_count items_left };

    fn next(&mut self) -> Option<Result<&'a Commit, u64>> {
        match self.found.next() {
            Some(commit) => Some(Ok(commit)),
            None => None,
        }
    }
}

/// The commits of the list that have these ids, in the order of the ids.
pub fn ok_commits<'a>(commits: &'a [Commit], ids: &'a [u64]) -> OkCommits<'a>
    ensures commits { result.found.commits.now ≡ commits.now }
    ensures ids { result.found.ids.now ≡ ids.now }
{
    OkCommits {
        found: Parents { commits, ids },
    }
}

/// The parents of a commit that are in the list, as such items.
pub fn failing_parents_of<'a>(commits: &'a [Commit], commit: &'a Commit) -> OkCommits<'a>
    ensures commits { result.found.commits.now ≡ commits.now }
    ensures ids { result.found.ids.now ≡ commit.now.parents.items }
{
    ok_commits(commits, &commit.parents)
}

/// The ids of commits of the list, as such items.
#[derive(Drop)]
pub struct OkIds<'a> {
    found: Parents<'a>,
}

impl<'a> Iterator for OkIds<'a> {
    type Item = Result<u64, u64>;

    ghost use Rattle.std.specs.Iterator.{YieldsFirst, item_count};
    ghost use Rattle.jj_walks_tests.specs.Parents.{ids_left};

    ghost next_gives = { YieldsFirst ids_left };

    ghost remaining = { item_count ids_left };

    fn next(&mut self) -> Option<Result<u64, u64>> {
        match self.found.next() {
            Some(commit) => Some(Ok(commit.id)),
            None => None,
        }
    }
}

/// The ids of the parents, in the list, of the commit with this id; none where there is no such
/// commit.
pub fn ok_parent_ids<'a>(commits: &'a [Commit], id: u64) -> OkIds<'a>
    ensures { ids_left result ≡ map (λ n. Ok n) (parent_graph commits.now id) }
{
    match commit_of(commits, id) {
        Some(commit) => OkIds {
            found: parents_of(commits, commit),
        },
        None => OkIds {
            found: Parents { commits, ids: &[] },
        },
    }
}

/// The commits of the list that have these ids, in the order of the ids.
pub fn commits_of<'a>(commits: &'a [Commit], ids: &'a [u64]) -> Parents<'a>
    ensures commits { result.commits.now ≡ commits.now }
    ensures ids { result.ids.now ≡ ids.now }
{
    Parents { commits, ids }
}
