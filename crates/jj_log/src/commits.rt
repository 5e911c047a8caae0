//! The commits of a log, by names and by numbers.
ghost use Rattle.std.specs.Prelude.{◌≡◌};
ghost use Rattle.jj_log.specs.Numbers.{is_elided, is_visible, parents_of};

/// A commit with the names of its parents. A commit without a label is elided: the log leaves it
/// out, and its descendants have edges to its nearest ancestors that are not elided.
#[derive(Debug, Drop)]
pub struct Commit {
    pub name: String,
    pub parents: Vec<String>,
    pub label: Option<String>,
}

/// A commit of a list, with its parents as indices of the list. A number that is no index is a
/// commit that is missing from the list.
#[derive(Debug, Drop)]
pub struct NumberedCommit {
    pub parents: Vec<usize>,
    pub is_elided: bool,
}

/// Returns the parents of a number; a missing commit has none.
pub fn parents_at(commits: &[NumberedCommit], number: usize) -> &[usize]
    ensures { result.now ≡ parents_of commits.now number }
{
    match commits.get(number) {
        Some(commit) => commit.parents.as_slice(),
        None => &[],
    }
}

/// Returns whether the number is an elided commit.
pub fn is_elided_at(commits: &[NumberedCommit], number: usize) -> bool
    ensures { result ≡ is_elided commits.now number }
{
    match commits.get(number) {
        Some(commit) => commit.is_elided,
        None => false,
    }
}

/// Returns whether the number is a visible commit: one of the list that is not elided.
pub fn is_visible_at(commits: &[NumberedCommit], number: usize) -> bool
    ensures { result ≡ is_visible commits.now number }
{
    match commits.get(number) {
        Some(commit) => !commit.is_elided,
        None => false,
    }
}
