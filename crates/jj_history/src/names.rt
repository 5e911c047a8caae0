//! The names by which people know commits: their ids in Git, and refs.
use jj_ids::object_id::{CommitId, ObjectId};
use std::alloc::{AllocError, Global};
use std::collections::BTreeMap;

// The digits of a short name.
const SHORT_DIGITS: usize = 12;

/// The names of commits.
#[derive(Drop)]
pub struct CommitNames {
    git_ids: BTreeMap<CommitId, String>,
    refs: BTreeMap<CommitId, String>,
}

/// Returns the name of a ref without the first of `refs/heads/`, `refs/tags/`, `refs/remotes/` and
/// `refs/` that it begins with.
pub fn short_ref(name: &str) -> &str {
    for prefix in ["refs/heads/", "refs/tags/", "refs/remotes/", "refs/"] {
        if let Some(rest) = name.strip_prefix(prefix) {
            return rest;
        }
    }
    name
}

// Appends a ref to those of a commit, separated by commas.
fn push_ref(
    alloc: Global,
    refs: &mut BTreeMap<CommitId, String>,
    id: &CommitId,
    name: &str,
) -> Result<(), AllocError> {
    let mut names = match refs.remove(id) {
        Some(mut names) => {
            names.push_str(", ")?;
            names
        }
        None => String::new(alloc),
    };
    names.push_str(short_ref(name))?;
    refs.insert(id.clone()?, names)?;
    Ok(())
}

impl CommitNames {
    /// Returns no names.
    pub fn empty(alloc: Global) -> Self {
        CommitNames {
            git_ids: BTreeMap::new(alloc),
            refs: BTreeMap::new(alloc),
        }
    }

    /// Returns the names of commits by these refs and ids of Git.
    pub fn new(
        alloc: Global,
        refs: &BTreeMap<String, CommitId>,
        git_ids: &BTreeMap<String, CommitId>,
    ) -> Result<Self, AllocError> {
        let mut names = CommitNames::empty(alloc);
        for (git_id, id) in git_ids {
            names.git_ids.insert(id.clone()?, git_id.clone()?)?;
        }
        for (name, id) in refs {
            push_ref(alloc, &mut names.refs, id, name.as_str())?;
        }
        Ok(names)
    }

    /// Returns the id of a commit in Git, in hex digits, if it has one.
    pub fn git_id(&self, id: &CommitId) -> Option<&str> {
        match self.git_ids.get(id) {
            Some(git_id) => Some(git_id.as_str()),
            None => None,
        }
    }

    /// Returns the id of a commit in Git, and else its id in the store, in hex digits.
    pub fn name(&self, alloc: Global, id: &CommitId) -> Result<String, AllocError> {
        match self.git_id(id) {
            Some(git_id) => String::from_str(alloc, git_id),
            None => id.hex(alloc),
        }
    }

    /// Returns the first digits of the name of a commit.
    pub fn short_name(&self, alloc: Global, id: &CommitId) -> Result<String, AllocError> {
        let mut name = self.name(alloc, id)?;
        if name.is_char_boundary(SHORT_DIGITS) {
            name.truncate(SHORT_DIGITS);
        }
        Ok(name)
    }

    /// Returns the refs of a commit in short, in ascending order and separated by commas; the empty
    /// string if it has none.
    pub fn refs(&self, id: &CommitId) -> &str {
        match self.refs.get(id) {
            Some(names) => names.as_str(),
            None => "",
        }
    }
}
