//! Visits: which children of a directory a matcher requires to be visited.
ghost use Rattle.std.specs.Prelude.{◌≡◌, ◌↔◌, Bool, List, IsTrue};
ghost use Rattle.jj_paths.specs.Paths.{Name, Path};
ghost use Rattle.jj_matchers.specs.VisitSpecs.{IsSound, NamesAll, nothing};
ghost use Rattle.jj_matchers.specs.MentionedNames.{MentionsOnly, IsAllOrAmong};
ghost use Rattle.jj_matchers.specs.Visits.{visit_spec, dir_names, file_names, is_among, sets_spec};

use jj_paths::repo_path::RepoPathComponentBuf;
use std::collections::HashSet;

/// Where paths of a set may be, strictly below a directory.
#[derive(Debug, PartialEq, Eq, Drop)]
pub enum Visit {
    /// Every path below is in the set.
    AllRecursively,
    /// Children that are in the set are in `files`, and deeper paths in the set are below children
    /// in `dirs`.
    Specific { dirs: VisitDirs, files: VisitFiles },
    /// No path below is in the set.
    Nothing,
}

/// The children to visit as directories.
#[derive(Debug, PartialEq, Eq, Drop)]
pub enum VisitDirs {
    All,
    Set(HashSet<RepoPathComponentBuf>),
}

/// The children to visit as files.
#[derive(Debug, PartialEq, Eq, Drop)]
pub enum VisitFiles {
    All,
    Set(HashSet<RepoPathComponentBuf>),
}

impl Visit {
    /// Returns the visit of these children; `Nothing` if both sets are empty. It is sound for a
    /// matcher that accepts no other children, and no paths below other directories.
    pub fn sets(dirs: HashSet<RepoPathComponentBuf>, files: HashSet<RepoPathComponentBuf>) -> Visit
        ensures visit { visit_spec result ≡ sets_spec dirs.keys files.keys }
        ensures sound { (accepts opens : Path → Bool) (dir : Path)
            → NamesAll accepts opens dir (is_among dirs.keys) (is_among files.keys)
            → IsSound accepts opens dir (visit_spec result) }
        ensures names { (names : List Name) → IsAllOrAmong names (is_among dirs.keys)
            → IsAllOrAmong names (is_among files.keys) → MentionsOnly names (visit_spec result) }
    {
        if dirs.is_empty() && files.is_empty() {
            Visit::Nothing
        } else {
            Visit::Specific {
                dirs: VisitDirs::Set(dirs),
                files: VisitFiles::Set(files),
            }
        }
    }

    /// Returns whether the visit is `Nothing`.
    pub fn is_nothing(&self) -> bool
        ensures { IsTrue result ↔ (visit_spec self.now ≡ nothing) }
    {
        matches!(self, Visit::Nothing)
    }
}

impl VisitDirs {
    /// Returns whether the child is to be visited.
    pub fn contains(&self, name: &RepoPathComponentBuf) -> bool
        ensures { result ≡ dir_names self.now name.now }
    {
        match self {
            VisitDirs::All => true,
            VisitDirs::Set(names) => names.contains(name),
        }
    }
}

impl VisitFiles {
    /// Returns whether the child is to be visited.
    pub fn contains(&self, name: &RepoPathComponentBuf) -> bool
        ensures { result ≡ file_names self.now name.now }
    {
        match self {
            VisitFiles::All => true,
            VisitFiles::Set(names) => names.contains(name),
        }
    }
}
