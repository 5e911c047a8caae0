//! A user-defined matcher, and a walk with it, proved from the contracts.
ghost use Rattle.std.specs.Prelude.{◌≡◌, ◌↔◌, ◌∷◌, [], true, map, Contains, IfOk};
ghost use Rattle.std.specs.List.Sorted.{IsStrictlySortedBy};
ghost use Rattle.jj_paths.specs.Paths.{Name, Path, path_cmp};
ghost use Rattle.jj_paths.specs.Names.{name_of, path_of};
ghost use Rattle.jj_matchers.specs.Visits.{has_names, is_among};
ghost use Rattle.jj_matchers_tests.specs.TopLevel.{starts_among, top_level_spec};

use jj_matchers::matchers::{Matcher, SortedNames, SortedVisit, walk_marks};
use jj_paths::repo_path::{RepoPath, RepoPathComponent, RepoPathComponentBuf};
use std::alloc::{AllocError, Global};
use std::collections::HashSet;

/// The paths at or below children of the root with these names.
#[derive(Drop)]
pub struct TopLevelMatcher {
    names: HashSet<RepoPathComponentBuf>,
}

impl TopLevelMatcher {
    /// Creates the matcher of these names.
    pub fn new(names: HashSet<RepoPathComponentBuf>) -> TopLevelMatcher
        ensures { result.names ≡ names }
    {
        TopLevelMatcher { names }
    }

    fn has(&self, name: RepoPathComponent<'_>) -> bool
        ensures { result ≡ is_among self.now.names.keys (name_of name.entry) }
    {
        self.names.iter().any(|own| name == own.as_component())
    }
}

fn is_below_root(path: RepoPath<'_>) -> bool
    ensures { result ≡ has_names (path_of path.entry) }
{
    !path.is_root()
}

impl Matcher for TopLevelMatcher {
    ghost accepts = { λ m. starts_among m.names.keys };

    ghost opens = { λ m path. true };

    ghost visits = { λ m. top_level_spec m.names.keys };

    ghost mentioned = { λ m dir. [] };

    fn matches(&self, file: RepoPath<'_>) -> bool {
        match file.split_first() {
            None => false,
            Some((name, _)) => self.has(name),
        }
    }

    fn visit_sorted(
        &self,
        _alloc: Global,
        dir: RepoPath<'_>,
    ) -> Result<SortedVisit<'_>, AllocError> {
        if self.matches(dir) {
            return Ok(SortedVisit::AllRecursively);
        }
        if is_below_root(dir) {
            return Ok(SortedVisit::Nothing);
        }
        Ok(SortedVisit::Specific {
            dirs: SortedNames::All,
            files: SortedNames::All,
        })
    }
}

/// Returns the files of a list that are at or below one of these children of the root, in path
/// order and each once.
pub fn files_under<'t>(
    alloc: Global,
    files: &[RepoPath<'t>],
    names: HashSet<RepoPathComponentBuf>,
) -> Result<Vec<RepoPath<'t>>, AllocError>
    ensures found { IfOk result (λ found. (path : Path) → Contains (map path_of found.items) path
        ↔ (Contains (map path_of files.now) path
        × ((name : Name) × (rest : Path) × (path ≡ name ∷ rest) × Contains names.keys name))) }
    ensures ordered { IfOk result (λ found.
        IsStrictlySortedBy path_cmp (map path_of found.items)) }
{
    let matcher = TopLevelMatcher::new(names);
    Ok(walk_marks(alloc, files, &matcher)?.files)
}
