//! Callers of matchers and walks, proved from the contracts of these.
ghost use Rattle.std.specs.Prelude.{◌≡◌, ◌≢◌, ◌↔◌, true, false, [], ◌∷◌, ◌++◌, map, Contains, IfOk, IfErr};
ghost use Rattle.std.specs.List.Sorted.{IsStrictlySortedBy};
ghost use Rattle.jj_paths.specs.Paths.{Name, Path, IsBelow, path_cmp, path_string};
ghost use Rattle.jj_paths.specs.Names.{path_of};
ghost use Rattle.jj_globs.specs.GlobMeaning.{IsMatch};
ghost use Rattle.jj_globs.specs.GlobParsing.{IsGlobParseError, glob_spec};
ghost use Rattle.jj_globs.specs.GlobSyntax.{tokens_of};

use jj_globs::glob::GlobError;
use jj_matchers::laws::walks_find_accepted_marks;
use jj_matchers::matchers::{
    DifferenceMatcher, FilesMatcher, GlobsMatcher, PathGlobPattern, PrefixMatcher, marked_tree,
    walk_marks, walk_matching,
};
use jj_paths::repo_path::{RepoPath, RepoPathBuf};
use std::alloc::{AllocError, Global};

/// Returns the files of a list that are at or below `dir` and not at or below `without`, in path
/// order and each once, without the root.
pub fn files_below(
    alloc: Global,
    files: &[RepoPath<'_>],
    dir: RepoPath<'_>,
    without: RepoPath<'_>,
) -> Result<Vec<RepoPathBuf>, AllocError>
    ensures found { IfOk result (λ found. (path : Path) → Contains found.items path
        ↔ (Contains (map path_of files.now) path × (path ≢ [])
        × IsBelow path (path_of dir.entry) × (¬ IsBelow path (path_of without.entry)))) }
    ensures ordered { IfOk result (λ found. IsStrictlySortedBy path_cmp found.items) }
{
    walks_find_accepted_marks();
    let tree = marked_tree(alloc, files)?;
    let wanted = PrefixMatcher::new(alloc, &[dir])?;
    let unwanted = PrefixMatcher::new(alloc, &[without])?;
    let matcher = DifferenceMatcher::new(wanted, unwanted);
    Ok(walk_matching(alloc, &tree, &matcher)?.files)
}

/// Returns the files of a list that are below a directory and whose rest matches a pattern, in path
/// order and each once. Returns the first syntax error of the pattern, or `Memory`.
pub fn files_matching(
    alloc: Global,
    files: &[RepoPath<'_>],
    dir: RepoPath<'_>,
    pattern: &str,
) -> Result<Vec<RepoPathBuf>, GlobError>
    ensures found { IfOk result (λ found. (path : Path) → Contains found.items path
        ↔ (Contains (map path_of files.now) path × ((name : Name) × (rest : Path)
        × (path ≡ path_of dir.entry ++ name ∷ rest)
        × IsMatch (glob_spec pattern.now true false) (path_string (name ∷ rest))))) }
    ensures ordered { IfOk result (λ found. IsStrictlySortedBy path_cmp found.items) }
    ensures fault { IfErr result (λ error. IsGlobParseError error (tokens_of pattern.now)) }
{
    walks_find_accepted_marks();
    let glob = PathGlobPattern::parse(alloc, pattern)?;
    let tree = marked_tree(alloc, files)?;
    let mut globs = GlobsMatcher::builder(alloc);
    globs.add(dir, &glob)?;
    let matcher = globs.build()?;
    Ok(walk_matching(alloc, &tree, &matcher)?.files)
}

/// Returns the files on both lists, in path order and each once, without the root.
pub fn files_of_both<'t>(
    alloc: Global,
    files: &[RepoPath<'t>],
    others: &[RepoPath<'_>],
) -> Result<Vec<RepoPath<'t>>, AllocError>
    ensures found { IfOk result (λ found. (path : Path) → Contains (map path_of found.items) path
        ↔ (Contains (map path_of files.now) path × (path ≢ [])
        × Contains (map path_of others.now) path)) }
    ensures ordered { IfOk result (λ found.
        IsStrictlySortedBy path_cmp (map path_of found.items)) }
{
    let matcher = FilesMatcher::new(alloc, others)?;
    Ok(walk_marks(alloc, files, &matcher)?.files)
}
