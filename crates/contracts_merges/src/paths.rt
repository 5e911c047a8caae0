//! Callers of `jj_paths`.
ghost use Rattle.std.specs.Prelude.{◌≡◌, IsOk, IsTrue, IfOk, IfErr, None};
ghost use Rattle.std.specs.Iterator.{IsFiniteIterable};
ghost use Rattle.std.specs.List.{find};
ghost use Rattle.jj_paths.specs.Names.{path_of};
ghost use Rattle.jj_paths.specs.Paths.{is_path_string, path_cmp};
ghost use Rattle.jj_paths.specs.RelativePaths.{is_disallowed, relative_components};
ghost use Rattle.jj_paths.specs.Tree.{SetsValue};

use jj_paths::repo_path::{
    InvalidNewRepoPathError, RelativePathParseError, RepoPath, RepoPathBuf, RepoPathComponent,
};
use jj_paths::repo_path_tree::RepoPathTree;
use std::alloc::{AllocError, Global};
use std::cmp::Ordering;

/// `RepoPathTree::set`.
pub fn set<V: Default + Drop>(
    tree: &mut RepoPathTree<V>,
    path: RepoPath<'_>,
    value: V,
) -> Result<(), AllocError>
    ensures { IfOk result (λ done.
        SetsValue V.is_default tree.old (path_of path.entry) value tree.new) }
{
    tree.set(path, value)
}

/// `RepoPathBuf::extend`.
pub fn extend<'n, I: IntoIterator<Item = RepoPathComponent<'n>>>(
    alloc: Global,
    path: &mut RepoPathBuf,
    names: I,
) -> Result<(), AllocError>
    requires { IsFiniteIterable I.into_iter_gives I.IntoIter.can_next I.IntoIter.remaining names }
    ensures { IfErr result (λ e. path.new ≡ path.old) }
{
    let _alloc = alloc;
    path.extend(names)
}

/// `Ord` of `RepoPath`.
pub fn compare(first: RepoPath<'_>, second: RepoPath<'_>) -> Ordering
    ensures { result ≡ path_cmp (path_of first.entry) (path_of second.entry) }
{
    first.cmp(&second)
}

/// `RepoPath::from_internal_string`.
pub fn from_internal_string(
    alloc: Global,
    value: &str,
) -> Result<RepoPath<'_>, InvalidNewRepoPathError>
    ensures { IsOk result → IsTrue (is_path_string value.now) }
{
    RepoPath::from_internal_string(alloc, value)
}

/// `RepoPathBuf::from_relative_path`.
pub fn from_relative_path(alloc: Global, path: &[u8]) -> Result<RepoPathBuf, RelativePathParseError>
    ensures { IfOk result (λ made. (made ≡ relative_components path.now)
        × (find is_disallowed (relative_components path.now) ≡ None)) }
{
    RepoPathBuf::from_relative_path(alloc, path)
}
