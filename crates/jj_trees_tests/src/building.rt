//! Builders of names, paths, trees and merges, for the tests and proved callers.
ghost use Rattle.std.specs.Prelude.{◌≡◌, IfSome};

use jj_backend::backend::{BackendError, BackendResult, CopyId, FileId, Tree, TreeValue};
use jj_files::file_util::{SourceError, SourceKind};
use jj_merges::merge::{Diff, Merge};
use jj_paths::repo_path::{RepoPathBuf, RepoPathComponentBuf};
use std::alloc::{AllocError, Global};

/// Creates a tree of entries, or returns `None` if their names do not ascend strictly.
pub fn tree_of_entries(entries: Vec<(RepoPathComponentBuf, TreeValue)>) -> Option<Tree>
    ensures { IfSome result (λ tree. tree ≡ entries.items) }
{
    if Tree::are_sorted(&entries) {
        Some(Tree::from_sorted_entries(entries))
    } else {
        None
    }
}

/// Returns an error for invalid data.
pub fn bad_data(alloc: Global, message: &str) -> BackendError {
    match String::from_str(alloc, message) {
        Ok(message) => BackendError::Other(SourceError {
            kind: SourceKind::Data,
            message,
        }),
        Err(_) => BackendError::Memory,
    }
}

/// Creates the name of an entry; fails if the string is not a name.
pub fn component(alloc: Global, name: &str) -> BackendResult<RepoPathComponentBuf> {
    match RepoPathComponentBuf::new(String::from_str(alloc, name)?) {
        Ok(component) => Ok(component),
        Err(_) => Err(bad_data(alloc, "not a name")),
    }
}

/// Creates a path; fails if the string is not a path.
pub fn path(alloc: Global, text: &str) -> BackendResult<RepoPathBuf> {
    match RepoPathBuf::from_internal_string(String::from_str(alloc, text)?) {
        Ok(path) => Ok(path),
        Err(_) => Err(bad_data(alloc, "not a path")),
    }
}

/// Creates a tree of entries; fails if their names do not ascend strictly.
pub fn ascending_tree(
    alloc: Global,
    entries: Vec<(RepoPathComponentBuf, TreeValue)>,
) -> BackendResult<Tree> {
    match tree_of_entries(entries) {
        Some(tree) => Ok(tree),
        None => Err(bad_data(alloc, "names do not ascend")),
    }
}

/// Creates a file that is neither executable nor a copy.
pub fn plain_file(alloc: Global, id: FileId) -> TreeValue {
    TreeValue::File {
        id,
        executable: false,
        copy_id: CopyId::placeholder(alloc),
    }
}

/// Creates the merge of two sides and their base.
pub fn sides_of<T: Drop>(
    alloc: Global,
    left: T,
    base: T,
    right: T,
) -> Result<Merge<T>, AllocError> {
    let mut diffs = Vec::new(alloc);
    diffs.push(Diff::new(base, right))?;
    Merge::from_diffs(alloc, left, diffs)
}
