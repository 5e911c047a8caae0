//! The trees of commits, and the contents of their files.
ghost use Rattle.std.specs.Prelude.{IfErr, IfOk};
ghost use Rattle.jj_paths.specs.Names.{path_of};
ghost use Rattle.jj_history.specs.FileContents.{HasContent, IsContentAt, IsContentError, IsTreeError, IsTreeOf, IsValueError};

use crate::error::ContentError;
use jj_backend::backend::{Backend, TreeId, TreeValue};
use jj_ids::object_id::CommitId;
use jj_paths::repo_path::RepoPath;
use jj_tree_builder::path_value::path_value;
use std::alloc::Global;

/// Returns the tree of a commit. Fails with `Conflict` if it has several sides, with `Store` of the
/// error of a failed read, and with `Memory` if memory runs out.
pub fn commit_tree<B: Backend>(
    alloc: Global,
    store: &B,
    id: &CommitId,
) -> Result<TreeId, ContentError>
    // The store has the commit, whose tree this is.
    ensures tree { IfOk result (IsTreeOf (B.objects store.now) id.now) }
    // `Conflict` means that the tree of the commit has several sides.
    ensures error { IfErr result (IsTreeError (B.objects store.now) id.now) }
{
    let commit = match store.read_commit(alloc, id) {
        Ok(commit) => commit,
        Err(error) => return Err(ContentError::from(error)),
    };
    match commit.root_tree.as_resolved() {
        Some(tree) => match tree.clone() {
            Ok(tree) => Ok(tree),
            Err(_) => Err(ContentError::Memory),
        },
        None => Err(ContentError::Conflict),
    }
}

// Returns the content of the file, or the target of the symbolic link, that a value is.
fn content_of<B: Backend>(
    alloc: Global,
    store: &B,
    path: RepoPath<'_>,
    value: &Option<TreeValue>,
) -> Result<Vec<u8>, ContentError>
    ensures content { IfOk result (λ content.
        HasContent (B.objects store.now) value.now content.items) }
    ensures error { IfErr result (IsValueError value.now) }
{
    match value {
        Some(TreeValue::File { id, .. }) => match store.read_file(alloc, path, id) {
            Ok(content) => Ok(content),
            Err(error) => Err(ContentError::from(error)),
        },
        Some(TreeValue::Symlink(id)) => match store.read_symlink(alloc, path, id) {
            Ok(target) => Ok(target.into_bytes()),
            Err(error) => Err(ContentError::from(error)),
        },
        Some(TreeValue::Tree(_)) => Err(ContentError::Directory),
        Some(TreeValue::GitSubmodule(_)) => Err(ContentError::Submodule),
        None => Err(ContentError::Missing),
    }
}

/// Returns the content of the file, or the target of the symbolic link, at a path of a commit.
/// Fails with `Missing`, `Directory` or `Submodule` if there is nothing or another value at the
/// path, and as `commit_tree` does.
pub fn file_content<B: Backend>(
    alloc: Global,
    store: &B,
    id: &CommitId,
    path: RepoPath<'_>,
) -> Result<Vec<u8>, ContentError>
    // The content is that which the store has for the value at the path.
    ensures content { IfOk result (λ content. IsContentAt (B.objects store.now) id.now
        (path_of path.entry) content.items) }
    // An error but `Store` and `Memory` names the kind of value at the path, or a conflict.
    ensures error { IfErr result (IsContentError (B.objects store.now) id.now
        (path_of path.entry)) }
{
    let tree = match commit_tree(alloc, store, id) {
        Ok(tree) => tree,
        Err(error) => return Err(error),
    };
    let value = match path_value(alloc, store, &tree, path) {
        Ok(value) => value,
        Err(error) => return Err(ContentError::from(error)),
    };
    match content_of(alloc, store, path, &value) {
        Ok(content) => Ok(content),
        Err(error) => Err(error),
    }
}
