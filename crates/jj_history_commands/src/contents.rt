//! The commands that read trees.
ghost use Rattle.std.specs.Prelude.{IfOk};
ghost use Rattle.jj_paths.specs.Paths.{components};
ghost use Rattle.jj_history.specs.FileContents.{IsContentAt, IsTreeOf};
ghost use Rattle.jj_history_commands.specs.Operands.{IsContentOf};

use crate::error::CommandError;
use crate::filesets::{is_in_set, parse_files};
use crate::revisions::commit_of;
use jj_backend::backend::{Backend, TreeId, TreeValue};
use jj_excerpts::excerpt;
use jj_filesets::fileset::FilesetExpression;
use jj_history::contents::{commit_tree, file_content};
use jj_history::error::ContentError;
use jj_history::quoting::push_path;
use jj_ids::object_id::CommitId;
use jj_matchers::matchers::EverythingMatcher;
use jj_paths::repo_path::{RepoPath, RepoPathBuf};
use jj_tree_files::files::files_matching;
use std::alloc::{AllocError, Global};
use std::collections::BTreeMap;

// Returns the error of a revision or a path, which is quoted.
fn content_error(alloc: Global, operand: &str, error: ContentError) -> CommandError {
    if matches!(&error, ContentError::Memory) {
        return CommandError::Memory;
    }
    match excerpt(alloc, operand.as_bytes()) {
        Ok(quoted) => CommandError::Content { quoted, error },
        Err(_) => CommandError::Memory,
    }
}

fn path_error(alloc: Global, path: &str) -> CommandError {
    match excerpt(alloc, path.as_bytes()) {
        Ok(quoted) => CommandError::Path { quoted },
        Err(_) => CommandError::Memory,
    }
}

/// Returns the tree of a commit, which a revision named. Fails with `Content` if it is in conflict
/// or cannot be read.
pub fn tree_of<B: Backend>(
    alloc: Global,
    store: &B,
    id: &CommitId,
    revision: &str,
) -> Result<TreeId, CommandError>
    ensures { IfOk result (IsTreeOf (B.objects store.now) id.now) }
{
    match commit_tree(alloc, store, id) {
        Ok(tree) => Ok(tree),
        Err(error) => Err(content_error(alloc, revision, error)),
    }
}

// Returns a line for each path of the set, as Git prints it.
fn path_lines(
    alloc: Global,
    listed: &[(RepoPathBuf, TreeValue)],
    files: Option<&FilesetExpression>,
) -> Result<String, AllocError> {
    let mut output = String::new(alloc);
    for (path, _value) in listed {
        let path = path.as_path();
        if is_in_set(alloc, files, path)? {
            push_path(alloc, &mut output, path.as_internal_file_string())?;
            output.push('\n')?;
        }
    }
    Ok(output)
}

/// Lists the paths of the files of a commit that are in a file set, in path order. Fails as
/// `commit_of` and `parse_files` do, and with `Content` if its tree is in conflict or cannot be
/// read.
pub fn list_files<B: Backend>(
    alloc: Global,
    store: &B,
    refs: &BTreeMap<String, CommitId>,
    git_ids: &BTreeMap<String, CommitId>,
    revision: &str,
    files: Option<&String>,
) -> Result<String, CommandError> {
    let files = parse_files(alloc, files)?;
    let id = commit_of(alloc, store, refs, git_ids, revision)?;
    let tree = tree_of(alloc, store, &id, revision)?;
    let listed = files_matching(alloc, store, &tree, &EverythingMatcher)?;
    let output = path_lines(alloc, &listed, files.as_ref())?;
    Ok(output)
}

// Returns the content of the file at a path of a commit.
fn content_at<B: Backend>(
    alloc: Global,
    store: &B,
    id: &CommitId,
    path: &str,
) -> Result<Vec<u8>, CommandError>
    ensures { IfOk result (λ content.
        IsContentAt (B.objects store.now) id.now (components path.now) content.items) }
{
    let Ok(parsed) = RepoPath::from_internal_string(alloc, path) else {
        return Err(path_error(alloc, path));
    };
    match file_content(alloc, store, id, parsed) {
        Ok(content) => Ok(content),
        Err(error) => Err(content_error(alloc, path, error)),
    }
}

/// Returns the content of the file, or the target of the symbolic link, at a path of a commit.
/// Fails as `commit_of` does, with `Path` if the path is malformed, and with `Content` if there is
/// no file at it.
pub fn read_file<B: Backend>(
    alloc: Global,
    store: &B,
    refs: &BTreeMap<String, CommitId>,
    git_ids: &BTreeMap<String, CommitId>,
    revision: &str,
    path: &str,
) -> Result<Vec<u8>, CommandError>
    // The content is that of the file at the path of the commit that the revision names.
    ensures content { IfOk result (λ content. IsContentOf (B.objects store.now) refs.now
        git_ids.now revision.now path.now content.items) }
{
    let id = commit_of(alloc, store, refs, git_ids, revision)?;
    content_at(alloc, store, &id, path)
}
