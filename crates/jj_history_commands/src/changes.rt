//! Comparisons of the files of two commits.
ghost use Rattle.std.specs.Prelude.{◌≡◌, AllPairs, IfOk, OnOk};
ghost use Rattle.std.specs.Option.{option_copied};
ghost use Rattle.jj_history_commands.specs.FileSets.{AreChangesIn, IsInSet, Selects};

use crate::arguments::DiffForm;
use crate::contents::tree_of;
use crate::error::CommandError;
use crate::filesets::{is_in_set, parse_files};
use crate::revisions::commit_of;
use jj_backend::backend::{Backend, BackendResult, TreeId, TreeValue};
use jj_diff_presentation::unified::{FileMode, FileVersion, push_git_diff};
use jj_filesets::fileset::FilesetExpression;
use jj_history::quoting::push_path;
use jj_ids::object_id::{CommitId, ObjectId};
use jj_matchers::matchers::EverythingMatcher;
use jj_paths::repo_path::{RepoPath, RepoPathBuf};
use jj_tree_files::changes::{Change, changed_files};
use std::alloc::{AllocError, Global};
use std::cmp::Ordering;
use std::collections::BTreeMap;

// The lines around each change of a patch.
const CONTEXT: usize = 3;

// Appends a change if its path is in the set.
fn push_selected(
    alloc: Global,
    files: Option<&FilesetExpression>,
    change: Change,
    changes: &mut Vec<Change>,
) -> Result<(), AllocError>
    ensures { OnOk result (Selects (λ change. IsInSet (option_copied files.entry) change.path)
        change changes.old.items changes.new.items) }
{
    if is_in_set(alloc, files, change.path.as_path())? {
        changes.push(change)?;
    }
    Ok(())
}

/// Returns the paths of the set at which the files, symbolic links and submodules of two trees
/// differ, in path order, with both values. Fails with the error of a read, or if memory runs out.
pub fn changes_in<B: Backend>(
    alloc: Global,
    store: &B,
    before: &TreeId,
    after: &TreeId,
    files: Option<&FilesetExpression>,
) -> BackendResult<Vec<Change>>
    // The result has exactly the paths of the set at which the files of the trees differ, each with
    // both files.
    ensures changes { IfOk result (λ changes. AreChangesIn (B.objects store.now).trees before.now
        after.now (option_copied files.entry) changes.items) }
    // The paths ascend strictly.
    ensures ascending { IfOk result (λ changes.
        AllPairs (λ a b. ⟦<RepoPathBuf as Ord>⟧.cmp a.path b.path ≡ Ordering.Less)
        changes.items) }
{
    let all = changed_files(alloc, store, before, after, &EverythingMatcher)?;
    let mut changes = Vec::new(alloc);
    for change in all {
        push_selected(alloc, files, change, &mut changes)?;
    }
    Ok(changes)
}

fn mode_of(value: &TreeValue) -> FileMode {
    match value {
        TreeValue::File {
            executable: true,
            ..
        } => FileMode::Executable,
        TreeValue::Symlink(_) => FileMode::Symlink,
        TreeValue::GitSubmodule(_) => FileMode::Submodule,
        _ => FileMode::Normal,
    }
}

// Returns the letter of a change: of a file that is added, deleted or modified, or of another type.
fn status_of(change: &Change) -> &'static str {
    match (&change.before, &change.after) {
        (None, _) => "A\t",
        (_, None) => "D\t",
        (Some(before), Some(after)) => {
            if mode_of(before).is_same_type(mode_of(after)) {
                "M\t"
            } else {
                "T\t"
            }
        }
    }
}

// Returns a line for each change, as `git diff --name-status --no-renames` prints them.
fn status_lines(alloc: Global, changes: &[Change]) -> Result<String, AllocError> {
    let mut output = String::new(alloc);
    for change in changes {
        output.push_str(status_of(change))?;
        let path = change.path.as_path();
        push_path(alloc, &mut output, path.as_internal_file_string())?;
        output.push('\n')?;
    }
    Ok(output)
}

// Returns the content of a submodule, as Git compares it.
fn submodule_line(alloc: Global, id: &CommitId) -> Result<Vec<u8>, AllocError> {
    let mut line = Vec::from_slice(alloc, b"Subproject commit ")?;
    line.extend_from_slice(id.hex(alloc)?.as_bytes())?;
    line.push(b'\n')?;
    Ok(line)
}

// Returns the content of a file, the target of a symbolic link, or a line with the commit of a
// submodule.
fn content_of<B: Backend>(
    alloc: Global,
    store: &B,
    path: RepoPath<'_>,
    value: &TreeValue,
) -> BackendResult<Vec<u8>> {
    match value {
        TreeValue::File { id, .. } => store.read_file(alloc, path, id),
        TreeValue::Symlink(id) => match store.read_symlink(alloc, path, id) {
            Ok(target) => Ok(target.into_bytes()),
            Err(error) => Err(error),
        },
        TreeValue::GitSubmodule(id) => Ok(submodule_line(alloc, id)?),
        TreeValue::Tree(_) => Ok(Vec::new(alloc)),
    }
}

fn content_on<B: Backend>(
    alloc: Global,
    store: &B,
    path: RepoPath<'_>,
    value: &Option<TreeValue>,
) -> BackendResult<Vec<u8>> {
    match value {
        Some(value) => content_of(alloc, store, path, value),
        None => Ok(Vec::new(alloc)),
    }
}

fn version_of<'a>(value: &Option<TreeValue>, content: &'a [u8]) -> Option<FileVersion<'a>> {
    match value {
        Some(value) => Some(FileVersion {
            mode: mode_of(value),
            content,
        }),
        None => None,
    }
}

fn push_change<B: Backend>(
    alloc: Global,
    store: &B,
    text: &mut Vec<u8>,
    change: &Change,
) -> BackendResult<()> {
    let path = change.path.as_path();
    let left = content_on(alloc, store, path, &change.before)?;
    let right = content_on(alloc, store, path, &change.after)?;
    push_git_diff(
        alloc,
        text,
        path.as_internal_file_string().as_bytes(),
        version_of(&change.before, &left),
        version_of(&change.after, &right),
        CONTEXT,
    )?;
    Ok(())
}

fn patch_of<B: Backend>(alloc: Global, store: &B, changes: &[Change]) -> BackendResult<Vec<u8>> {
    let mut text = Vec::new(alloc);
    for change in changes {
        push_change(alloc, store, &mut text, change)?;
    }
    Ok(text)
}

fn text_of<B: Backend>(
    alloc: Global,
    store: &B,
    changes: &[Change],
    form: DiffForm,
) -> BackendResult<Vec<u8>> {
    match form {
        DiffForm::Patch => patch_of(alloc, store, changes),
        DiffForm::Statuses => Ok(status_lines(alloc, changes)?.into_bytes()),
    }
}

// Returns the tree of the commit that a revision names.
fn revision_tree<B: Backend>(
    alloc: Global,
    store: &B,
    refs: &BTreeMap<String, CommitId>,
    git_ids: &BTreeMap<String, CommitId>,
    revision: &str,
) -> Result<TreeId, CommandError> {
    let id = commit_of(alloc, store, refs, git_ids, revision)?;
    tree_of(alloc, store, &id, revision)
}

/// Compares the files of two commits at the paths of a file set, or at all paths without one:
/// returns a patch, as `git diff --no-renames` prints it, or a line for each path that differs.
/// Fails as `commit_of` and `parse_files` do, with `Content` if the tree of a commit is in
/// conflict, and with `Store` of the error of a read.
pub fn compare_commits<B: Backend>(
    alloc: Global,
    store: &B,
    refs: &BTreeMap<String, CommitId>,
    git_ids: &BTreeMap<String, CommitId>,
    before: &str,
    after: &str,
    files: Option<&String>,
    form: DiffForm,
) -> Result<Vec<u8>, CommandError> {
    let files = parse_files(alloc, files)?;
    let before = revision_tree(alloc, store, refs, git_ids, before)?;
    let after = revision_tree(alloc, store, refs, git_ids, after)?;
    let changes = changes_in(alloc, store, &before, &after, files.as_ref())?;
    let text = text_of(alloc, store, &changes, form)?;
    Ok(text)
}
