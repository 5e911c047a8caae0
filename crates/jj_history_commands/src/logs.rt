//! Logs of the commits that change files of a set.
ghost use Rattle.std.specs.Prelude.{◌↔◌, IfOk, IsTrue};
ghost use Rattle.jj_history_commands.specs.FileSets.{DifferIn};

use crate::changes::changes_in;
use crate::error::CommandError;
use jj_backend::backend::{Backend, Commit, TreeId};
use jj_filesets::fileset::FilesetExpression;
use jj_history::drawing::draw_order;
use jj_history::names::CommitNames;
use jj_ids::object_id::CommitId;
use jj_store_walks::{ReadCommit, history_order};
use std::alloc::Global;

// Returns whether a tree differs from that of a parent at a path of the set. A tree in conflict
// does.
fn differs_from<B: Backend>(
    alloc: Global,
    store: &B,
    tree: &TreeId,
    parent: &CommitId,
    files: &FilesetExpression,
) -> Result<bool, CommandError> {
    let commit = store.read_commit(alloc, parent)?;
    match commit.root_tree.as_resolved() {
        Some(before) => differ(alloc, store, before, tree, files),
        None => Ok(true),
    }
}

// Returns whether two trees have different files at a path of the set.
fn differ<B: Backend>(
    alloc: Global,
    store: &B,
    before: &TreeId,
    after: &TreeId,
    files: &FilesetExpression,
) -> Result<bool, CommandError>
    ensures { IfOk result (λ differ. IsTrue differ
        ↔ DifferIn (B.objects store.now).trees before.now after.now (Some files.now)) }
{
    let changes = changes_in(alloc, store, before, after, Some(files))?;
    Ok(!changes.is_empty())
}

fn differs_from_each<B: Backend>(
    alloc: Global,
    store: &B,
    tree: &TreeId,
    parents: &[CommitId],
    files: &FilesetExpression,
) -> Result<bool, CommandError> {
    for parent in parents {
        if !differs_from(alloc, store, tree, parent, files)? {
            return Ok(false);
        }
    }
    Ok(true)
}

/// Returns whether a commit changes files of a set: whether its files at paths of the set differ
/// from those of each parent, or from no files if it has no parents. A tree in conflict differs.
/// Fails with `Store` of the error of a read, and with `Memory` if memory runs out.
pub fn changes_files<B: Backend>(
    alloc: Global,
    store: &B,
    commit: &Commit,
    files: &FilesetExpression,
) -> Result<bool, CommandError> {
    let Some(tree) = commit.root_tree.as_resolved() else {
        return Ok(true);
    };
    if commit.parents.is_empty() {
        return differ(alloc, store, store.empty_tree_id(), tree, files);
    }
    differs_from_each(alloc, store, tree, &commit.parents, files)
}

// Returns for each commit whether it is visible in the log: all are without a file set.
fn shown_commits<B: Backend>(
    alloc: Global,
    store: &B,
    order: &[ReadCommit],
    files: Option<&FilesetExpression>,
) -> Result<Vec<bool>, CommandError> {
    let mut shown = Vec::new(alloc);
    for read in order {
        let is_shown = match files {
            Some(files) => changes_files(alloc, store, &read.commit, files)?,
            None => true,
        };
        shown.push(is_shown)?;
    }
    Ok(shown)
}

/// Draws some commits and their ancestors, or those of them that change files of a set. Fails with
/// `Drawing` as `draw_order` does, with `Cycle` if the history has one, and as `changes_files`
/// does.
pub fn draw_commits<B: Backend>(
    alloc: Global,
    store: &B,
    names: &CommitNames,
    starts: &[CommitId],
    files: Option<&FilesetExpression>,
    columns: usize,
) -> Result<String, CommandError> {
    let order = history_order(alloc, store, starts)?;
    let shown = shown_commits(alloc, store, &order, files)?;
    let root = store.root_commit_id();
    let drawing = draw_order(alloc, names, root, &order, &shown, columns)?;
    Ok(drawing)
}
