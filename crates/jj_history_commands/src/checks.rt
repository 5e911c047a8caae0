//! A check that a store has each object of a history: a breadth-first search of its trees.
ghost use Rattle.std.specs.Prelude.{◌≡◌, ℕ, List, All, Contains, IfOk, OnOk};
ghost use Rattle.jj_store_walks.specs.Histories.{IsHistoryOrder};
ghost use Rattle.jj_store_walks.specs.declared.read_commit.ReadCommit.{ReadCommit as ReadCommitValue};
ghost use Rattle.jj_history_commands.specs.FoundObjects.{AreAmong, AreStoredFiles, AreWhole};
ghost use Rattle.jj_history_commands.specs.FoundObjects.{HasTrees, IsPrefix, IsStoredFile, IsThere};
ghost use Rattle.jj_history_commands.specs.FoundObjects.{IsWhole};

use crate::error::CommandError;
use jj_backend::backend::{Backend, BackendResult, FileId, TreeId, TreeValue};
use jj_ids::object_id::CommitId;
use jj_paths::repo_path::RepoPath;
use jj_store_walks::{ReadCommit, history_order};
use std::alloc::{AllocError, Global};
use std::collections::BTreeSet;

// Adds a tree to those found, unless it is known.
fn add_tree(
    known: &mut BTreeSet<TreeId>,
    trees: &mut Vec<TreeId>,
    id: &TreeId,
) -> Result<(), AllocError>
    requires { AreAmong known.old.keys trees.old.items }
    ensures known { OnOk result (AreAmong known.new.keys trees.new.items) }
    ensures found { OnOk result (Contains trees.new.items id.now) }
    ensures prefix { OnOk result (IsPrefix trees.old.items trees.new.items) }
{
    if known.insert(id.clone()?)? {
        trees.push(id.clone()?)?;
    }
    Ok(())
}

// Reads a file, unless it was read.
fn read_once<B: Backend>(
    alloc: Global,
    store: &B,
    read: &mut BTreeSet<FileId>,
    path: RepoPath<'_>,
    id: &FileId,
) -> BackendResult<()>
    requires { AreStoredFiles (B.objects store.now) read.old.keys }
    ensures read { OnOk result (AreStoredFiles (B.objects store.now) read.new.keys) }
    ensures found { OnOk result (IsStoredFile (B.objects store.now) id.now) }
{
    if read.contains(id) {
        return Ok(());
    }
    let _content = store.read_file(alloc, path, id)?;
    read.insert(id.clone()?)?;
    Ok(())
}

// Adds the tree of an entry, or reads its file or link.
fn check_value<B: Backend>(
    alloc: Global,
    store: &B,
    known: &mut BTreeSet<TreeId>,
    trees: &mut Vec<TreeId>,
    read: &mut BTreeSet<FileId>,
    value: &TreeValue,
) -> BackendResult<()>
    requires known { AreAmong known.old.keys trees.old.items }
    requires read { AreStoredFiles (B.objects store.now) read.old.keys }
    ensures known { OnOk result (AreAmong known.new.keys trees.new.items) }
    ensures read { OnOk result (AreStoredFiles (B.objects store.now) read.new.keys) }
    ensures found { OnOk result (IsThere (B.objects store.now) trees.new.items value.now) }
    ensures prefix { OnOk result (IsPrefix trees.old.items trees.new.items) }
{
    let path = RepoPath::root();
    match value {
        TreeValue::Tree(id) => {
            add_tree(known, trees, id)?;
            Ok(())
        }
        TreeValue::File { id, .. } => read_once(alloc, store, read, path, id),
        TreeValue::Symlink(id) => {
            let _target = store.read_symlink(alloc, path, id)?;
            Ok(())
        }
        TreeValue::GitSubmodule(_) => Ok(()),
    }
}

// Reads a tree, and the files and links of its entries, and adds its subtrees to those found.
fn check_tree<B: Backend>(
    alloc: Global,
    store: &B,
    known: &mut BTreeSet<TreeId>,
    trees: &mut Vec<TreeId>,
    read: &mut BTreeSet<FileId>,
    id: &TreeId,
) -> BackendResult<()>
    requires known { AreAmong known.old.keys trees.old.items }
    requires read { AreStoredFiles (B.objects store.now) read.old.keys }
    ensures known { OnOk result (AreAmong known.new.keys trees.new.items) }
    ensures read { OnOk result (AreStoredFiles (B.objects store.now) read.new.keys) }
    ensures whole { OnOk result (IsWhole (B.objects store.now) trees.new.items id.now) }
    ensures prefix { OnOk result (IsPrefix trees.old.items trees.new.items) }
{
    let tree = store.read_tree(alloc, RepoPath::root(), id)?;
    for entry in tree.entries() {
        check_value(alloc, store, known, trees, read, entry.value())?;
    }
    Ok(())
}

// Reads the trees found, and those that they lead to. Returns the number of files.
fn check_trees<B: Backend>(
    alloc: Global,
    store: &B,
    known: &mut BTreeSet<TreeId>,
    trees: &mut Vec<TreeId>,
) -> BackendResult<usize>
    requires { AreAmong known.old.keys trees.old.items }
    ensures whole { OnOk result (AreWhole (B.objects store.now) trees.new.items) }
    ensures prefix { OnOk result (IsPrefix trees.old.items trees.new.items) }
{
    let mut read = BTreeSet::new(alloc);
    for index in 0..usize::MAX {
        if index >= trees.len() {
            break;
        }
        let id = trees[index].clone()?;
        check_tree(alloc, store, known, trees, &mut read, &id)?;
    }
    Ok(read.len())
}

// Adds the trees of a commit to those found: several if the commit is in conflict.
fn add_trees_of(
    known: &mut BTreeSet<TreeId>,
    trees: &mut Vec<TreeId>,
    ids: &[TreeId],
) -> Result<(), AllocError>
    requires { AreAmong known.old.keys trees.old.items }
    ensures known { OnOk result (AreAmong known.new.keys trees.new.items) }
    ensures found { OnOk result (All (Contains trees.new.items) ids.now) }
    ensures prefix { OnOk result (IsPrefix trees.old.items trees.new.items) }
{
    for id in ids {
        add_tree(known, trees, id)?;
    }
    Ok(())
}

fn add_root_trees(
    known: &mut BTreeSet<TreeId>,
    trees: &mut Vec<TreeId>,
    commits: &[ReadCommit],
) -> Result<(), AllocError>
    requires { AreAmong known.old.keys trees.old.items }
    ensures known { OnOk result (AreAmong known.new.keys trees.new.items) }
    ensures found { OnOk result (HasTrees trees.new.items commits.now) }
{
    for read in commits {
        add_trees_of(known, trees, read.commit.root_tree.as_slice())?;
    }
    Ok(())
}

/// The numbers of objects of a history.
#[derive(Clone, Copy, Debug, PartialEq, Eq)]
pub struct ObjectCounts {
    pub commits: usize,
    pub trees: usize,
    pub files: usize,
}

/// Reads some commits and their ancestors, and all trees, files and symbolic links of these, each
/// once. Returns their numbers, without those of links. Fails with `Store` of the error of the
/// first failed read, with `Cycle` if the history has one, and with `Memory` if memory runs out.
pub fn check_history<B: Backend>(
    alloc: Global,
    store: &B,
    starts: &[CommitId],
) -> Result<ObjectCounts, CommandError>
    // The store has the ancestors of the commits, their trees, the subtrees of these, and all files
    // and symbolic links that these name.
    ensures whole { IfOk result (λ counts. (commits : List ReadCommitValue)
        × (trees : List (List ℕ)) × IsHistoryOrder (B.objects store.now) starts.now commits
        × HasTrees trees commits × AreWhole (B.objects store.now) trees) }
{
    let commits = history_order(alloc, store, starts)?;
    let mut known = BTreeSet::new(alloc);
    let mut trees = Vec::new(alloc);
    add_root_trees(&mut known, &mut trees, &commits)?;
    let files = check_trees(alloc, store, &mut known, &mut trees)?;
    Ok(ObjectCounts {
        commits: commits.len(),
        trees: trees.len(),
        files,
    })
}
