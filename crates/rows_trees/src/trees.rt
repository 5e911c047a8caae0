//! Requests on merges of whole trees over a backend in memory. Files are `f` and a digit, trees `t`
//! and a digit.
ghost use Rattle.std.specs.Prelude.{◌≡◌, ◌⊎◌, [], length, IsTrue, IfOk, IfSome};
ghost use Rattle.std.specs.FinMap.{is_sorted};
ghost use Rattle.jj_paths.specs.Paths.{name_cmp};

use crate::values::labels_of;
use jj_backend::backend::{
    Backend, BackendError, BackendResult, CopyId, FileId, Tree, TreeId, TreeValue,
};
use jj_merges::conflict_labels::ConflictLabels;
use jj_merges::merge::{Diff, Merge, SameChange};
use jj_paths::repo_path::{RepoPath, RepoPathComponentBuf};
use jj_trees::memory_backend::MemoryBackend;
use jj_trees::tree_merge::{TreeMerge, merge_trees, merge_trees_within, write_back};
use rows::request::{Fields, Request};
use rows::row_error::{RowError, needs};
use rows::values::Values;
use std::alloc::{AllocError, Global};
use std::cmp::Ordering;
use std::num::NonZeroUsize;

// The number of levels of subtrees that are listed.
const LISTED_LEVELS: usize = 8;

type Entries = Vec<(RepoPathComponentBuf, TreeValue)>;

// The ids of the trees that were written, by digit.
type Trees = Vec<(u8, TreeId)>;

// Returns the value of a call of a backend that has to succeed.
pub(crate) fn expect_ok<T: Drop>(called: BackendResult<T>) -> Result<T, RowError> {
    match called {
        Ok(value) => Ok(value),
        Err(BackendError::Memory) => Err(RowError::Memory),
        Err(_) => Err(RowError::Precondition("no error of the backend")),
    }
}

// Returns the name of an error, or fails with `Memory`.
pub(crate) fn error_name(error: &BackendError) -> Result<&'static str, RowError> {
    match error {
        BackendError::Memory => Err(RowError::Memory),
        BackendError::ObjectNotFound { .. } => Ok("not found"),
        BackendError::Unsupported(_) => Ok("unsupported"),
        _ => Ok("other"),
    }
}

fn are_ascending(entries: &[(RepoPathComponentBuf, TreeValue)]) -> bool
    ensures { IsTrue result → IsTrue (is_sorted name_cmp entries.now) }
{
    for i in 1..entries.len() {
        let before = entries[i - 1].0.as_component();
        if before.cmp(&entries[i].0.as_component()) != Ordering::Less {
            return false;
        }
    }
    true
}

// Creates the tree of entries whose names ascend.
pub(crate) fn tree_of_entries(entries: Entries) -> Result<Tree, RowError> {
    needs(are_ascending(&entries), "ascending names")?;
    Ok(Tree::from_sorted_entries(entries))
}

// Parses the name of an entry.
pub(crate) fn name_of(alloc: Global, name: &str) -> Result<RepoPathComponentBuf, RowError> {
    match RepoPathComponentBuf::new(String::from_str(alloc, name)?) {
        Ok(name) => Ok(name),
        Err(_) => Err(RowError::Unreadable("name")),
    }
}

// Returns a file that is not executable and not copied.
fn plain_file(alloc: Global, id: FileId) -> TreeValue {
    TreeValue::File {
        id,
        executable: false,
        copy_id: CopyId::placeholder(alloc),
    }
}

// The id of the tree of a digit, or an id that the backend does not have.
fn tree_of(alloc: Global, trees: &[(u8, TreeId)], digit: u8) -> Result<TreeId, AllocError> {
    for (known, id) in trees {
        if *known == digit {
            return id.clone();
        }
    }
    TreeId::from_bytes(alloc, &[digit])
}

fn value_of(
    alloc: Global,
    backend: &mut MemoryBackend,
    trees: &[(u8, TreeId)],
    kind: u8,
    digit: u8,
) -> Result<TreeValue, RowError> {
    if kind == b't' {
        return Ok(TreeValue::Tree(tree_of(alloc, trees, digit)?));
    }
    let id = expect_ok(backend.write_file(alloc, RepoPath::root(), &[digit]))?;
    Ok(plain_file(alloc, id))
}

// The name, the kind and the digit of an entry such as `x=f0`.
fn entry_parts(entry: &str) -> Option<(&str, u8, u8)> {
    let (name, value) = entry.split_once('=')?;
    match value.as_bytes() {
        [kind, digit] => Some((name, *kind, *digit)),
        _ => None,
    }
}

fn entry_of(
    alloc: Global,
    backend: &mut MemoryBackend,
    trees: &[(u8, TreeId)],
    parts: (&str, u8, u8),
) -> Result<(RepoPathComponentBuf, TreeValue), RowError> {
    let (name, kind, digit) = parts;
    let value = value_of(alloc, backend, trees, kind, digit)?;
    Ok((name_of(alloc, name)?, value))
}

// Entries such as `x=f0 y=t1`.
fn entries_of(
    alloc: Global,
    backend: &mut MemoryBackend,
    trees: &[(u8, TreeId)],
    entries: &str,
) -> Result<Entries, RowError> {
    let mut parsed = Vec::new(alloc);
    for entry in entries.split(' ') {
        match entry_parts(entry) {
            Some(parts) => parsed.push(entry_of(alloc, backend, trees, parts)?)?,
            None if entries.is_empty() => {}
            None => return Err(RowError::Unreadable("entry of a tree")),
        }
    }
    Ok(parsed)
}

// The digit and the entries of a tree such as `3:x=f0 y=t1`.
fn tree_parts(tree: &str) -> Result<(u8, &str), RowError> {
    match tree.split_once(':') {
        Some((digit, entries)) if digit.len() == 1 => Ok((digit.as_bytes()[0], entries)),
        _ => Err(RowError::Unreadable("digit of a tree")),
    }
}

// Writes a tree such as `3:x=f0 y=t1`, whose digit is 3.
fn write_tree(
    alloc: Global,
    backend: &mut MemoryBackend,
    trees: &[(u8, TreeId)],
    tree: &str,
) -> Result<(u8, TreeId), RowError> {
    let (digit, entries) = tree_parts(tree)?;
    let tree = tree_of_entries(entries_of(alloc, backend, trees, entries)?)?;
    let id = expect_ok(backend.write_tree(alloc, RepoPath::root(), &tree))?;
    Ok((digit, id))
}

fn write_trees(
    alloc: Global,
    backend: &mut MemoryBackend,
    fields: &Fields,
) -> Result<Trees, RowError> {
    let mut trees = Vec::new(alloc);
    for index in 0..fields.len() {
        let tree = write_tree(alloc, backend, &trees, fields.string(index))?;
        trees.push(tree)?;
    }
    Ok(trees)
}

fn diff_of(
    alloc: Global,
    trees: &[(u8, TreeId)],
    before: u8,
    after: u8,
) -> Result<Diff<TreeId>, AllocError> {
    let before = tree_of(alloc, trees, before)?;
    Ok(Diff::new(before, tree_of(alloc, trees, after)?))
}

fn diffs_of(
    alloc: Global,
    trees: &[(u8, TreeId)],
    digits: &[u8],
) -> Result<Vec<Diff<TreeId>>, AllocError> {
    let mut diffs = Vec::new(alloc);
    for pair in digits.chunks(2) {
        if let [before, after] = pair {
            diffs.push(diff_of(alloc, trees, *before, *after)?)?;
        }
    }
    Ok(diffs)
}

// The merge of the root trees with these digits.
fn roots_of(
    alloc: Global,
    trees: &[(u8, TreeId)],
    digits: &[u8],
) -> Result<Merge<TreeId>, RowError> {
    let [first, rest @ ..] = digits else {
        return Err(RowError::Unreadable("no root tree"));
    };
    let first = tree_of(alloc, trees, *first)?;
    Ok(Merge::from_diffs(alloc, first, diffs_of(alloc, trees, rest)?)?)
}

fn append_digits(trees: &[(u8, TreeId)], id: &TreeId, values: &mut Values) {
    for (digit, tree) in trees {
        if tree == id {
            values.append(&[*digit]);
        }
    }
}

// Appends `f` and the file's digit, or `t` and the digits of the trees with this id.
fn append_value(
    alloc: Global,
    backend: &MemoryBackend,
    trees: &[(u8, TreeId)],
    value: &TreeValue,
    values: &mut Values,
) -> Result<(), RowError> {
    match value {
        TreeValue::File { id, .. } => {
            values.append(b"f");
            let bytes = expect_ok(backend.read_file(alloc, RepoPath::root(), id))?;
            values.append(bytes.as_slice());
        }
        TreeValue::Tree(id) => {
            values.append(b"t");
            append_digits(trees, id, values);
        }
        _ => values.append(b"?"),
    }
    Ok(())
}

// Appends the terms of a conflict; an absent term is `-`.
fn append_terms(
    alloc: Global,
    backend: &MemoryBackend,
    trees: &[(u8, TreeId)],
    terms: &[Option<TreeValue>],
    values: &mut Values,
) -> Result<(), RowError> {
    for term in terms {
        match term {
            Some(value) => append_value(alloc, backend, trees, value, values)?,
            None => values.append(b"-"),
        }
    }
    Ok(())
}

// Writes each resolved path as `path=VALUE`, and each conflict as `path!TERMS` with its labels.
fn write_merge(
    alloc: Global,
    backend: &MemoryBackend,
    trees: &[(u8, TreeId)],
    merge: &TreeMerge,
    values: &mut Values,
) -> Result<(), RowError> {
    for (path, value) in merge.resolved.iter() {
        values.string(path.as_path().as_internal_file_string());
        values.append(b"=");
        append_value(alloc, backend, trees, value, values)?;
    }
    for (path, terms, labels) in merge.conflicts.iter() {
        values.string(path.as_path().as_internal_file_string());
        values.append(b"!");
        append_terms(alloc, backend, trees, terms.as_slice(), values)?;
        values.strings(labels.as_slice());
    }
    Ok(())
}

// Merges within `levels` levels, or without a limit if it is 0.
fn merge_roots(
    alloc: Global,
    backend: &MemoryBackend,
    roots: &Merge<TreeId>,
    labels: &ConflictLabels,
    same_change: SameChange,
    levels: usize,
) -> BackendResult<TreeMerge>
    requires { (labels.now ≡ []) ⊎ (length labels.now ≡ length roots.now) }
{
    match NonZeroUsize::new(levels) {
        Some(levels) => merge_trees_within(alloc, backend, roots, labels, same_change, levels),
        None => merge_trees(alloc, backend, roots, labels, same_change),
    }
}

fn merge_labeled(
    alloc: Global,
    backend: &MemoryBackend,
    roots: &Merge<TreeId>,
    labels: &ConflictLabels,
    same_change: SameChange,
    levels: usize,
) -> Result<BackendResult<TreeMerge>, RowError> {
    let count = labels.as_slice().len();
    if count != 0 && count != roots.as_slice().len() {
        return Err(RowError::Precondition("no labels, or one for each root"));
    }
    Ok(merge_roots(alloc, backend, roots, labels, same_change, levels))
}

fn parse_same_change(name: &str) -> Result<SameChange, RowError> {
    match SameChange::from_name(name) {
        Some(same_change) => Ok(same_change),
        None => Err(RowError::Unreadable("keep or accept")),
    }
}

fn put_merged(
    alloc: Global,
    backend: &MemoryBackend,
    trees: &[(u8, TreeId)],
    merged: &BackendResult<TreeMerge>,
    values: &mut Values,
) -> Result<(), RowError> {
    match merged {
        Ok(merge) => write_merge(alloc, backend, trees, merge, values),
        Err(error) => {
            values.word(error_name(error)?);
            Ok(())
        }
    }
}

// SAME_CHANGE LEVELS ROOTS | .. | LABELS
fn put_merge(
    alloc: Global,
    request: &Request,
    backend: &MemoryBackend,
    trees: &[(u8, TreeId)],
    values: &mut Values,
) -> Result<(), RowError> {
    let fields = request.group(0);
    let same_change = parse_same_change(fields.string(0))?;
    let labels = labels_of(alloc, request.group(2))?;
    let roots = roots_of(alloc, trees, fields.bytes(2))?;
    let levels = fields.index(1);
    let merged = merge_labeled(alloc, backend, &roots, &labels, same_change, levels)?;
    put_merged(alloc, backend, trees, &merged, values)
}

// `tree-merge SAME_CHANGE LEVELS ROOTS | TREE .. | LABELS`: the resolved paths and the conflicts.
fn tree_merge(alloc: Global, request: &Request, values: &mut Values) -> Result<(), RowError> {
    let mut backend = MemoryBackend::new(alloc)?;
    let trees = write_trees(alloc, &mut backend, request.group(1))?;
    put_merge(alloc, request, &backend, &trees, values)
}

// The term of a conflict with this index, a digit; `-` is an absent value.
fn chosen_value(terms: &[Option<TreeValue>], index: u8) -> Result<Option<TreeValue>, RowError> {
    if index == b'-' {
        return Ok(None);
    }
    match terms.get(index.wrapping_sub(b'0') as usize) {
        Some(term) => Ok(term.clone()?),
        None => Err(RowError::Unreadable("index of a term")),
    }
}

// The terms of the conflicts with these indices.
fn chosen_values(
    alloc: Global,
    merge: &TreeMerge,
    indices: &[u8],
) -> Result<Vec<Option<TreeValue>>, RowError>
    ensures { IfOk result (λ chosen. length chosen.items ≡ length merge.now.conflicts.items) }
{
    if indices.len() != merge.conflicts.len() {
        return Err(RowError::Precondition("a term for each conflict"));
    }
    let mut chosen = Vec::with_capacity(alloc, indices.len())?;
    for i in 0..indices.len() {
        chosen.push(chosen_value(merge.conflicts[i].1.as_slice(), indices[i])?)?;
    }
    Ok(chosen)
}

// Writes each entry of a tree as `path=VALUE`, and a subtree as `path/` before its entries.
fn list_tree(
    alloc: Global,
    backend: &MemoryBackend,
    dir: RepoPath<'_>,
    id: &TreeId,
    levels: usize,
    values: &mut Values,
) -> Result<(), RowError> {
    let tree = expect_ok(backend.read_tree(alloc, dir, id))?;
    for entry in tree.entries() {
        let path = dir.join(alloc, entry.name())?;
        values.string(path.as_path().as_internal_file_string());
        match entry.value() {
            TreeValue::Tree(id) if levels > 0 => {
                values.append(b"/");
                list_tree(alloc, backend, path.as_path(), id, levels - 1, values)?;
            }
            value => {
                values.append(b"=");
                append_value(alloc, backend, &[], value, values)?;
            }
        }
    }
    Ok(())
}

fn write_chosen(
    alloc: Global,
    backend: &mut MemoryBackend,
    merge: &TreeMerge,
    terms: &[u8],
) -> Result<TreeId, RowError> {
    let chosen = chosen_values(alloc, merge, terms)?;
    expect_ok(write_back(alloc, backend, merge, &chosen))
}

// SAME_CHANGE LEVELS ROOTS TERMS | .. | LABELS
fn put_written(
    alloc: Global,
    request: &Request,
    backend: &mut MemoryBackend,
    trees: &[(u8, TreeId)],
    values: &mut Values,
) -> Result<(), RowError> {
    let fields = request.group(0);
    let same_change = parse_same_change(fields.string(0))?;
    let labels = labels_of(alloc, request.group(2))?;
    let roots = roots_of(alloc, trees, fields.bytes(2))?;
    let levels = fields.index(1);
    let merged = merge_labeled(alloc, backend, &roots, &labels, same_change, levels)?;
    let merge = expect_ok(merged)?;
    let id = write_chosen(alloc, backend, &merge, fields.bytes(3))?;
    list_tree(alloc, backend, RepoPath::root(), &id, LISTED_LEVELS, values)
}

// `write-back SAME_CHANGE LEVELS ROOTS TERMS | TREE .. | LABELS`: the tree that the merge is
// written as, where TERMS is the index of a term for each conflict, or `-` to remove its path.
fn write_merge_back(alloc: Global, request: &Request, values: &mut Values) -> Result<(), RowError> {
    let mut backend = MemoryBackend::new(alloc)?;
    let trees = write_trees(alloc, &mut backend, request.group(1))?;
    put_written(alloc, request, &mut backend, &trees, values)
}

/// Runs the request of this name. Returns `false` if there is none.
pub fn call(alloc: Global, name: &str, request: &Request, values: &mut Values) -> bool {
    let called = match name {
        "tree-merge" => tree_merge(alloc, request, values),
        "write-back" => write_merge_back(alloc, request, values),
        _ => return false,
    };
    values.record(called);
    true
}
