//! Requests on values of trees, merges of values, and trees of one directory.
//!
//! A value is `file`, `executable`, `symlink`, `tree` or `submodule`, a colon and an id; a file may
//! have a second colon and the id of its copy history. An absent value is `-`. An entry is a name,
//! `=` and a value.
use crate::trees::{name_of, tree_of_entries};
use jj_backend::backend::{
    FileId, MergedTreeVal, MergedTreeValue, MergedTreeValueExt, Tree, TreeValue, borrow_tree_value,
};
use jj_merges::conflict_labels::ConflictLabels;
use jj_merges::merge::Merge;
use jj_paths::repo_path::RepoPathComponentBuf;
use rows::request::{Fields, Request};
use rows::row_error::{RowError, agree};
use rows::values::Values;
use rows_records::arguments::{merge_of, parse_id};
use rows_records::recorded::put_content;
use std::alloc::Global;

fn file_of(alloc: Global, id: &str, executable: bool) -> Result<TreeValue, RowError> {
    let (id, copy) = id.split_once(':').unwrap_or((id, ""));
    let copy_id = parse_id(alloc, copy)?;
    Ok(TreeValue::File {
        id: parse_id(alloc, id)?,
        executable,
        copy_id,
    })
}

fn value_of(alloc: Global, value: &str) -> Result<TreeValue, RowError> {
    let (kind, id) = value.split_once(':').unwrap_or((value, ""));
    match kind {
        "file" => file_of(alloc, id, false),
        "executable" => file_of(alloc, id, true),
        "symlink" => Ok(TreeValue::Symlink(parse_id(alloc, id)?)),
        "tree" => Ok(TreeValue::Tree(parse_id(alloc, id)?)),
        "submodule" => Ok(TreeValue::GitSubmodule(parse_id(alloc, id)?)),
        _ => Err(RowError::Unreadable("kind of value")),
    }
}

fn term_of(alloc: Global, term: &str) -> Result<Option<TreeValue>, RowError> {
    if term == "-" {
        return Ok(None);
    }
    Ok(Some(value_of(alloc, term)?))
}

fn terms_of(alloc: Global, fields: &Fields) -> Result<MergedTreeValue, RowError> {
    let mut terms = Vec::new(alloc);
    for index in 0..fields.len() {
        terms.push(term_of(alloc, fields.string(index))?)?;
    }
    merge_of(terms)
}

// A value by reference is of the same kind.
fn agree_with_reference(alloc: Global, value: &TreeValue) -> Result<(), RowError> {
    let borrowed: MergedTreeVal<'_> = Merge::resolved(alloc, borrow_tree_value(Some(value)));
    let owned = Merge::normal(alloc, value.clone()?);
    agree(
        borrowed.is_tree() == owned.is_tree() && borrowed.is_file_like() == owned.is_file_like(),
        "a value by reference",
    )
}

// `tree-value VALUE`: content, and the id of a file's copy history.
fn value(alloc: Global, request: &Request, values: &mut Values) -> Result<(), RowError> {
    let value = value_of(alloc, request.group(0).string(0))?;
    put_content(alloc, values, &value);
    values.debug(&value.copy_id());
    agree_with_reference(alloc, &value)
}

// `values-kind VALUE ..`: whether a merge is of trees, and whether it is like a file.
fn kind(alloc: Global, request: &Request, values: &mut Values) -> Result<(), RowError> {
    let terms = terms_of(alloc, request.group(0))?;
    values.flag(terms.is_tree());
    values.flag(terms.is_file_like());
    Ok(())
}

// `values-parts VALUE ..`: the ids of files, whether they are executable, and the ids of their copy
// histories.
fn parts(alloc: Global, request: &Request, values: &mut Values) -> Result<(), RowError> {
    let terms = terms_of(alloc, request.group(0))?;
    values.debug(&terms.to_file_merge(alloc)?);
    values.debug(&terms.to_executable_merge(alloc)?);
    values.debug(&terms.to_copy_id_merge(alloc)?);
    Ok(())
}

/// Parses labels. No field means no labels.
pub fn labels_of(alloc: Global, fields: &Fields) -> Result<ConflictLabels, RowError> {
    if fields.is_empty() {
        return Ok(ConflictLabels::unlabeled(alloc));
    }
    Ok(ConflictLabels::from_merge(merge_of(fields.strings(0)?)?))
}

// `values-describe VALUE .. | LABEL ..`: the description of the conflict.
fn describe(alloc: Global, request: &Request, values: &mut Values) -> Result<(), RowError> {
    let labels = labels_of(alloc, request.group(1))?;
    let terms = terms_of(alloc, request.group(0))?;
    values.allocated(terms.describe(alloc, &labels));
    Ok(())
}

// The value with another id, if it is a file or absent.
fn with_id(
    alloc: Global,
    value: Option<TreeValue>,
    id: FileId,
) -> Result<MergedTreeValue, RowError> {
    match value {
        None | Some(TreeValue::File { .. }) => {
            let ids = Merge::normal(alloc, id);
            Ok(Merge::resolved(alloc, value).with_new_file_ids(alloc, &ids)?)
        }
        Some(_) => Err(RowError::Precondition("a file or nothing")),
    }
}

// `value-with-id VALUE ID`: the value with this id of a file.
fn new_id(alloc: Global, request: &Request, values: &mut Values) -> Result<(), RowError> {
    let fields = request.group(0);
    let id = parse_id(alloc, fields.string(1))?;
    let value = term_of(alloc, fields.string(0))?;
    put_content(alloc, values, &with_id(alloc, value, id)?);
    Ok(())
}

fn entry_of(alloc: Global, entry: &str) -> Result<(RepoPathComponentBuf, TreeValue), RowError> {
    let (name, value) = entry.split_once('=').unwrap_or((entry, ""));
    let name = name_of(alloc, name)?;
    Ok((name, value_of(alloc, value)?))
}

fn entries_of(
    alloc: Global,
    fields: &Fields,
) -> Result<Vec<(RepoPathComponentBuf, TreeValue)>, RowError> {
    let mut entries = Vec::new(alloc);
    for index in 0..fields.len() {
        entries.push(entry_of(alloc, fields.string(index))?)?;
    }
    Ok(entries)
}

/// Parses the entries of a tree.
pub fn tree_of(alloc: Global, fields: &Fields) -> Result<Tree, RowError> {
    tree_of_entries(entries_of(alloc, fields)?)
}

fn put_entries(alloc: Global, tree: &Tree, values: &mut Values) {
    values.flag(tree.is_empty());
    for name in tree.names() {
        values.string(name.as_internal_str());
    }
    for entry in tree.entries() {
        values.string(entry.name().as_internal_str());
        put_content(alloc, values, entry.value());
    }
}

// `tree-entries ENTRY ..`: content, whether it is empty, names, and entries with the content of
// each.
fn tree(alloc: Global, request: &Request, values: &mut Values) -> Result<(), RowError> {
    let tree = tree_of(alloc, request.group(0))?;
    put_content(alloc, values, &tree);
    put_entries(alloc, &tree, values);
    agree(tree.clone()? == tree, "clone of a tree")
}

// `tree-from-entries ENTRY ..`: the tree of entries in any order, as `tree-entries` without the
// content, or `duplicate` and a name.
fn from_entries(alloc: Global, request: &Request, values: &mut Values) -> Result<(), RowError> {
    match Tree::from_entries(entries_of(alloc, request.group(0))?) {
        Ok(tree) => put_entries(alloc, &tree, values),
        Err(error) => {
            values.word("duplicate");
            values.string(error.name.as_internal_str());
        }
    }
    Ok(())
}

fn put_value(alloc: Global, value: Option<&TreeValue>, values: &mut Values) {
    match value {
        None => values.word("none"),
        Some(value) => put_content(alloc, values, value),
    }
}

// `tree-find NAME | ENTRY ..`: the content of the value at a name, also by the entry.
fn find(alloc: Global, request: &Request, values: &mut Values) -> Result<(), RowError> {
    let name = name_of(alloc, request.group(0).string(0))?;
    let tree = tree_of(alloc, request.group(1))?;
    put_value(alloc, tree.value(name.as_component()), values);
    match tree.entry(name.as_component()) {
        None => values.word("none"),
        Some(entry) => put_content(alloc, values, entry.value()),
    }
    Ok(())
}

/// Runs the request of this name. Returns `false` if this module has no such request.
pub fn call(alloc: Global, name: &str, request: &Request, values: &mut Values) -> bool {
    let called = match name {
        "tree-value" => value(alloc, request, values),
        "values-kind" => kind(alloc, request, values),
        "values-parts" => parts(alloc, request, values),
        "values-describe" => describe(alloc, request, values),
        "value-with-id" => new_id(alloc, request, values),
        "tree-entries" => tree(alloc, request, values),
        "tree-from-entries" => from_entries(alloc, request, values),
        "tree-find" => find(alloc, request, values),
        _ => return false,
    };
    values.record(called);
    true
}
