//! K-way merge of the sorted entry lists of a directory's trees into rows, one for each name.
ghost use Rattle.std.specs.Prelude.{◌≡◌, map, true, All, IfOk, OnOk, option_map};
ghost use Rattle.std.specs.FinMap.{is_sorted};
ghost use Rattle.jj_paths.specs.Names.{name_of};
ghost use Rattle.jj_paths.specs.Paths.{name_cmp};
ghost use Rattle.jj_backend.specs.Trees.{entries_left};
ghost use Rattle.jj_trees.specs.FirstNames.{first_name, first_value, without_first, min_name};
ghost use Rattle.jj_trees.specs.FirstNames.{IsMinName};
ghost use Rattle.jj_trees.specs.Rows.{AreRows};

use jj_backend::backend::{Tree, TreeEntriesNonRecursiveIterator, TreeValue};
use jj_paths::repo_path::{RepoPathComponent, RepoPathComponentBuf};
use std::alloc::{AllocError, Global};

// A name, with the value that each tree has there.
#[derive(Drop)]
pub(super) struct Row {
    pub(super) name: RepoPathComponentBuf,
    pub(super) values: Vec<Option<TreeValue>>,
}

// Returns the name of the first remaining entry.
fn first_name<'a>(remaining: TreeEntriesNonRecursiveIterator<'a>) -> Option<RepoPathComponent<'a>>
    ensures { option_map name_of result ≡ first_name (entries_left remaining.entry) }
{
    let mut rest = remaining;
    match rest.next() {
        Some(entry) => Some(entry.name()),
        None => None,
    }
}

// Returns the lesser of two names; an absent name is greater than all others.
fn min_name<'a>(
    least: Option<RepoPathComponent<'a>>,
    other: Option<RepoPathComponent<'a>>,
) -> Option<RepoPathComponent<'a>>
    ensures { option_map name_of result
        ≡ min_name (option_map name_of least.entry) (option_map name_of other.entry) }
{
    match (least, other) {
        (Some(least), Some(other)) => {
            if other < least {
                Some(other)
            } else {
                Some(least)
            }
        }
        (None, other) => other,
        (least, None) => least,
    }
}

// Returns the least of the first remaining names.
fn min_first_name<'a>(
    remaining_lists: &[TreeEntriesNonRecursiveIterator<'a>],
) -> Option<RepoPathComponent<'a>>
    ensures { IsMinName (option_map name_of result)
        (map first_name (map entries_left remaining_lists.now)) }
{
    let mut least = None;
    for remaining in remaining_lists {
        least = min_name(least, first_name(*remaining));
    }
    least
}

// Removes the first remaining entry if it has the name, and returns its value.
fn remove_value(
    remaining: &mut TreeEntriesNonRecursiveIterator<'_>,
    name: RepoPathComponent<'_>,
) -> Result<Option<TreeValue>, AllocError>
    ensures value { IfOk result (λ value.
        value ≡ first_value (name_of name.entry) (entries_left remaining.old)) }
    ensures left { OnOk result (entries_left remaining.new
        ≡ without_first (name_of name.entry) (entries_left remaining.old)) }
{
    let mut rest = *remaining;
    match rest.next() {
        Some(entry) => {
            if name == entry.name() {
                let value = entry.value().clone()?;
                *remaining = rest;
                Ok(Some(value))
            } else {
                Ok(None)
            }
        }
        None => Ok(None),
    }
}

fn remove_values(
    alloc: Global,
    remaining_lists: &mut [TreeEntriesNonRecursiveIterator<'_>],
    name: RepoPathComponent<'_>,
) -> Result<Vec<Option<TreeValue>>, AllocError>
    ensures values { IfOk result (λ values.
        values.items ≡ map (first_value (name_of name.entry))
        (map entries_left remaining_lists.old)) }
    ensures left { OnOk result (map entries_left remaining_lists.new
        ≡ map (without_first (name_of name.entry)) (map entries_left remaining_lists.old)) }
{
    let mut values = Vec::with_capacity(alloc, remaining_lists.len())?;
    for remaining in remaining_lists.iter_mut() {
        values.push(remove_value(remaining, name)?)?;
    }
    Ok(values)
}

fn entry_iterators<'a>(
    alloc: Global,
    trees: &'a [Tree],
) -> Result<Vec<TreeEntriesNonRecursiveIterator<'a>>, AllocError>
    ensures entries { IfOk result (λ lists. map entries_left lists.items ≡ trees.now) }
    ensures ascending { OnOk result (All (λ tree. is_sorted name_cmp tree ≡ true) trees.now) }
{
    let mut remaining_lists = Vec::with_capacity(alloc, trees.len())?;
    for tree in trees {
        remaining_lists.push(tree.entries())?;
    }
    Ok(remaining_lists)
}

// Returns the rows of all names that occur in any of the trees, in ascending order.
pub(super) fn merge_rows(alloc: Global, trees: &[Tree]) -> Result<Vec<Row>, AllocError>
    ensures { IfOk result (λ rows.
        AreRows trees.now (map (λ row. (row.name, row.values.items)) rows.items)) }
{
    let mut remaining_lists = entry_iterators(alloc, trees)?;
    let mut rows = Vec::new(alloc);
    while let Some(name) = min_first_name(&remaining_lists) {
        let values = remove_values(alloc, &mut remaining_lists, name)?;
        rows.push(Row {
            name: name.to_owned(alloc)?,
            values,
        })?;
    }
    Ok(rows)
}
