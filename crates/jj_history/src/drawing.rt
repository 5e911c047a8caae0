//! The log of some commits as a graph.
use crate::error::{DrawingError, drawing_error};
use crate::names::CommitNames;
use jj_ids::object_id::{CommitId, ObjectId};
use jj_log::commits::Commit;
use jj_log::log::draw_log;
use jj_store_walks::ReadCommit;
use std::alloc::{AllocError, Global};

fn first_line(text: &str) -> &str {
    match text.split_once('\n') {
        Some((line, _rest)) => line,
        None => text,
    }
}

// Returns the label of a commit: its short name, its refs, and the first line of its description.
fn label_of(
    alloc: Global,
    names: &CommitNames,
    root: &CommitId,
    read: &ReadCommit,
) -> Result<String, AllocError> {
    let mut label = names.short_name(alloc, &read.id)?;
    let refs = names.refs(&read.id);
    if !refs.is_empty() {
        label.push_str(" (")?;
        label.push_str(refs)?;
        label.push(')')?;
    }
    label.push(' ')?;
    let line = if read.id == *root {
        "the root commit"
    } else {
        first_line(read.commit.description.as_str())
    };
    label.push_str(line)?;
    Ok(label)
}

// Returns the ids in hex digits.
fn hex_ids(alloc: Global, ids: &[CommitId]) -> Result<Vec<String>, AllocError> {
    let mut names = Vec::new(alloc);
    for id in ids {
        names.push(id.hex(alloc)?)?;
    }
    Ok(names)
}

// Returns a commit of the log by the digits of its id and of those of its parents, without a label
// if it is hidden.
fn entry_of(
    alloc: Global,
    names: &CommitNames,
    root: &CommitId,
    read: &ReadCommit,
    is_shown: bool,
) -> Result<Commit, AllocError> {
    let label = if is_shown {
        Some(label_of(alloc, names, root, read)?)
    } else {
        None
    };
    Ok(Commit {
        name: read.id.hex(alloc)?,
        parents: hex_ids(alloc, &read.commit.parents)?,
        label,
    })
}

fn entries_of(
    alloc: Global,
    names: &CommitNames,
    root: &CommitId,
    order: &[ReadCommit],
    shown: &[bool],
) -> Result<Vec<Commit>, AllocError> {
    let mut entries = Vec::new(alloc);
    for (read, is_shown) in order.iter().zip(shown) {
        entries.push(entry_of(alloc, names, root, read, *is_shown)?)?;
    }
    Ok(entries)
}

/// Draws the visible commits of a list as a graph, children first, in at most so many columns. A
/// commit has its short name, its refs, and the first line of its description. `shown` has a flag
/// for each commit; descendants of a hidden one have edges to its nearest visible ancestors. Fails
/// with `Cycle` if the history has one, with `TooWide` if a row needs more columns, and with
/// `Memory` if memory runs out.
pub fn draw_order(
    alloc: Global,
    names: &CommitNames,
    root: &CommitId,
    order: &[ReadCommit],
    shown: &[bool],
    columns: usize,
) -> Result<String, DrawingError> {
    let entries = entries_of(alloc, names, root, order, shown)?;
    match draw_log(alloc, &entries, columns) {
        Ok(drawing) => Ok(drawing),
        Err(error) => Err(drawing_error(error, columns)),
    }
}
