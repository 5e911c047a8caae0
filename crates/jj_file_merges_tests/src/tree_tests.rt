//! Tests of merges of trees and of the files in conflict. The expected trees are worked by hand
//! from those of `git merge-file` for each file.
use crate::fixtures::{LINES, Row, three, write_tree};
use jj_backend::backend::BackendResult;
use jj_conflicts::conflicts::ConflictMarkerStyle;
use jj_content_tests::retry::holds;
use jj_file_merges::trees::{FileMerge, Outcome, merge_files};
use jj_merges::conflict_labels::ConflictLabels;
use jj_trees::memory_backend::MemoryBackend;
use std::alloc::Global;
use std::process::Abort;

const BASE: &[Row] = &[
    ("clean", "a\nb\nc\n"),
    ("d/conflict", "*a\nb\nc\n"),
    ("gone", "a\n"),
    ("left", "a\n"),
    ("link", "@a"),
    ("same", "a\n"),
];

const LEFT: &[Row] = &[
    ("clean", "A\nb\nc\n"),
    ("d/conflict", "*a\nx\nc\n"),
    ("left", "b\n"),
    ("link", "@b"),
    ("new", "x\n"),
    ("same", "a\n"),
];

const RIGHT: &[Row] = &[
    ("clean", "a\nb\nC\n"),
    ("d/conflict", "*a\ny\nc\n"),
    ("gone", "b\n"),
    ("left", "a\n"),
    ("link", "@c"),
    ("same", "a\n"),
];

// The tree without the conflicts.
const UNMARKED: &[Row] = &[
    ("clean", "A\nb\nC\n"),
    ("left", "b\n"),
    ("new", "x\n"),
    ("same", "a\n"),
];

// The tree with the conflicts of files between markers.
const MARKED: &[Row] = &[
    ("clean", "A\nb\nC\n"),
    (
        "d/conflict",
        "*a\n<<<<<<<\nx\n|||||||\nb\n=======\ny\n>>>>>>>\nc\n",
    ),
    ("gone", "<<<<<<<\n|||||||\na\n=======\nb\n>>>>>>>\n"),
    ("left", "b\n"),
    ("new", "x\n"),
    ("same", "a\n"),
];

fn merge_rows(
    alloc: Global,
    backend: &mut MemoryBackend,
    style: Option<ConflictMarkerStyle>,
) -> BackendResult<FileMerge> {
    let left = write_tree(alloc, backend, LEFT)?;
    let base = write_tree(alloc, backend, BASE)?;
    let right = write_tree(alloc, backend, RIGHT)?;
    let trees = three(alloc, left, base, right)?;
    let labels = ConflictLabels::unlabeled(alloc);
    merge_files(alloc, backend, &trees, &labels, &LINES, style)
}

// Returns a line of the path and the kind of the outcome for each conflict.
fn outcome_lines(alloc: Global, merged: &FileMerge) -> BackendResult<String> {
    let mut output = String::new(alloc);
    for i in 0..merged.outcomes.len() {
        let Some(conflict) = merged.merge.conflicts.get(i) else {
            return Ok(output);
        };
        output.push_str(conflict.0.as_path().as_internal_file_string())?;
        output.push_str(match &merged.outcomes[i] {
            Outcome::Merged(_) => " merged\n",
            Outcome::Marked(_) => " marked\n",
            Outcome::Unresolved => " unresolved\n",
        })?;
    }
    Ok(output)
}

fn merges(
    alloc: Global,
    style: Option<ConflictMarkerStyle>,
    rows: &[Row],
    outcomes: &str,
) -> BackendResult<bool> {
    let mut backend = MemoryBackend::new(alloc)?;
    let merged = merge_rows(alloc, &mut backend, style)?;
    let expected = write_tree(alloc, &mut backend, rows)?;
    Ok(merged.tree == expected && outcome_lines(alloc, &merged)?.as_str() == outcomes)
}

fn leaves_conflicts_out(alloc: Global) -> BackendResult<bool> {
    let outcomes = "clean merged\nd/conflict unresolved\ngone unresolved\nlink unresolved\n";
    merges(alloc, None, UNMARKED, outcomes)
}

fn writes_markers(alloc: Global) -> BackendResult<bool> {
    let outcomes = "clean merged\nd/conflict marked\ngone marked\nlink unresolved\n";
    merges(alloc, Some(ConflictMarkerStyle::Git), MARKED, outcomes)
}

#[test]
fn trees_are_merged(rt: HostRuntime) {
    assert!(rt; holds(&rt, leaves_conflicts_out));
    assert!(rt; holds(&rt, writes_markers));
}
