//! Tests of merges of the files at one path. The expected contents are those that
//! `git merge-file -p --diff3 -L left -L base -L right` prints for the files.
use crate::fixtures::{LINES, labels, push_bytes, push_value, three, write_value};
use failing_reads::FailingReads;
use jj_backend::backend::{BackendError, BackendResult, TreeValue};
use jj_conflicts::conflicts::ConflictMarkerStyle;
use jj_content_tests::retry::holds;
use jj_file_merges::marking::materialize_file_conflict;
use jj_file_merges::resolving::try_resolve_file_conflict;
use jj_merges::merge::Merge;
use jj_paths::repo_path::RepoPath;
use jj_trees::memory_backend::MemoryBackend;
use std::alloc::Global;
use std::process::Abort;

// The left, the base and the right file.
type Versions = (&'static str, &'static str, &'static str);

// Versions and the file that they resolve to, `-` for a conflict.
const RESOLVED: &[(Versions, &str)] = &[
    (("A\nb\nc\n", "a\nb\nc\n", "a\nb\nC\n"), "A\nb\nC\n"),
    (("a\nx\nc\n", "a\nb\nc\n", "a\ny\nc\n"), "-"),
    (("a\nx\nc\nd\n", "a\nb\nc\n", "a\nx\nc\n"), "a\nx\nc\nd\n"),
    (("a\nc\n", "a\nb\nc\n", "a\nb\nc\nd\n"), "a\nc\nd\n"),
    (("a\nc\n", "a\nb\nc\n", "a\nB\nc\n"), "-"),
    (("x\n", "", "y\n"), "-"),
    // The executable bit resolves by itself, with the content or with equal contents.
    (("*A\nb\nc\n", "a\nb\nc\n", "a\nb\nC\n"), "*A\nb\nC\n"),
    (("*a\n", "a\n", "b\n"), "*b\n"),
    // Not all of these are files.
    (("a\n", "-", "b\n"), "-"),
    (("a\n", "b\n", "-"), "-"),
    (("a\n", "b\n", "@c"), "-"),
];

const MARKED_CHANGE: &str = "\
a
<<<<<<< left
x
||||||| base
b
=======
y
>>>>>>> right
c
";

const MARKED_DELETION: &str = "\
a
<<<<<<< left
||||||| base
b
=======
B
>>>>>>> right
c
";

const MARKED_ADDITION: &str = "\
<<<<<<< left
x
||||||| base
=======
y
>>>>>>> right
";

const MARKED_TWICE: &str = "\
<<<<<<< left
A
||||||| base
a
=======
X
>>>>>>> right
b
c
d
<<<<<<< left
L
||||||| base
e
=======
e
f
>>>>>>> right
";

const MARKED_REMOVAL: &str = "\
<<<<<<< left
||||||| base
a
b
=======
a
B
>>>>>>> right
";

// Versions and the content with markers in Git's style, `?` if there is none.
const MARKED: &[(Versions, &str)] = &[
    (("A\nb\nc\n", "a\nb\nc\n", "a\nb\nC\n"), "A\nb\nC\n"),
    (("a\nx\nc\n", "a\nb\nc\n", "a\ny\nc\n"), MARKED_CHANGE),
    (("a\nc\n", "a\nb\nc\n", "a\nB\nc\n"), MARKED_DELETION),
    (("x\n", "", "y\n"), MARKED_ADDITION),
    (("x\n", "-", "y\n"), MARKED_ADDITION),
    (
        ("A\nb\nc\nd\nL\n", "a\nb\nc\nd\ne\n", "X\nb\nc\nd\ne\nf\n"),
        MARKED_TWICE,
    ),
    (("-", "a\nb\n", "a\nB\n"), MARKED_REMOVAL),
    (("a\n", "b\n", "@c"), "?"),
];

fn write_versions(
    alloc: Global,
    backend: &mut MemoryBackend,
    versions: &Versions,
) -> BackendResult<Merge<Option<TreeValue>>> {
    let left = write_value(alloc, backend, versions.0)?;
    let base = write_value(alloc, backend, versions.1)?;
    let right = write_value(alloc, backend, versions.2)?;
    Ok(three(alloc, left, base, right)?)
}

fn resolves(alloc: Global, versions: &Versions, expected: &str) -> BackendResult<bool> {
    let mut backend = MemoryBackend::new(alloc)?;
    let values = write_versions(alloc, &mut backend, versions)?;
    let root = RepoPath::root();
    let file = try_resolve_file_conflict(alloc, &mut backend, root, &values, &LINES)?;
    let mut found = String::new(alloc);
    push_value(alloc, &mut found, &backend, &file)?;
    Ok(found.as_str() == expected)
}

fn resolves_all(alloc: Global) -> BackendResult<bool> {
    for (versions, expected) in RESOLVED {
        if !resolves(alloc, versions, expected)? {
            return Ok(false);
        }
    }
    Ok(true)
}

fn marks(
    alloc: Global,
    versions: &Versions,
    style: ConflictMarkerStyle,
    expected: &str,
) -> BackendResult<bool> {
    let mut backend = MemoryBackend::new(alloc)?;
    let values = write_versions(alloc, &mut backend, versions)?;
    let labels = labels(alloc)?;
    let root = RepoPath::root();
    let content = materialize_file_conflict(
        alloc, &backend, root, &values, &labels, &LINES, style,
    )?;
    let mut found = String::new(alloc);
    match content {
        Some(content) => push_bytes(&mut found, &content)?,
        None => found.push('?')?,
    }
    Ok(found.as_str() == expected)
}

fn marks_all(alloc: Global) -> BackendResult<bool> {
    for (versions, expected) in MARKED {
        if !marks(alloc, versions, ConflictMarkerStyle::Git, expected)? {
            return Ok(false);
        }
    }
    Ok(true)
}

const DIFF_STYLE: &str = "\
a
<<<<<<< Conflict 1 of 1
%%%%%%% from base to left
-b
+x
+++++++ right
y
>>>>>>> Conflict 1 of 1 ends
c
";

fn marks_in_diff_style(alloc: Global) -> BackendResult<bool> {
    let versions = ("a\nx\nc\n", "a\nb\nc\n", "a\ny\nc\n");
    marks(alloc, &versions, ConflictMarkerStyle::Diff, DIFF_STYLE)
}

#[test]
fn files_resolve_as_in_git(rt: HostRuntime) {
    assert!(rt; holds(&rt, resolves_all));
}

#[test]
fn conflicts_are_marked_as_in_git(rt: HostRuntime) {
    assert!(rt; holds(&rt, marks_all));
    assert!(rt; holds(&rt, marks_in_diff_style));
}

// Resolves versions in a store whose reads fail after `between` of them. Whether the result is the
// error of a read, or the file after as many reads as are needed.
fn fails_or_resolves(alloc: Global, versions: &Versions, needed: u32) -> BackendResult<bool> {
    for between in 0..needed.saturating_add(1) {
        let mut inner = MemoryBackend::new(alloc)?;
        let values = write_versions(alloc, &mut inner, versions)?;
        let mut failing = FailingReads::new(inner, between);
        let root = RepoPath::root();
        match try_resolve_file_conflict(alloc, &mut failing, root, &values, &LINES) {
            Ok(file) => {
                if between != needed || file.is_none() {
                    return Ok(false);
                }
            }
            Err(BackendError::Other(source)) => {
                if between == needed || source.message.as_str() != "the read failed" {
                    return Ok(false);
                }
            }
            Err(error) => return Err(error),
        }
    }
    Ok(true)
}

// Three contents are read if the ids do not resolve, and none if they do.
fn each_read_fails(alloc: Global) -> BackendResult<bool> {
    let contents = ("A\nb\nc\n", "a\nb\nc\n", "a\nb\nC\n");
    let ids = ("*a\n", "a\n", "b\n");
    Ok(fails_or_resolves(alloc, &contents, 3)? && fails_or_resolves(alloc, &ids, 0)?)
}

#[test]
fn errors_are_those_of_reads(rt: HostRuntime) {
    assert!(rt; holds(&rt, each_read_fails));
}
