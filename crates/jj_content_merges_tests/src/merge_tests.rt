//! Merges of three versions by lines, as `git merge-file --diff3` (2.39.5) prints them, and by
//! words, which were worked by hand.
use crate::callers::merge_versions;
use jj_content_merges::files::{FileMergeHunkLevel, MergeOptions, MergeResult, merge, try_merge};
use jj_merges::merge::{Merge, SameChange};
use smallvec::SmallVec;
use std::alloc::{AllocError, Global};
use std::test::Fail;

const LINES: MergeOptions = MergeOptions {
    hunk_level: FileMergeHunkLevel::Line,
    same_change: SameChange::Accept,
};

const WORDS: MergeOptions = MergeOptions {
    hunk_level: FileMergeHunkLevel::Word,
    same_change: SameChange::Accept,
};

const KEPT: MergeOptions = MergeOptions {
    hunk_level: FileMergeHunkLevel::Line,
    same_change: SameChange::Keep,
};

// Appends the terms between braces, with a bar between two.
fn write_terms(text: &mut Vec<u8>, terms: &[Vec<u8>]) -> Result<(), AllocError> {
    let mut separator = b'{';
    for term in terms {
        text.push(separator)?;
        text.extend_from_slice(term)?;
        separator = b'|';
    }
    text.push(b'}')?;
    Ok(())
}

// Returns `=` and the merged bytes, or the terms of each hunk.
fn show(alloc: Global, merged: &MergeResult) -> Result<Vec<u8>, AllocError> {
    let mut text = Vec::new(alloc);
    match merged {
        MergeResult::Resolved(bytes) => {
            text.push(b'=')?;
            text.extend_from_slice(bytes)?;
        }
        MergeResult::Conflict(hunks) => {
            for hunk in hunks {
                write_terms(&mut text, hunk.as_slice())?;
            }
        }
    }
    Ok(text)
}

fn merged(
    alloc: Global,
    versions: (&str, &str, &str),
    options: &MergeOptions,
) -> Result<Vec<u8>, AllocError> {
    let (left, base, right) = versions;
    let (left, base, right) = (left.as_bytes(), base.as_bytes(), right.as_bytes());
    let found = merge_versions(alloc, left, base, right, options)?;
    show(alloc, &found)
}

#[test]
fn by_lines(rt: HostRuntime) -> Result<(), Fail> {
    let alloc = rt.alloc();
    let rows = [
        (("x\na\nb\nc\n", "a\nb\nc\n", "a\nb\nC\n"), "=x\na\nb\nC\n"),
        (
            ("a\nL\nc\n", "a\nb\nc\n", "a\nR\nc\n"),
            "{a\n}{L\n|b\n|R\n}{c\n}",
        ),
        (("a\nX\nc\n", "a\nb\nc\n", "a\nX\nc\n"), "=a\nX\nc\n"),
        (
            ("A\nb\nc\n", "a\nb\nc\n", "a\nB\nc\n"),
            "{A\nb\n|a\nb\n|a\nB\n}{c\n}",
        ),
        (("a\nc\n", "a\nb\nc\n", "a\nb\nc\nd\n"), "=a\nc\nd\n"),
        (
            ("a\nb\nc\nD\n", "a\nb\nc\nd\n", "A\nb\nc\nd\n"),
            "=A\nb\nc\nD\n",
        ),
        (("a\na\nb\n", "a\nb\n", "a\nb\nc\n"), "=a\na\nb\nc\n"),
        (
            ("a\ny\n", "a\na\ny\n", "a\na\nY\n"),
            "{a\n}{y\n|a\ny\n|a\nY\n}",
        ),
        (
            ("a\nL\nc\nd\ne\n", "a\nb\nc\nd\ne\n", "a\nR\nc\nd\nE\n"),
            "{a\n}{L\n|b\n|R\n}{c\nd\nE\n}",
        ),
        (("a\n", "a\nb\n", "a\nB\n"), "{a\n}{|b\n|B\n}"),
        (
            ("l\nb\nm\nd\n", "a\nb\nc\nd\n", "r\nb\ns\nd\n"),
            "{l\n|a\n|r\n}{b\n}{m\n|c\n|s\n}{d\n}",
        ),
        (("", "", ""), "="),
    ];
    for (versions, expected) in &rows {
        let found = merged(alloc, *versions, &LINES)?;
        assert_eq!(rt; found.as_slice(), expected.as_bytes(), "{expected:?}");
    }
    Ok(())
}

#[test]
fn by_words(rt: HostRuntime) -> Result<(), Fail> {
    let alloc = rt.alloc();
    let rows = [
        (
            (
                "ONE two three four\n",
                "one two three four\n",
                "one two three FOUR\n",
            ),
            "=ONE two three FOUR\n",
        ),
        (
            ("a\none THREE\nz\n", "a\none two\nz\n", "a\none FOUR\nz\n"),
            "{a\n}{one THREE\n|one two\n|one FOUR\n}{z\n}",
        ),
        (("f(a, b)\n", "f(a)\n", "g(a)\n"), "=g(a, b)\n"),
    ];
    for (versions, expected) in &rows {
        let found = merged(alloc, *versions, &WORDS)?;
        assert_eq!(rt; found.as_slice(), expected.as_bytes(), "{expected:?}");
    }
    Ok(())
}

#[test]
fn same_changes(rt: HostRuntime) -> Result<(), Fail> {
    let alloc = rt.alloc();
    let found = merged(alloc, ("a\nX\nc\n", "a\nb\nc\n", "a\nX\nc\n"), &KEPT)?;
    assert_eq!(rt; found.as_slice(), "{a\n}{X\n|b\n|X\n}{c\n}".as_bytes());
    Ok(())
}

#[test]
fn whole_terms(rt: HostRuntime) -> Result<(), Fail> {
    let alloc = rt.alloc();
    let mut terms = Vec::new(alloc);
    terms.push("l\nb\nc\n".as_bytes())?;
    terms.push("a\nb\nc\n".as_bytes())?;
    terms.push("r\nb\nC\n".as_bytes())?;
    let inputs = Merge::from_vec(SmallVec::from_vec(terms));
    assert!(rt; try_merge(alloc, &inputs, &LINES)?.is_none());
    let whole = merge(alloc, &inputs, &LINES)?;
    let mut text = Vec::new(alloc);
    write_terms(&mut text, whole.as_slice())?;
    assert_eq!(rt;
        text.as_slice(),
        "{l\nb\nC\n|a\nb\nC\n|r\nb\nC\n}".as_bytes()
    );
    Ok(())
}
