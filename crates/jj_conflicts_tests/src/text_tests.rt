//! Rendered conflicts. Those in Git's style are what `git merge-file --diff3` (2.39.5) prints for
//! these terms and labels, except for the note; the others were worked by hand.
ghost use Rattle.std.specs.Prelude.{length};
ghost use Rattle.jj_merges.specs.Merge.{IsOdd};

use crate::merges::parse_merged;
use jj_conflicts::conflicts::{
    ConflictMarkerStyle, choose_materialized_conflict_marker_len, materialize, parse_conflict,
    parse_hunks,
};
use jj_merges::conflict_labels::ConflictLabels;
use jj_merges::merge::{Merge, SameChange};
use smallvec::SmallVec;
use std::alloc::{AllocError, Global};
use std::test::Fail;

fn merge_of(alloc: Global, texts: &[&str]) -> Result<Merge<Vec<u8>>, AllocError>
    requires { IsOdd (length texts.now) }
{
    let mut terms = Vec::new(alloc);
    for text in texts {
        terms.push(Vec::from_slice(alloc, text.as_bytes())?)?;
    }
    Ok(Merge::from_vec(SmallVec::from_vec(terms)))
}

fn labels(alloc: Global) -> Result<ConflictLabels, AllocError> {
    let mut labels = Vec::new(alloc);
    labels.push(String::from_str(alloc, "left")?)?;
    labels.push(String::from_str(alloc, "base")?)?;
    labels.push(String::from_str(alloc, "right")?)?;
    Ok(ConflictLabels::from_vec(SmallVec::from_vec(labels)))
}

// Rendered hunks, and whether the hunks parsed from them are rendered equally.
fn render(
    alloc: Global,
    hunks: &[Merge<Vec<u8>>],
    style: ConflictMarkerStyle,
) -> Result<(Vec<u8>, bool), AllocError> {
    let marker_len = choose_materialized_conflict_marker_len(hunks);
    let labels = labels(alloc)?;
    let text = materialize(alloc, hunks, &labels, style, marker_len)?;
    let parsed = parse_hunks(alloc, &text, 2, marker_len)?;
    let again = materialize(alloc, &parsed, &labels, style, marker_len)?;
    let is_same = again.as_slice() == text.as_slice();
    Ok((text, is_same))
}

#[test]
fn git_style(rt: HostRuntime) -> Result<(), Fail> {
    let alloc = rt.alloc();
    let mut hunks = Vec::new(alloc);
    hunks.push(merge_of(alloc, &["a\n"])?)?;
    hunks.push(merge_of(alloc, &["left\n", "base\n", "right\n"])?)?;
    hunks.push(merge_of(alloc, &["c\n"])?)?;
    let (text, is_same) = render(alloc, &hunks, ConflictMarkerStyle::Git)?;
    let expected = "a\n<<<<<<< left\nleft\n||||||| base\nbase\n=======\nright\n>>>>>>> right\nc\n";
    assert_eq!(rt; text.as_slice(), expected.as_bytes());
    assert!(rt; is_same);
    Ok(())
}

#[test]
fn git_style_without_lf(rt: HostRuntime) -> Result<(), Fail> {
    let alloc = rt.alloc();
    let mut hunks = Vec::new(alloc);
    hunks.push(merge_of(alloc, &["a\n"])?)?;
    hunks.push(merge_of(alloc, &["left", "", "right\n||||||||"])?)?;
    let (text, is_same) = render(alloc, &hunks, ConflictMarkerStyle::Git)?;
    let expected = "a\n<<<<<<<<<< left (no terminating newline)\nleft\n|||||||||| base\n\
        ==========\nright\n||||||||\n>>>>>>>>>> right (no terminating newline)\n";
    assert_eq!(rt; text.as_slice(), expected.as_bytes());
    assert!(rt; is_same);
    Ok(())
}

#[test]
fn snapshot_style(rt: HostRuntime) -> Result<(), Fail> {
    let alloc = rt.alloc();
    let mut hunks = Vec::new(alloc);
    hunks.push(merge_of(alloc, &["left\n", "base\n", ""])?)?;
    hunks.push(merge_of(alloc, &["b\n"])?)?;
    hunks.push(merge_of(alloc, &["l", "b\n", "r\n"])?)?;
    let (text, is_same) = render(alloc, &hunks, ConflictMarkerStyle::Snapshot)?;
    let expected = "<<<<<<< Conflict 1 of 2\n+++++++ left\nleft\n------- base\nbase\n\
        +++++++ right\n>>>>>>> Conflict 1 of 2 ends\nb\n<<<<<<< Conflict 2 of 2\n\
        +++++++ left (no terminating newline)\nl\n------- base\nb\n+++++++ right\nr\n\
        >>>>>>> Conflict 2 of 2 ends\n";
    assert_eq!(rt; text.as_slice(), expected.as_bytes());
    assert!(rt; is_same);
    Ok(())
}

#[test]
fn diff_style(rt: HostRuntime) -> Result<(), Fail> {
    let alloc = rt.alloc();
    let mut hunks = Vec::new(alloc);
    hunks.push(merge_of(alloc, &["a\nx\nc\n", "a\nb\nc\n", "r\n"])?)?;
    hunks.push(merge_of(alloc, &["b\n"])?)?;
    hunks.push(merge_of(alloc, &["l", "b\n", "r\n"])?)?;
    let (text, is_same) = render(alloc, &hunks, ConflictMarkerStyle::Diff)?;
    let expected = "<<<<<<< Conflict 1 of 2\n%%%%%%% from base to left\n a\n-b\n+x\n c\n\
        +++++++ right\nr\n>>>>>>> Conflict 1 of 2 ends\nb\n<<<<<<< Conflict 2 of 2\n\
        +++++++ left (no terminating newline)\nl\n------- base\nb\n+++++++ right\nr\n\
        >>>>>>> Conflict 2 of 2 ends\n";
    assert_eq!(rt; text.as_slice(), expected.as_bytes());
    assert!(rt; is_same);
    Ok(())
}

// A line of six minus signs is no marker, also with a character before it.
#[test]
fn diff_style_with_runs(rt: HostRuntime) -> Result<(), Fail> {
    let alloc = rt.alloc();
    let mut hunks = Vec::new(alloc);
    hunks.push(merge_of(alloc, &["l\n", "------\n", "r\n"])?)?;
    let (text, is_same) = render(alloc, &hunks, ConflictMarkerStyle::Diff)?;
    let expected = "<<<<<<<< Conflict 1 of 1\n%%%%%%%% from base to left\n-------\n+l\n\
        ++++++++ right\nr\n>>>>>>>> Conflict 1 of 1 ends\n";
    assert_eq!(rt; text.as_slice(), expected.as_bytes());
    assert!(rt; is_same);
    Ok(())
}

// Hunks that were merged, rendered in a style and parsed, as Git's style has them; nothing if the
// merge is clean.
fn render_merged(
    alloc: Global,
    versions: (&str, &str, &str),
    style: ConflictMarkerStyle,
) -> Result<Vec<u8>, AllocError> {
    let (left, base, right) = versions;
    let labels = labels(alloc)?;
    let found = parse_merged(
        alloc,
        left.as_bytes(),
        base.as_bytes(),
        right.as_bytes(),
        SameChange::Accept,
        &labels,
        style,
    )?;
    match found {
        None => Ok(Vec::new(alloc)),
        Some(both) => {
            let marker_len = choose_materialized_conflict_marker_len(&both.parsed);
            let git = ConflictMarkerStyle::Git;
            materialize(alloc, &both.parsed, &labels, git, marker_len)
        }
    }
}

#[test]
fn merged(rt: HostRuntime) -> Result<(), Fail> {
    let alloc = rt.alloc();
    let rows = [
        (
            ("a\nl\nc\n", "a\nb\nc\n", "a\nr\nc\n"),
            "a\n<<<<<<< left\nl\n||||||| base\nb\n=======\nr\n>>>>>>> right\nc\n",
        ),
        (("a\nb\nc\nl\n", "a\nb\nc\n", "r\na\nb\nc\n"), ""),
        (
            ("a\nb\nc\nd\n", "a\nb\nc", "a\nb\nc\ne\n"),
            "a\nb\n<<<<<<< left\nc\nd\n||||||| base (no terminating newline)\nc\n=======\n\
                c\ne\n>>>>>>> right\n",
        ),
        (
            ("l\nb\nc\n", "a\nb\nc\n", "r\nb\nd\n"),
            "<<<<<<< left\nl\n||||||| base\na\n=======\nr\n>>>>>>> right\nb\nd\n",
        ),
        (
            ("=======\nb\n", "a\nb\n", "<<<<<<<\nb\n"),
            "<<<<<<<<< left\n=======\n||||||||| base\na\n=========\n<<<<<<<\n\
                >>>>>>>>> right\nb\n",
        ),
        (("a\nx\n", "a\nb\n", "a\nx\n"), ""),
    ];
    let styles = [
        ConflictMarkerStyle::Diff,
        ConflictMarkerStyle::Snapshot,
        ConflictMarkerStyle::Git,
    ];
    for (versions, expected) in &rows {
        for style in &styles {
            let text = render_merged(alloc, *versions, *style)?;
            assert_eq!(rt; text.as_slice(), expected.as_bytes(), "{versions:?}");
        }
    }
    Ok(())
}

fn has_conflict(alloc: Global, text: &str, num_sides: usize) -> Result<bool, AllocError> {
    let hunks = parse_conflict(alloc, text.as_bytes(), num_sides, 7)?;
    Ok(hunks.is_some())
}

#[test]
fn malformed(rt: HostRuntime) -> Result<(), Fail> {
    let alloc = rt.alloc();
    let rows = [
        ("", 2, false),
        ("a\nb\n", 2, false),
        ("<<<<<<<\na\n|||||||\nb\n=======\nc\n>>>>>>>\n", 2, true),
        ("<<<<<<<\na\n|||||||\nb\n=======\nc\n>>>>>>>\n", 3, false),
        ("<<<<<<<\na\n=======\nb\n>>>>>>>\n", 2, false),
        (
            "<<<<<<<\na\n|||||||\nb\n|||||||\nb\n=======\nc\n>>>>>>>\n",
            2,
            false,
        ),
        (
            "<<<<<<<\n+++++++\na\n-------\nb\n+++++++\nc\n>>>>>>>\n",
            2,
            true,
        ),
        (
            "<<<<<<<\n-------\na\n+++++++\nb\n+++++++\nc\n>>>>>>>\n",
            2,
            false,
        ),
        (
            "<<<<<<<\n+++++++\na\n+++++++\nb\n-------\nc\n>>>>>>>\n",
            2,
            false,
        ),
        ("<<<<<<<\n+++++++\na\n-------\nb\n+++++++\nc\n", 2, false),
        ("<<<<<<<\n%%%%%%%\n-b\n+a\n+++++++\nc\n>>>>>>>\n", 2, true),
        ("<<<<<<<\n+++++++\na\n%%%%%%%\n-b\n+c\n>>>>>>>\n", 2, true),
        ("<<<<<<<\n%%%%%%%\n\n-b\n+++++++\nc\n>>>>>>>\n", 2, true),
        ("<<<<<<<\n%%%%%%%\nb\n+++++++\nc\n>>>>>>>\n", 2, false),
        ("<<<<<<<\n%%%%%%%\n b\n>>>>>>>\n", 2, false),
        (
            "<<<<<<<\n+++++++\na\n+++++++\nb\n+++++++\nc\n>>>>>>>\n",
            2,
            false,
        ),
        ("<<<<<<<\n%%%%%%%\n b\n+++++++\nc\n>>>>>>>\n", 3, false),
        ("<<<<<<\na\n||||||\nb\n======\nc\n>>>>>>\n", 2, false),
        ("<<<<<<<x\na\n|||||||\nb\n=======\nc\n>>>>>>>\n", 2, false),
        (
            "<<<<<<<\n<<<<<<<\na\n|||||||\nb\n=======\nc\n>>>>>>>\n",
            2,
            true,
        ),
    ];
    for (text, num_sides, expected) in &rows {
        assert_eq!(rt;
            has_conflict(alloc, text, *num_sides)?,
            *expected,
            "{text:?}"
        );
    }
    Ok(())
}
