//! Hunks of two versions by lines, as `git diff --no-index --histogram -U99` (2.39.5) prints them,
//! and words and ranges that were worked by hand.
use jj_diff::diff::{
    ContentDiff, DiffHunk, DiffHunkKind, Lines, diff_by_line, find_line_ranges,
    find_nonword_ranges, find_word_ranges, hunks_of_regions,
};
use std::alloc::{AllocError, Global};
use std::ops::Range;
use std::test::Fail;

// Writes `=` and the part of a matching hunk, or `<`, the first part, `>` and the second part.
fn write_hunk(text: &mut Vec<u8>, hunk: &DiffHunk) -> Result<(), AllocError> {
    if hunk.contents.len() != 2 {
        return Ok(());
    }
    if hunk.kind == DiffHunkKind::Matching {
        text.push(b'=')?;
        return text.extend_from_slice(hunk.contents[0]);
    }
    text.push(b'<')?;
    text.extend_from_slice(hunk.contents[0])?;
    text.push(b'>')?;
    text.extend_from_slice(hunk.contents[1])
}

pub fn write_hunks(alloc: Global, hunks: &[DiffHunk]) -> Result<Vec<u8>, AllocError> {
    let mut text = Vec::new(alloc);
    for hunk in hunks {
        write_hunk(&mut text, hunk)?;
    }
    Ok(text)
}

fn show(alloc: Global, left: &str, right: &str) -> Result<Vec<u8>, AllocError> {
    let hunks = diff_by_line(alloc, &[left.as_bytes(), right.as_bytes()], 0)?;
    write_hunks(alloc, &hunks)
}

fn show_words(alloc: Global, left: &str, right: &str) -> Result<Vec<u8>, AllocError> {
    let compared = ContentDiff::by_word(alloc, &[left.as_bytes(), right.as_bytes()])?;
    write_hunks(alloc, &compared.hunks)
}

#[test]
fn versions(rt: HostRuntime) -> Result<(), Fail> {
    let alloc = rt.alloc();
    let edited = show(alloc, "a\nb\nc\n", "a\nx\nc\n")?;
    assert_eq!(rt; edited.as_slice(), b"=a\n<b\n>x\n=c\n".as_slice());
    let repeated = show(alloc, "a\na\nb\n", "a\nb\n")?;
    assert_eq!(rt; repeated.as_slice(), b"=a\n<a\n>=b\n".as_slice());
    let unfinished = show(alloc, "a\nb", "a\nb\n")?;
    assert_eq!(rt; unfinished.as_slice(), b"=a\n<b>b\n".as_slice());
    let added = show(alloc, "", "a\n")?;
    assert_eq!(rt; added.as_slice(), b"<>a\n".as_slice());
    Ok(())
}

#[test]
fn regions_that_no_search_found(rt: HostRuntime) -> Result<(), Fail> {
    let alloc = rt.alloc();
    let inputs = [b"a\nb\nc\nd\n".as_slice(), b"x\nb\ny\nd\nz\n".as_slice()];
    let hunks = hunks_of_regions(alloc, &Lines, &inputs, &[])?;
    let text = write_hunks(alloc, &hunks)?;
    assert_eq!(rt;
        text.as_slice(),
        b"<a\n>x\n=b\n<c\n>y\n=d\n<>z\n".as_slice()
    );
    Ok(())
}

#[test]
fn hunk_ranges(rt: HostRuntime) -> Result<(), Fail> {
    let alloc = rt.alloc();
    let compared = ContentDiff::by_line(alloc, &[b"a\nb\nc\n".as_slice(), b"a\nc\nd\n"])?;
    let left = compared.hunk_ranges(alloc, 0)?;
    assert_eq!(rt; left.as_slice(), [0..2, 2..4, 4..6, 6..6].as_slice());
    let right = compared.hunk_ranges(alloc, 1)?;
    assert_eq!(rt; right.as_slice(), [0..2, 2..2, 2..4, 4..6].as_slice());
    Ok(())
}

#[test]
fn repeated_block(rt: HostRuntime) -> Result<(), Fail> {
    let alloc = rt.alloc();
    let left = "{\none\n}\n{\ntwo\n}\n";
    let right = "{\none\n}\n{\nnew\n}\n{\ntwo\n}\n";
    let text = show(alloc, left, right)?;
    assert_eq!(rt;
        text.as_slice(),
        b"={\none\n}\n{\n<>new\n}\n{\n=two\n}\n".as_slice()
    );
    Ok(())
}

#[test]
fn rare_lines(rt: HostRuntime) -> Result<(), Fail> {
    let alloc = rt.alloc();
    let moved = show(alloc, "k\na\nu\nb\nv\n", "k\nu\nx\nv\n")?;
    assert_eq!(rt; moved.as_slice(), b"=k\n<a\n>=u\n<b\n>x\n=v\n".as_slice());
    Ok(())
}

#[test]
fn words(rt: HostRuntime) -> Result<(), Fail> {
    let alloc = rt.alloc();
    let one = show_words(alloc, "let x = 1;\n", "let y = 1;\n")?;
    assert_eq!(rt; one.as_slice(), b"=let <x>y= = 1;\n".as_slice());
    let two = show_words(alloc, "a b c\nsame\nd e f\n", "x b c\nsame\nd e y\n")?;
    assert_eq!(rt; two.as_slice(), b"<a>x= b c\nsame\nd e <f>y=\n".as_slice());
    Ok(())
}

fn write_ranges(alloc: Global, ranges: &[Range<usize>]) -> Result<Vec<usize>, AllocError> {
    let mut ends = Vec::new(alloc);
    for range in ranges {
        ends.push(range.start)?;
        ends.push(range.end)?;
    }
    Ok(ends)
}

#[test]
fn ranges(rt: HostRuntime) -> Result<(), Fail> {
    let alloc = rt.alloc();
    let lines = write_ranges(alloc, &find_line_ranges(alloc, b"a\n\nbc")?)?;
    assert_eq!(rt; lines.as_slice(), [0, 2, 2, 3, 3, 5].as_slice());
    let words = write_ranges(alloc, &find_word_ranges(alloc, b"ab, c_1")?)?;
    assert_eq!(rt; words.as_slice(), [0, 2, 4, 7].as_slice());
    let others = write_ranges(alloc, &find_nonword_ranges(alloc, b"ab, c_1")?)?;
    assert_eq!(rt; others.as_slice(), [2, 3, 3, 4].as_slice());
    Ok(())
}
