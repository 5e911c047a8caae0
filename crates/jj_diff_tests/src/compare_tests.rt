//! Comparisons that ignore white space, as `git diff -w` and `-b` (2.39.5) print them, and refined
//! comparisons that were worked by hand.
use crate::hunk_tests::write_hunks;
use jj_diff::diff::{
    CompareBytes, CompareBytesExactly, CompareBytesIgnoreAllWhitespace,
    CompareBytesIgnoreWhitespaceAmount, ContentDiff, Lines, Words,
};
use std::alloc::{AllocError, Global};
use std::test::Fail;

fn show_lines<C: CompareBytes>(
    alloc: Global,
    compare: &C,
    left: &str,
    right: &str,
) -> Result<Vec<u8>, AllocError> {
    let inputs = [left.as_bytes(), right.as_bytes()];
    let compared = ContentDiff::for_tokenizer(alloc, &inputs, &Lines, compare)?;
    write_hunks(alloc, &compared.hunks)
}

#[test]
fn white_space(rt: HostRuntime) -> Result<(), Fail> {
    let all = CompareBytesIgnoreAllWhitespace;
    assert!(rt; all.eq(b"", b" \t\r\n\x0c"));
    assert!(rt; all.eq(b" a b", b"a\tb\n"));
    assert!(rt; !all.eq(b"a b", b"a c"));
    assert!(rt; !all.eq(b"a\x0b", b"a"));
    let amount = CompareBytesIgnoreWhitespaceAmount;
    assert!(rt; amount.eq(b" a  b", b"\ta b"));
    assert!(rt; amount.eq(b"a \n", b"a\n"));
    assert!(rt; !amount.eq(b"ab", b"a b"));
    assert!(rt; !amount.eq(b"", b" "));
    Ok(())
}

#[test]
fn lines_without_white_space(rt: HostRuntime) -> Result<(), Fail> {
    let alloc = rt.alloc();
    let left = "a b\nc\nd\n";
    let right = "ab\nx\n d\n";
    let all = show_lines(alloc, &CompareBytesIgnoreAllWhitespace, left, right)?;
    assert_eq!(rt; all.as_slice(), b"=a b\n<c\n>x\n=d\n".as_slice());
    let amount = show_lines(
        alloc,
        &CompareBytesIgnoreWhitespaceAmount,
        "a  b\nc \n",
        "a b\nd\n",
    )?;
    assert_eq!(rt; amount.as_slice(), b"=a  b\n<c \n>d\n".as_slice());
    let exactly = show_lines(alloc, &CompareBytesExactly, left, right)?;
    assert_eq!(rt; exactly.as_slice(), b"<a b\nc\nd\n>ab\nx\n d\n".as_slice());
    Ok(())
}

#[test]
fn white_space_after_equal_lines(rt: HostRuntime) -> Result<(), Fail> {
    let alloc = rt.alloc();
    let left = "x\na \nb\nc\n";
    let right = "x\na\nb\nd\n";
    let all = show_lines(alloc, &CompareBytesIgnoreAllWhitespace, left, right)?;
    assert_eq!(rt; all.as_slice(), b"=x\na \nb\n<c\n>d\n".as_slice());
    Ok(())
}

#[test]
fn refined(rt: HostRuntime) -> Result<(), Fail> {
    let alloc = rt.alloc();
    let inputs = [b"one two\nsame\n".as_slice(), b"one six\nsame\n".as_slice()];
    let mut compared = ContentDiff::unrefined(alloc, &inputs)?;
    let whole = write_hunks(alloc, &compared.hunks)?;
    assert_eq!(rt;
        whole.as_slice(),
        b"<one two\nsame\n>one six\nsame\n".as_slice()
    );
    compared.refine_changed_regions(alloc, &Lines, &CompareBytesExactly)?;
    let lines = write_hunks(alloc, &compared.hunks)?;
    assert_eq!(rt; lines.as_slice(), b"<one two\n>one six\n=same\n".as_slice());
    compared.refine_changed_regions(alloc, &Words, &CompareBytesExactly)?;
    let words = write_hunks(alloc, &compared.hunks)?;
    assert_eq!(rt; words.as_slice(), b"=one <two>six=\nsame\n".as_slice());
    let mut count: usize = 0;
    for hunk in compared.hunks() {
        count = count.saturating_add(hunk.contents.len());
    }
    assert_eq!(rt; count, 6);
    Ok(())
}
