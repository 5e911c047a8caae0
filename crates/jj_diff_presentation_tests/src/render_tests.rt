//! Names of files and headers of hunks as `git diff` (2.39.5) prints them, and words that were
//! compared by hand.
use jj_diff_presentation::unified::{apply, write_unified_diff, write_word_diff_hunks};
use std::alloc::{AllocError, Global};
use std::test::Fail;

const OLD: &str = "a one\nb\nc\nd\ne\nf\ng\nh\ni\nj two\nk\n";

const NEW: &str = "a 1\nb\nc\nd\ne\nf\ng\nh\ni\nj two three\nk\n";

// Returns the lines that name a file.
fn names(alloc: Global, path: &[u8]) -> Result<String, AllocError> {
    let text = write_unified_diff(alloc, path, b"x\n", b"y\n", 3)?;
    let text = String::from_utf8_lossy(alloc, &text)?;
    let (lines, _) = text.as_str().split_once("@@").unwrap_or(("", ""));
    String::from_str(alloc, lines)
}

#[test]
fn quoted_names(rt: HostRuntime) -> Result<(), Fail> {
    let alloc = rt.alloc();
    let pairs = [
        (b"a.rs".as_slice(), "--- a/a.rs\n+++ b/a.rs\n"),
        (b"plain~!'", "--- a/plain~!'\n+++ b/plain~!'\n"),
        (b"a b", "--- a/a b\t\n+++ b/a b\t\n"),
        (
            b"\xc3\xa4.rs",
            "--- \"a/\\303\\244.rs\"\n+++ \"b/\\303\\244.rs\"\n",
        ),
        (b"t\tb", "--- \"a/t\\tb\"\n+++ \"b/t\\tb\"\n"),
        (b"q\"q", "--- \"a/q\\\"q\"\n+++ \"b/q\\\"q\"\n"),
        (b"b\\s", "--- \"a/b\\\\s\"\n+++ \"b/b\\\\s\"\n"),
        (b"n\nl", "--- \"a/n\\nl\"\n+++ \"b/n\\nl\"\n"),
        (
            b"bell\x07\x08\x0b\x0c",
            "--- \"a/bell\\a\\b\\v\\f\"\n+++ \"b/bell\\a\\b\\v\\f\"\n",
        ),
        (b"cr\rx", "--- \"a/cr\\rx\"\n+++ \"b/cr\\rx\"\n"),
        (b"\x01\x7f", "--- \"a/\\001\\177\"\n+++ \"b/\\001\\177\"\n"),
        (b"\xff", "--- \"a/\\377\"\n+++ \"b/\\377\"\n"),
        (
            b"sp \xc3\xa4",
            "--- \"a/sp \\303\\244\"\t\n+++ \"b/sp \\303\\244\"\t\n",
        ),
    ];
    for pair in &pairs {
        assert_eq!(rt; names(alloc, pair.0)?.as_str(), pair.1);
    }
    Ok(())
}

#[test]
fn quoted_names_are_applied(rt: HostRuntime) -> Result<(), Fail> {
    let alloc = rt.alloc();
    let patch = write_unified_diff(alloc, b"n\n+++ \xff", b"x\n", b"y\n", 3)?;
    match apply(alloc, b"x\n", &patch) {
        Ok(bytes) => assert_eq!(rt; bytes.as_slice(), b"y\n".as_slice()),
        Err(_) => assert!(rt; false),
    }
    Ok(())
}

fn words(alloc: Global, context: usize) -> Result<String, AllocError> {
    let text = write_word_diff_hunks(alloc, OLD.as_bytes(), NEW.as_bytes(), context)?;
    String::from_utf8_lossy(alloc, &text)
}

#[test]
fn hunks_of_words(rt: HostRuntime) -> Result<(), Fail> {
    let alloc = rt.alloc();
    let expected = "@@ -1,4 +1,4 @@\na [-one-]{+1+}\nb\nc\nd\n\
        @@ -7,5 +7,5 @@\ng\nh\ni\nj two{+ three+}\nk\n";
    assert_eq!(rt; words(alloc, 3)?.as_str(), expected);
    let expected = "@@ -1 +1 @@\na [-one-]{+1+}\n@@ -10 +10 @@\nj two{+ three+}\n";
    assert_eq!(rt; words(alloc, 0)?.as_str(), expected);
    let same = write_word_diff_hunks(alloc, b"a\n", b"a\n", 3)?;
    assert!(rt; same.is_empty());
    Ok(())
}
