//! Applications of patches that GNU `diff -u` (3.8) and `git diff` (2.39.5) wrote, and each error.
use jj_diff_presentation::unified::{ApplyError, ExpectedInPatch, PatchFault, apply};
use std::alloc::{AllocError, Global};
use std::test::Fail;

const OLD: &str = "one\ntwo\nthree\nfour\nfive\nsix\nseven\neight\nnine\n";

// Returns the content after the patch, or the error after a `!`.
fn show(alloc: Global, left: &str, patch: &str) -> Result<String, AllocError> {
    match apply(alloc, left.as_bytes(), patch.as_bytes()) {
        Ok(bytes) => format!(in alloc; "{}", String::from_utf8_lossy(alloc, &bytes)?),
        Err(error) => format!(in alloc; "!{error}"),
    }
}

#[test]
fn gnu_diff(rt: HostRuntime) -> Result<(), Fail> {
    let alloc = rt.alloc();
    let patch = "--- old\t2026-11-29 10:00:00.000000000 +0000\n\
        +++ new\t2026-11-29 10:00:01.000000000 +0000\n\
        @@ -1,5 +1,4 @@\n one\n-two\n three\n four\n five\n\
        @@ -7,3 +6,4 @@\n seven\n eight\n nine\n+ten\n";
    let new = "one\nthree\nfour\nfive\nsix\nseven\neight\nnine\nten\n";
    assert_eq!(rt; show(alloc, OLD, patch)?.as_str(), new);
    let without_context = "--- old\n+++ new\n@@ -2 +1,0 @@\n-two\n@@ -9,0 +9 @@\n+ten\n";
    assert_eq!(rt; show(alloc, OLD, without_context)?.as_str(), new);
    Ok(())
}

#[test]
fn missing_newline(rt: HostRuntime) -> Result<(), Fail> {
    let alloc = rt.alloc();
    let added = "--- a\n+++ b\n@@ -1 +1 @@\n-a\n\\ No newline at end of file\n+a\n";
    assert_eq!(rt; show(alloc, "a", added)?.as_str(), "a\n");
    let removed = "--- a\n+++ b\n@@ -1,2 +1,2 @@\n a\n-b\n+b\n\\ No newline at end of file\n";
    assert_eq!(rt; show(alloc, "a\nb\n", removed)?.as_str(), "a\nb");
    Ok(())
}

#[test]
fn git_diff(rt: HostRuntime) -> Result<(), Fail> {
    let alloc = rt.alloc();
    let patch = "diff --git a/old b/new\nindex 814f4a4..3e75765 100644\n--- a/old\n+++ b/new\n\
        @@ -1,2 +1,3 @@\n one\n+1.5\n two\n";
    assert_eq!(rt;
        show(alloc, "one\ntwo\n", patch)?.as_str(),
        "one\n1.5\ntwo\n"
    );
    let created = "diff --git a/n b/n\nnew file mode 100644\nindex 0000000..7898192\n\
        --- /dev/null\n+++ b/n\n@@ -0,0 +1 @@\n+a\n";
    assert_eq!(rt; show(alloc, "", created)?.as_str(), "a\n");
    let emptied = "--- a/n\n+++ b/n\n@@ -1 +0,0 @@\n-a\n";
    assert_eq!(rt; show(alloc, "a\n", emptied)?.as_str(), "");
    assert_eq!(rt; show(alloc, "a\n", "")?.as_str(), "a\n");
    Ok(())
}

fn fault(alloc: Global, left: &str, patch: &str) -> Option<PatchFault> {
    match apply(alloc, left.as_bytes(), patch.as_bytes()) {
        Err(ApplyError::Fault(fault, _)) => Some(fault),
        _ => None,
    }
}

fn at(line: usize, expected: ExpectedInPatch) -> Option<PatchFault> {
    Some(PatchFault { line, expected })
}

#[test]
fn errors(rt: HostRuntime) -> Result<(), Fail> {
    let alloc = rt.alloc();
    let text = "a\nb\n";
    assert_eq!(rt;
        fault(alloc, text, "hello\n"),
        at(2, ExpectedInPatch::LeftName)
    );
    assert_eq!(rt;
        fault(alloc, text, "--- a\n"),
        at(2, ExpectedInPatch::RightName)
    );
    assert_eq!(rt;
        fault(alloc, text, "--- a\nb\n"),
        at(2, ExpectedInPatch::RightName)
    );
    let header = "--- a\n+++ b\n@@ -1,x +1 @@\n";
    assert_eq!(rt;
        fault(alloc, text, header),
        at(3, ExpectedInPatch::HunkHeader)
    );
    let beyond = "--- a\n+++ b\n@@ -4 +4 @@\n-a\n+b\n";
    assert_eq!(rt;
        fault(alloc, text, beyond),
        at(3, ExpectedInPatch::LaterHunk)
    );
    let earlier = "--- a\n+++ b\n@@ -2 +2 @@\n-b\n+c\n@@ -1 +1 @@\n-a\n+c\n";
    assert_eq!(rt;
        fault(alloc, text, earlier),
        at(6, ExpectedInPatch::LaterHunk)
    );
    let short = "--- a\n+++ b\n@@ -1,2 +1,2 @@\n a\n";
    assert_eq!(rt; fault(alloc, text, short), at(5, ExpectedInPatch::HunkLine));
    let odd = "--- a\n+++ b\n@@ -1 +1 @@\n?a\n";
    assert_eq!(rt; fault(alloc, text, odd), at(4, ExpectedInPatch::HunkLine));
    let other = "--- a\n+++ b\n@@ -1 +1 @@\n-x\n+c\n";
    assert_eq!(rt; fault(alloc, text, other), at(4, ExpectedInPatch::LeftLine));
    let unterminated = "--- a\n+++ b\n@@ -2 +2 @@\n-b\n\\ No newline at end of file\n+c\n";
    assert_eq!(rt;
        fault(alloc, text, unterminated),
        at(4, ExpectedInPatch::LeftLine)
    );
    Ok(())
}

#[test]
fn error_texts(rt: HostRuntime) -> Result<(), Fail> {
    let alloc = rt.alloc();
    let name = show(alloc, "a\n", "--- a\n")?;
    let expected =
        "!line 2 of the patch: expected `+++ ` and the name of the new version, found the end";
    assert_eq!(rt; name.as_str(), expected);
    let header = show(alloc, "a\n", "--- a\n+++ b\n@@\n")?;
    let expected = "!line 3 of the patch: expected a hunk's header `@@ -START,COUNT +START,COUNT \
        @@`, found \"@@\"";
    assert_eq!(rt; header.as_str(), expected);
    let line = show(alloc, "a\n", "--- a\n+++ b\n@@ -1 +1 @@\n-b\n+a\n")?;
    let expected = "!line 4 of the patch: expected the next line of the file after ` ` or `-`, \
        found \"-b\"";
    assert_eq!(rt; line.as_str(), expected);
    let long =
        "--- a\n+++ b\n@@ -1 +1 @@\n-0123456789012345678901234567890123456789012345678\t901234567890\n";
    let line = show(alloc, "a\n", long)?;
    let expected = "!line 4 of the patch: expected the next line of the file after ` ` or `-`, \
        found \"-0123456789012345678901234567890123456789012345678\\t901234567\"...";
    assert_eq!(rt; line.as_str(), expected);
    Ok(())
}
