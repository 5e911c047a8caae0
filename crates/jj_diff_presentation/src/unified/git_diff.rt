//! Differences of files with their modes, as `git diff --no-renames` writes them.
ghost use Rattle.std.specs.Prelude.{◌≡◌, ◌≢◌, false, true, ◌↔◌, IsTrue, OnOk};
ghost use Rattle.jj_diff_presentation.specs.GitDiffs.{AreOfOneType, EndsWithPatch, IsTextual};
ghost use Rattle.jj_diff_presentation.specs.GitDiffs.{content_of, is_regular, is_same_type};

use super::hunks::unified_diff_hunks;
use super::names::{push_name_line, push_side_name};
use super::render::push_hunks;
use std::alloc::{AllocError, Global};

// The bytes in which Git looks for a NUL, which makes a file binary.
const SEARCHED: usize = 8000;

/// The mode of a file in Git.
#[derive(Clone, Copy, Debug, PartialEq, Eq)]
pub enum FileMode {
    Normal,
    Executable,
    Symlink,
    Submodule,
}

impl FileMode {
    /// Returns the digits of the mode.
    pub fn digits(self) -> &'static [u8] {
        match self {
            FileMode::Normal => b"100644",
            FileMode::Executable => b"100755",
            FileMode::Symlink => b"120000",
            FileMode::Submodule => b"160000",
        }
    }

    /// Returns whether the two are modes of one type of file: of regular files, of symbolic links
    /// or of submodules.
    pub fn is_same_type(self, other: FileMode) -> bool
        ensures { result ≡ is_same_type self other }
    {
        self.is_regular() && other.is_regular() || self == other
    }

    fn is_regular(self) -> bool
        ensures { result ≡ is_regular self }
    {
        matches!(self, FileMode::Normal | FileMode::Executable)
    }
}

/// A version of a file. The content of a symbolic link is its target.
#[derive(Clone, Copy)]
pub struct FileVersion<'a> {
    pub mode: FileMode,
    pub content: &'a [u8],
}

fn is_binary(content: &[u8]) -> bool
    ensures { IsTextual content.now → result ≡ false }
{
    for (index, byte) in content.iter().enumerate() {
        if index >= SEARCHED {
            return false;
        }
        if *byte == 0 {
            return true;
        }
    }
    false
}

fn push_mode(text: &mut Vec<u8>, words: &[u8], mode: FileMode) -> Result<(), AllocError> {
    text.extend_from_slice(words)?;
    text.extend_from_slice(mode.digits())?;
    text.push(b'\n')?;
    Ok(())
}

fn push_git_line(text: &mut Vec<u8>, path: &[u8]) -> Result<(), AllocError> {
    text.extend_from_slice(b"diff --git ")?;
    push_side_name(text, b"a/", path)?;
    text.push(b' ')?;
    push_side_name(text, b"b/", path)?;
    text.push(b'\n')?;
    Ok(())
}

// Appends the lines on the modes of two versions of which one may be absent.
fn push_modes(
    text: &mut Vec<u8>,
    before: Option<FileMode>,
    after: Option<FileMode>,
) -> Result<(), AllocError> {
    match (before, after) {
        (None, Some(mode)) => push_mode(text, b"new file mode ", mode),
        (Some(mode), None) => push_mode(text, b"deleted file mode ", mode),
        (Some(before), Some(after)) if before != after => {
            push_mode(text, b"old mode ", before)?;
            push_mode(text, b"new mode ", after)
        }
        _ => Ok(()),
    }
}

// Appends the name of a side, or `/dev/null` if the file is absent there.
fn push_side(
    text: &mut Vec<u8>,
    side: &[u8],
    path: &[u8],
    is_there: bool,
) -> Result<(), AllocError> {
    if is_there {
        push_side_name(text, side, path)
    } else {
        text.extend_from_slice(b"/dev/null")
    }
}

fn push_binary_line(
    text: &mut Vec<u8>,
    path: &[u8],
    is_before: bool,
    is_after: bool,
) -> Result<(), AllocError> {
    text.extend_from_slice(b"Binary files ")?;
    push_side(text, b"a/", path, is_before)?;
    text.extend_from_slice(b" and ")?;
    push_side(text, b"b/", path, is_after)?;
    text.extend_from_slice(b" differ\n")
}

fn push_version_line(
    text: &mut Vec<u8>,
    first: &[u8],
    side: &[u8],
    path: &[u8],
    is_there: bool,
) -> Result<(), AllocError> {
    if is_there {
        return push_name_line(text, first, side, path);
    }
    text.extend_from_slice(first)?;
    text.extend_from_slice(b"/dev/null\n")
}

// Appends the unified diff of two contents; `is_before` and `is_after`: which of them exist.
fn push_contents(
    alloc: Global,
    text: &mut Vec<u8>,
    path: &[u8],
    left: &[u8],
    right: &[u8],
    is_before: bool,
    is_after: bool,
    context: usize,
) -> Result<(), AllocError>
    ensures { OnOk result (left.now ≢ right.now → IsTextual left.now → IsTextual right.now
        → EndsWithPatch left.now right.now text.new.items) }
{
    if left == right {
        return Ok(());
    }
    if is_binary(left) || is_binary(right) {
        return push_binary_line(text, path, is_before, is_after);
    }
    let hunks = unified_diff_hunks(alloc, left, right, context)?;
    push_version_line(text, b"--- ", b"a/", path, is_before)?;
    push_version_line(text, b"+++ ", b"b/", path, is_after)?;
    push_hunks(text, &hunks)
}

fn mode_of(version: Option<FileVersion<'_>>) -> Option<FileMode> {
    match version {
        Some(version) => Some(version.mode),
        None => None,
    }
}

fn content_of<'a>(version: Option<FileVersion<'a>>) -> &'a [u8]
    ensures { result.now ≡ content_of version.entry }
{
    match version {
        Some(version) => version.content,
        None => b"",
    }
}

// Appends the difference of two versions of one type.
fn push_versions(
    alloc: Global,
    text: &mut Vec<u8>,
    path: &[u8],
    before: Option<FileVersion<'_>>,
    after: Option<FileVersion<'_>>,
    context: usize,
) -> Result<(), AllocError>
    ensures { OnOk result (content_of before.entry ≢ content_of after.entry
        → IsTextual (content_of before.entry) → IsTextual (content_of after.entry)
        → EndsWithPatch (content_of before.entry) (content_of after.entry) text.new.items) }
{
    push_git_line(text, path)?;
    push_modes(text, mode_of(before), mode_of(after))?;
    push_contents(
        alloc,
        text,
        path,
        content_of(before),
        content_of(after),
        before.is_some(),
        after.is_some(),
        context,
    )
}

/// Appends the difference of two versions of a file at a path, with `context` lines around each
/// change, as `git diff --no-renames` writes it without `index` lines; `git apply` takes it unless
/// a content is binary. A file that is absent before is new, one that is absent after is deleted,
/// and a change of the type is a deletion and an addition. Contents with a NUL in their first 8,000
/// bytes are binary, and only reported to differ. Appends nothing for equal versions.
pub fn push_git_diff(
    alloc: Global,
    text: &mut Vec<u8>,
    path: &[u8],
    before: Option<FileVersion<'_>>,
    after: Option<FileVersion<'_>>,
    context: usize,
) -> Result<(), AllocError>
    // For versions of one type, or with one absent, whose contents differ and are not binary, the
    // output ends with the hunks of a patch from the first content to the second.
    ensures patch { OnOk result (AreOfOneType before.entry after.entry
        → content_of before.entry ≢ content_of after.entry
        → IsTextual (content_of before.entry) → IsTextual (content_of after.entry)
        → EndsWithPatch (content_of before.entry) (content_of after.entry) text.new.items) }
{
    match (before, after) {
        (None, None) => Ok(()),
        (Some(left), Some(right)) => {
            if !left.mode.is_same_type(right.mode) {
                push_versions(alloc, text, path, before, None, context)?;
                return push_versions(alloc, text, path, None, after, context);
            }
            if left.mode == right.mode && left.content == right.content {
                return Ok(());
            }
            push_versions(alloc, text, path, before, after, context)
        }
        _ => push_versions(alloc, text, path, before, after, context),
    }
}
