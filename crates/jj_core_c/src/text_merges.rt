//! Merges of file contents, line by line, with conflicts between markers.
ghost use Rattle.std.specs.Prelude.{◌≡◌, length, true, IfOk, IfSome, IfNone, MatchResult};
ghost use Rattle.jj_diff.specs.Inputs.{bytes_of};
ghost use Rattle.jj_merges.specs.Merge.{IsOdd};
ghost use Rattle.jj_core_c.specs.Buffers.{Fails};
ghost use Rattle.jj_core_c.specs.MergeResults.{IsMergeOf, same_change};
ghost use Rattle.jj_core_c.specs.Pieces.{are_ends, pieces_of};
ghost use Rattle.jj_core_c.specs.Statuses.{Accepts, Returns};
ghost use Rattle.jj_core_c.specs.TextMerges.{Conflicts, IsContentsCause, IsMaterializeCause, IsMaterialized, IsMerged, WritesMaterialized, WritesMerged, hunk_level, marker_style};

use crate::buffers::write_bytes;
use crate::error::{Error, status_of};
use crate::merges::same_change_of;
use crate::pieces::{are_ends, piece_at};
use jj_conflicts::conflicts::{
    ConflictMarkerStyle, choose_materialized_conflict_marker_len, materialize,
};
use jj_content_merges::files::{
    FileMergeHunkLevel, MergeOptions, MergeResult, merge_hunks, try_merge,
};
use jj_merges::conflict_labels::ConflictLabels;
use jj_merges::merge::Merge;
use smallvec::SmallVec;
use std::alloc::{AllocError, Global};

fn all_pieces<'a>(
    alloc: Global,
    bytes: &'a [u8],
    ends: &[usize],
) -> Result<Vec<&'a [u8]>, AllocError>
    requires { are_ends (length bytes.now) ends.now ≡ true }
    ensures bytes { IfOk result (λ found. bytes_of found.items ≡ pieces_of bytes.now ends.now) }
    ensures len { IfOk result (λ found. length found.items ≡ length ends.now) }
{
    let mut found = Vec::with_capacity(alloc, ends.len())?;
    for index in 0..ends.len() {
        found.push(piece_at(bytes, ends, index))?;
    }
    Ok(found)
}

fn terms_of<'a>(
    alloc: Global,
    bytes: &'a [u8],
    ends: &[usize],
) -> Result<Merge<&'a [u8]>, AllocError>
    requires divided { are_ends (length bytes.now) ends.now ≡ true }
    requires odd { IsOdd (length ends.now) }
    ensures { IfOk result (λ terms. bytes_of terms ≡ pieces_of bytes.now ends.now) }
{
    let terms = all_pieces(alloc, bytes, ends)?;
    Ok(Merge::from_vec(SmallVec::from_vec(terms)))
}

fn hunk_level_of(words: bool) -> FileMergeHunkLevel
    ensures { result ≡ hunk_level words }
{
    if words {
        FileMergeHunkLevel::Word
    } else {
        FileMergeHunkLevel::Line
    }
}

fn marker_style_of(git: bool) -> ConflictMarkerStyle
    ensures { result ≡ marker_style git }
{
    if git {
        ConflictMarkerStyle::Git
    } else {
        ConflictMarkerStyle::Diff
    }
}

// Returns the merged contents, or `None` if a conflict is left.
fn merged_contents(
    alloc: Global,
    bytes: &[u8],
    ends: &[usize],
    accept: bool,
    words: bool,
) -> Result<Option<Vec<u8>>, AllocError>
    requires divided { are_ends (length bytes.now) ends.now ≡ true }
    requires odd { IsOdd (length ends.now) }
    ensures merged { IfOk result (λ merged. IfSome merged (λ text.
        IsMerged words accept (pieces_of bytes.now ends.now) text.items)) }
    ensures conflict { IfOk result (λ merged. IfNone merged
        (Conflicts words accept (pieces_of bytes.now ends.now))) }
{
    let terms = terms_of(alloc, bytes, ends)?;
    let options = MergeOptions {
        hunk_level: hunk_level_of(words),
        same_change: same_change_of(accept),
    };
    try_merge(alloc, &terms, &options)
}

fn merge_contents(
    alloc: Global,
    bytes: &[u8],
    ends: &[usize],
    accept: bool,
    words: bool,
    text: &mut [u8],
) -> Result<usize, Error>
    ensures { MatchResult result
        (Accepts (IsMergeOf bytes.now ends.now)
        (WritesMerged words accept (pieces_of bytes.now ends.now) text.old text.new))
        (Fails text.old text.new
        (IsContentsCause words accept bytes.now ends.now (length text.old))) }
{
    if !are_ends(bytes.len(), ends) {
        return Err(Error::Ends);
    }
    if ends.len() % 2 == 0 {
        return Err(Error::Terms);
    }
    let Ok(merged) = merged_contents(alloc, bytes, ends, accept, words) else {
        return Err(Error::Memory);
    };
    let Some(merged) = merged else {
        return Err(Error::Conflict);
    };
    if text.len() < merged.len() {
        return Err(Error::Length);
    }
    Ok(write_bytes(text, &merged))
}

// Returns the merged contents with each conflict between markers.
fn materialized(
    alloc: Global,
    bytes: &[u8],
    ends: &[usize],
    accept: bool,
    git: bool,
) -> Result<Vec<u8>, AllocError>
    requires divided { are_ends (length bytes.now) ends.now ≡ true }
    requires odd { IsOdd (length ends.now) }
    ensures { IfOk result (λ text.
        IsMaterialized git accept (pieces_of bytes.now ends.now) text.items) }
{
    let terms = terms_of(alloc, bytes, ends)?;
    let options = MergeOptions {
        hunk_level: FileMergeHunkLevel::Line,
        same_change: same_change_of(accept),
    };
    match merge_hunks(alloc, &terms, &options)? {
        MergeResult::Resolved(text) => Ok(text),
        MergeResult::Conflict(hunks) => {
            let len = choose_materialized_conflict_marker_len(&hunks);
            let labels = ConflictLabels::unlabeled(alloc);
            materialize(alloc, &hunks, &labels, marker_style_of(git), len)
        }
    }
}

fn materialize_contents(
    alloc: Global,
    bytes: &[u8],
    ends: &[usize],
    accept: bool,
    git: bool,
    text: &mut [u8],
) -> Result<usize, Error>
    ensures { MatchResult result
        (Accepts (IsMergeOf bytes.now ends.now)
        (WritesMaterialized git accept (pieces_of bytes.now ends.now) text.old text.new))
        (Fails text.old text.new
        (IsMaterializeCause git accept bytes.now ends.now (length text.old))) }
{
    if !are_ends(bytes.len(), ends) {
        return Err(Error::Ends);
    }
    if ends.len() % 2 == 0 {
        return Err(Error::Terms);
    }
    let Ok(marked) = materialized(alloc, bytes, ends, accept, git) else {
        return Err(Error::Memory);
    };
    if text.len() < marked.len() {
        return Err(Error::Length);
    }
    Ok(write_bytes(text, &marked))
}

/// Merges file contents line by line, and with `words` the words of lines that conflict. Writes
/// the merged contents, and returns their length. With `accept`, sides that made the same change
/// resolve to it. Linear but for the comparison.
///
/// Errors: `Ends`, `Terms`, `Conflict`, `Length`, `Memory`.
#[unsafe(no_mangle)]
pub extern "C" fn jj_merge_contents(
    alloc: Global,
    bytes: &[u8],
    ends: &[usize],
    accept: bool,
    words: bool,
    text: &mut [u8],
) -> i64
    ensures { Returns result
        (Accepts (IsMergeOf bytes.now ends.now)
        (WritesMerged words accept (pieces_of bytes.now ends.now) text.old text.new))
        (Fails text.old text.new
        (IsContentsCause words accept bytes.now ends.now (length text.old))) }
{
    status_of(merge_contents(alloc, bytes, ends, accept, words, text))
}

/// Merges file contents line by line, and writes them with each conflict between markers, longer
/// than any run of marker characters at the start of a line. Returns the length. The style is
/// Jujutsu's, or with `git` that of `diff3`. Linear but for the comparison.
///
/// Errors: `Ends`, `Terms`, `Length`, `Memory`.
#[unsafe(no_mangle)]
pub extern "C" fn jj_merge_materialize(
    alloc: Global,
    bytes: &[u8],
    ends: &[usize],
    accept: bool,
    git: bool,
    text: &mut [u8],
) -> i64
    ensures { Returns result
        (Accepts (IsMergeOf bytes.now ends.now)
        (WritesMaterialized git accept (pieces_of bytes.now ends.now) text.old text.new))
        (Fails text.old text.new
        (IsMaterializeCause git accept bytes.now ends.now (length text.old))) }
{
    status_of(materialize_contents(alloc, bytes, ends, accept, git, text))
}
