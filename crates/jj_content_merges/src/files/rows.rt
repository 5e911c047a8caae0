//! The outcomes of rows: the part of each term between cuts of a comparison.
ghost use Rattle.std.specs.Prelude.{◌≡◌, ℕ, length, map, IfOk, All};
ghost use Rattle.jj_diff.specs.Inputs.{bytes_of};
ghost use Rattle.jj_diff.specs.Tokens.{is_line_end, is_word_end};
ghost use Rattle.jj_merges.specs.Merge.{IsOdd};
ghost use Rattle.std.specs.List.{AllZip};
ghost use Rattle.jj_content_merges.specs.Rows.{rows_of};
ghost use Rattle.jj_merges.specs.declared.merge.SameChange.{SameChange};
ghost use Rattle.jj_content_merges.specs.Comparisons.{IsTightSplit};
ghost use Rattle.jj_content_merges.specs.Files.{terms_of, IsSplit, Outcomes, IsOutcome, IsHunk, IsTokenMerge, IsWordMerge, IsContentMerge};

use super::FileMergeHunkLevel;
use super::comparing::split_by_comparisons;
use super::hunks::{MergeHunk, are_resolved, side_of};
use super::splitting::split_tokens;
use jj_diff::diff::{Lines, Words};
use jj_merges::merge::{SameChange, trivial_merge};
use std::alloc::{AllocError, Global};

// Resolves a row if the signed counts of its parts decide it.
#[tactic(auto, using(crate::proofs::Resolving::row_steps))]
fn merge_row<'a>(
    alloc: Global,
    row: &[&'a [u8]],
    same_change: SameChange,
) -> Result<MergeHunk<'a>, AllocError>
    requires { IsOdd (length row.now) }
    ensures { IfOk result (λ hunk. IsOutcome same_change (bytes_of row.now) (terms_of hunk)) }
{
    match trivial_merge(row, same_change) {
        Some(value) => Ok(MergeHunk::Resolved(*value)),
        None => Ok(MergeHunk::Conflict(Vec::from_slice(alloc, row)?)),
    }
}

// Resolves the rows whose signed counts decide them.
#[tactic(auto, using(crate::proofs::Resolving::outcome_steps))]
fn merge_rows<'a>(
    alloc: Global,
    rows: &[Vec<&'a [u8]>],
    same_change: SameChange,
) -> Result<Vec<MergeHunk<'a>>, AllocError>
    requires { All (λ row. IsOdd (length row.items)) rows.now }
    ensures { IfOk result
        (λ merged. Outcomes same_change (rows_of rows.now) (map terms_of merged.items)) }
{
    let mut merged = Vec::with_capacity(alloc, rows.len())?;
    for row in rows {
        let outcome = merge_row(alloc, row, same_change)?;
        merged.push(outcome)?;
    }
    Ok(merged)
}

// Compares each term of a row word by word with the first remove, and merges each row of words.
#[tactic(auto, using(crate::proofs::Resolving::merge_steps))]
fn merge_by_words<'a>(
    alloc: Global,
    row: &[&'a [u8]],
    same_change: SameChange,
) -> Result<Vec<MergeHunk<'a>>, AllocError>
    requires { IsOdd (length row.now) }
    ensures { IfOk result (λ merged.
        IsTokenMerge is_word_end same_change (bytes_of row.now) (map terms_of merged.items)) }
{
    let rows = split_tokens(alloc, &Words, row, 1)?;
    let merged = merge_rows(alloc, &rows, same_change)?;
    Ok(merged)
}

// Merges a row word by word. Returns the row if that leaves a conflict.
#[tactic(auto, using(crate::proofs::Resolving::word_steps))]
fn merge_words<'a>(
    alloc: Global,
    row: &[&'a [u8]],
    same_change: SameChange,
) -> Result<MergeHunk<'a>, AllocError>
    requires { IsOdd (length row.now) }
    ensures { IfOk result (λ hunk. IsWordMerge same_change (bytes_of row.now) (terms_of hunk)) }
{
    let words = merge_by_words(alloc, row, same_change)?;
    if are_resolved(&words) {
        let text = side_of(alloc, &words, 0)?;
        return Ok(MergeHunk::Merged(text));
    }
    Ok(MergeHunk::Conflict(Vec::from_slice(alloc, row)?))
}

// Resolves a row if the signed counts of its parts decide it or, at the level of words, if its
// words do.
#[tactic(auto, using(crate::proofs::Resolving::row_steps))]
fn merge_hunk<'a>(
    alloc: Global,
    row: &[&'a [u8]],
    level: FileMergeHunkLevel,
    same_change: SameChange,
) -> Result<MergeHunk<'a>, AllocError>
    requires { IsOdd (length row.now) }
    ensures { IfOk result (λ hunk. IsHunk level same_change (bytes_of row.now) (terms_of hunk)) }
{
    match trivial_merge(row, same_change) {
        Some(value) => Ok(MergeHunk::Resolved(*value)),
        None => match level {
            FileMergeHunkLevel::Line => Ok(MergeHunk::Conflict(Vec::from_slice(alloc, row)?)),
            FileMergeHunkLevel::Word => {
                let hunk = merge_words(alloc, row, same_change)?;
                Ok(hunk)
            }
        },
    }
}

#[tactic(auto, using(crate::proofs::Resolving::outcome_steps))]
fn merge_lines<'a>(
    alloc: Global,
    rows: &[Vec<&'a [u8]>],
    level: FileMergeHunkLevel,
    same_change: SameChange,
) -> Result<Vec<MergeHunk<'a>>, AllocError>
    requires { All (λ row. IsOdd (length row.items)) rows.now }
    ensures { IfOk result (λ merged.
        AllZip (IsHunk level same_change) (rows_of rows.now) (map terms_of merged.items)) }
{
    let mut merged = Vec::with_capacity(alloc, rows.len())?;
    for row in rows {
        let outcome = merge_hunk(alloc, row, level, same_change)?;
        merged.push(outcome)?;
    }
    Ok(merged)
}

// Returns rows of whole lines. A row ends where the comparisons of the first remove with the other
// terms do.
#[tactic(auto, using(crate::proofs::Resolving::split_steps))]
fn split_lines<'a>(alloc: Global, terms: &[&'a [u8]]) -> Result<Vec<Vec<&'a [u8]>>, AllocError>
    ensures split { IfOk result
        (λ rows. IsSplit is_line_end (bytes_of terms.now) (rows_of rows.items)) }
    ensures tight { IfOk result (λ rows. (same : SameChange)
        → IsTightSplit same (bytes_of terms.now) (rows_of rows.items)) }
{
    match terms {
        [left, base, right] => {
            let rows = split_by_comparisons(alloc, left, base, right)?;
            Ok(rows)
        }
        _ => {
            let rows = split_tokens(alloc, &Lines, terms, 1)?;
            Ok(rows)
        }
    }
}

/// Compares each term line by line with the first remove, and merges each row of lines. A row ends
/// where a comparison of a term does, as in a merge of two diffs.
#[tactic(auto, using(crate::proofs::Resolving::merge_steps))]
pub fn merge_by_lines<'a>(
    alloc: Global,
    terms: &[&'a [u8]],
    level: FileMergeHunkLevel,
    same_change: SameChange,
) -> Result<Vec<MergeHunk<'a>>, AllocError>
    requires { IsOdd (length terms.now) }
    ensures { IfOk result (λ merged.
        IsContentMerge level same_change (bytes_of terms.now) (map terms_of merged.items)) }
{
    let rows = split_lines(alloc, terms)?;
    let merged = merge_lines(alloc, &rows, level, same_change)?;
    Ok(merged)
}
