//! Hunks of a merge of contents, and their concatenation.
ghost use Rattle.std.specs.Prelude.{◌≡◌, ◌∷◌, [], length, map, IfOk};
ghost use Rattle.std.specs.List.{range_with_len};
ghost use Rattle.jj_diff.specs.Inputs.{bytes_of};
ghost use Rattle.jj_content_merges.specs.Hunks.{is_resolved, all_resolved, part, merged_side, merge_contents};
ghost use Rattle.jj_content_merges.specs.Files.{terms_of};

use std::alloc::{AllocError, Global};

/// A hunk of a merge of contents.
#[derive(Drop)]
pub enum MergeHunk<'a> {
    /// The part of a term.
    Resolved(&'a [u8]),
    /// A merge by words.
    Merged(Vec<u8>),
    /// The part of each term.
    Conflict(Vec<&'a [u8]>),
}

#[tactic(auto, using(crate::proofs::Parts::row_steps))]
fn is_resolved(hunk: &MergeHunk<'_>) -> bool
    ensures { result ≡ is_resolved (terms_of hunk.now) }
{
    match hunk {
        MergeHunk::Resolved(_) => true,
        MergeHunk::Merged(_) => true,
        MergeHunk::Conflict(row) => row.len() == 1,
    }
}

#[tactic(auto, using(crate::proofs::Parts::row_steps))]
fn row_part<'b>(row: &'b [&[u8]], index: usize) -> &'b [u8]
    ensures { result.now ≡ part index (bytes_of row.now) }
{
    if row.len() == 1 {
        return row[0];
    }
    match row.get(index) {
        Some(text) => text,
        None => b"",
    }
}

// Returns the part of term `index`. A resolved hunk has the same for each.
fn part<'b>(hunk: &'b MergeHunk<'_>, index: usize) -> &'b [u8]
    ensures { result.now ≡ part index (terms_of hunk.now) }
{
    match hunk {
        MergeHunk::Resolved(text) => text,
        MergeHunk::Merged(text) => text,
        MergeHunk::Conflict(row) => row_part(row, index),
    }
}

/// Returns whether no hunk is a conflict.
#[tactic(auto, using(crate::proofs::Parts::loop_steps))]
pub fn are_resolved(hunks: &[MergeHunk<'_>]) -> bool
    ensures { result ≡ all_resolved (map terms_of hunks.now) }
{
    for hunk in hunks {
        if !is_resolved(hunk) {
            return false;
        }
    }
    true
}

/// Returns side `index` of all hunks.
#[tactic(auto, using(crate::proofs::Parts::loop_steps))]
pub fn side_of(alloc: Global, hunks: &[MergeHunk<'_>], index: usize) -> Result<Vec<u8>, AllocError>
    ensures { IfOk result (λ text. text.items ≡ merged_side index (map terms_of hunks.now)) }
{
    let mut text = Vec::new(alloc);
    for hunk in hunks {
        text.extend_from_slice(part(hunk, index))?;
    }
    Ok(text)
}

/// Returns the first `count` sides of all hunks.
#[tactic(auto, using(crate::proofs::Parts::sides_steps))]
pub fn sides_of(
    alloc: Global,
    hunks: &[MergeHunk<'_>],
    count: usize,
) -> Result<Vec<Vec<u8>>, AllocError>
    ensures sides { IfOk result (λ sides. merge_contents sides.items
        ≡ map (λ i. merged_side i (map terms_of hunks.now)) (range_with_len 0 count)) }
    ensures count { IfOk result (λ sides. length sides.items ≡ count) }
{
    let mut sides = Vec::new(alloc);
    for index in 0..count {
        sides.push(side_of(alloc, hunks, index)?)?;
    }
    Ok(sides)
}
