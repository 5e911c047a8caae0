//! Proved callers: contracts of content merges at the versions of a file.
ghost use Rattle.std.specs.Prelude.{◌≡◌, ◌<◌, ◌∷◌, [], ℕ, List, length, map, true, IfOk};
ghost use Rattle.jj_diff.specs.Inputs.{bytes_of};
ghost use Rattle.jj_diff.specs.Tokens.{is_line_end};
ghost use Rattle.jj_diff.specs.Ends.{IsCommonStart};
ghost use Rattle.jj_content_merges.specs.Files.{terms_of, IsContentMerge, IsResolvedTo};
ghost use Rattle.jj_content_merges.specs.Hunks.{merge_contents, none_resolved};
ghost use Rattle.jj_content_merges.specs.Measures.{IsAdditive};
ghost use Rattle.jj_content_merges_tests.specs.Merges.{AddsUp, KeepsStart};

use jj_content_merges::files::{
    FileMergeHunkLevel, MergeHunk, MergeOptions, MergeResult, merge, merge_hunks, merge_terms,
};
use jj_content_merges::laws::{change_laws, measure_laws, side_laws};
use jj_merges::merge::{Merge, SameChange};
use smallvec::SmallVec;
use std::alloc::{AllocError, Global};

fn three_terms<'a>(
    alloc: Global,
    left: &'a [u8],
    base: &'a [u8],
    right: &'a [u8],
) -> Result<Merge<&'a [u8]>, AllocError>
    ensures { IfOk result
        (λ terms. bytes_of terms ≡ left.now ∷ base.now ∷ right.now ∷ []) }
{
    let mut terms = Vec::new(alloc);
    terms.push(left)?;
    terms.push(base)?;
    terms.push(right)?;
    Ok(Merge::from_vec(SmallVec::from_vec(terms)))
}

/// Merges two versions of a file with their base. If one version is the base, the result is the
/// other one.
pub fn merge_versions(
    alloc: Global,
    left: &[u8],
    base: &[u8],
    right: &[u8],
    options: &MergeOptions,
) -> Result<MergeResult, AllocError>
    ensures right { IfOk result (λ merged. left.now ≡ base.now → IsResolvedTo right.now merged) }
    ensures left { IfOk result (λ merged. base.now ≡ right.now → IsResolvedTo left.now merged) }
{
    let inputs = three_terms(alloc, left, base, right)?;
    change_laws();
    let merged = merge_hunks(alloc, &inputs, options)?;
    Ok(merged)
}

/// Merges two versions of a file with their base, and leaves changes that both made as conflicts. A
/// result without conflicts has as many of anything that can be counted, as lines, as both versions
/// together less those of the base.
pub fn merge_counted(
    alloc: Global,
    left: &[u8],
    base: &[u8],
    right: &[u8],
    hunk_level: FileMergeHunkLevel,
) -> Result<MergeResult, AllocError>
    ensures { IfOk result (λ merged. (f : List ℕ → ℕ) → IsAdditive f
        → AddsUp f left.now base.now right.now merged) }
{
    let inputs = three_terms(alloc, left, base, right)?;
    let options = MergeOptions {
        hunk_level,
        same_change: SameChange::Keep,
    };
    measure_laws();
    let merged = merge_hunks(alloc, &inputs, &options)?;
    Ok(merged)
}

/// Merges two versions of a file with their base into one content, or into three with the resolved
/// hunks. If no hunk is resolved, the result is the two versions and the base as they were.
pub fn merge_whole(
    alloc: Global,
    left: &[u8],
    base: &[u8],
    right: &[u8],
    options: &MergeOptions,
) -> Result<Merge<Vec<u8>>, AllocError>
    ensures { IfOk result (λ merged. (hunks : List (List (List ℕ)))
        × IsContentMerge options.now.hunk_level options.now.same_change
        (left.now ∷ base.now ∷ right.now ∷ []) hunks
        × (0 < length hunks → none_resolved hunks ≡ true
        → merge_contents merged ≡ left.now ∷ base.now ∷ right.now ∷ [])) }
{
    let inputs = three_terms(alloc, left, base, right)?;
    side_laws();
    let merged = merge(alloc, &inputs, options)?;
    Ok(merged)
}

/// Merges two versions of a file with their base into hunks, adjacent ones not joined. The lines
/// that all three start with are in no conflict.
pub fn merge_sections<'a>(
    alloc: Global,
    left: &'a [u8],
    base: &'a [u8],
    right: &'a [u8],
    options: &MergeOptions,
) -> Result<Vec<MergeHunk<'a>>, AllocError>
    ensures { IfOk result (λ merged. (n : ℕ)
        → IsCommonStart is_line_end (left.now ∷ base.now ∷ right.now ∷ []) n
        → KeepsStart n (left.now ∷ base.now ∷ right.now ∷ []) (map terms_of merged.items)) }
{
    let terms = [left, base, right];
    let merged = merge_terms(alloc, &terms, options)?;
    Ok(merged)
}
