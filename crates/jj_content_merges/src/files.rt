//! Content merge: the terms of a merge are compared line by line with the first remove, and each
//! hunk is resolved if its signed counts, or those of its words, decide it.
ghost use Rattle.std.specs.Prelude.{◌≡◌, ℕ, List, [], ◌∷◌, length, map, IfOk};
ghost use Rattle.std.specs.Option.{option_map};
ghost use Rattle.std.specs.Str.{bytes_eq};
ghost use Rattle.jj_diff.specs.Inputs.{bytes_of};
ghost use Rattle.jj_merges.specs.Merge.{IsOdd};
ghost use Rattle.jj_merges.specs.Resolution.{ResolvesTo};
ghost use Rattle.jj_content_merges.specs.Hunks.{merge_contents, merged_terms};
ghost use Rattle.jj_content_merges.specs.Files.{terms_of, IsContentMerge, IsMergeResult, IsResolvedTo, tried_outcome};

mod comparing;
mod hunks;
mod joining;
mod rows;
mod splitting;

pub use hunks::MergeHunk;
use hunks::{are_resolved, side_of, sides_of};
use jj_merges::merge::{Merge, SameChange, trivial_merge};
use joining::join_hunks;
use rows::merge_by_lines;
use smallvec::SmallVec;
use std::alloc::{AllocError, Global};

/// The granularity of a merge.
#[derive(Copy, Clone, Debug, PartialEq, Eq, Drop)]
pub enum FileMergeHunkLevel {
    /// Hunks of whole lines.
    Line,
    /// Hunks of whole lines; one that does not resolve is merged by words, and is resolved if that
    /// leaves no conflict.
    Word,
}

/// How contents are merged.
#[derive(Copy, Clone, Debug, PartialEq, Eq, Drop)]
pub struct MergeOptions {
    pub hunk_level: FileMergeHunkLevel,
    pub same_change: SameChange,
}

/// A merge of contents.
#[derive(Drop)]
pub enum MergeResult {
    /// The merged contents. No conflict is left.
    Resolved(Vec<u8>),
    /// The hunks, with a conflict among them. No two resolved ones are adjacent, and none of them
    /// is empty.
    Conflict(Vec<Merge<Vec<u8>>>),
}

fn single_hunk<'a>(alloc: Global, value: &'a [u8]) -> Result<Vec<MergeHunk<'a>>, AllocError>
    ensures { IfOk result (λ merged. map terms_of merged.items ≡ (value.now ∷ []) ∷ []) }
{
    let mut merged = Vec::new(alloc);
    merged.push(MergeHunk::Resolved(value))?;
    Ok(merged)
}

/// Merges a list of terms, adds at even indices: compares them line by line with the first remove,
/// and resolves each hunk whose signed counts decide it. The hunks are in order and not joined.
/// Terms that resolve as a whole are one hunk.
#[tactic(auto, using(crate::proofs::Resolving::whole_steps))]
pub fn merge_terms<'a>(
    alloc: Global,
    terms: &[&'a [u8]],
    options: &MergeOptions,
) -> Result<Vec<MergeHunk<'a>>, AllocError>
    requires { IsOdd (length terms.now) }
    ensures merge { IfOk result (λ merged. IsContentMerge options.now.hunk_level
        options.now.same_change (bytes_of terms.now) (map terms_of merged.items)) }
    ensures whole { IfOk result (λ merged. (v : List ℕ)
        → ResolvesTo bytes_eq options.now.same_change (bytes_of terms.now) v
        → map terms_of merged.items ≡ (v ∷ []) ∷ []) }
{
    match trivial_merge(terms, options.same_change) {
        Some(value) => {
            let merged = single_hunk(alloc, *value)?;
            Ok(merged)
        }
        None => {
            let merged = merge_by_lines(alloc, terms, options.hunk_level, options.same_change)?;
            Ok(merged)
        }
    }
}

/// Merges contents into hunks. Linear but for the comparison.
#[tactic(auto, using(crate::proofs::Results::result_steps))]
pub fn merge_hunks(
    alloc: Global,
    inputs: &Merge<&[u8]>,
    options: &MergeOptions,
) -> Result<MergeResult, AllocError>
    // The result is that of hunks that are outcomes of rows of whole lines, whose columns, joined,
    // are the inputs. It is resolved exactly if no hunk is a conflict. In a three-way merge, no
    // line of the base that matches in comparisons with both sides is in a conflict.
    ensures merge { IfOk result (λ merged. IsMergeResult options.now.hunk_level
        options.now.same_change (bytes_of inputs.now) merged) }
    // If the whole contents resolve to a value, this is the result.
    ensures whole { IfOk result (λ merged. (v : List ℕ)
        → ResolvesTo bytes_eq options.now.same_change (bytes_of inputs.now) v
        → IsResolvedTo v merged) }
{
    let hunks = merge_terms(alloc, inputs.as_slice(), options)?;
    if are_resolved(&hunks) {
        let text = side_of(alloc, &hunks, 0)?;
        return Ok(MergeResult::Resolved(text));
    }
    let merged = join_hunks(alloc, &hunks)?;
    Ok(MergeResult::Conflict(merged))
}

/// Merges contents into one merge: the merged contents, or as many terms as the inputs have, each
/// with the hunks that are resolved and its own parts of the others.
#[tactic(auto, using(crate::proofs::Results::result_steps))]
pub fn merge(
    alloc: Global,
    inputs: &Merge<&[u8]>,
    options: &MergeOptions,
) -> Result<Merge<Vec<u8>>, AllocError>
    // The terms are those of hunks that are outcomes of rows of whole lines, whose columns, joined,
    // are the inputs. In a three-way merge, no line of the base that matches in comparisons with
    // both sides is in a conflict.
    ensures merge { IfOk result (λ merged. (hunks : List (List (List ℕ)))
        × IsContentMerge options.now.hunk_level options.now.same_change (bytes_of inputs.now) hunks
        × (merge_contents merged ≡ merged_terms (length inputs.now) hunks)) }
    // If the whole contents resolve to a value, this is the result.
    ensures whole { IfOk result (λ merged. (v : List ℕ)
        → ResolvesTo bytes_eq options.now.same_change (bytes_of inputs.now) v
        → merge_contents merged ≡ v ∷ []) }
{
    let hunks = merge_terms(alloc, inputs.as_slice(), options)?;
    if are_resolved(&hunks) {
        let text = side_of(alloc, &hunks, 0)?;
        return Ok(Merge::resolved(alloc, text));
    }
    let terms = sides_of(alloc, &hunks, inputs.as_slice().len())?;
    Ok(Merge::from_vec(SmallVec::from_vec(terms)))
}

/// Merges contents. Returns `None` if a conflict is left.
#[tactic(auto, using(crate::proofs::Results::result_steps))]
pub fn try_merge(
    alloc: Global,
    inputs: &Merge<&[u8]>,
    options: &MergeOptions,
) -> Result<Option<Vec<u8>>, AllocError>
    // The result is that of hunks that are outcomes of rows of whole lines, whose columns, joined,
    // are the inputs; `None` if a hunk is a conflict. In a three-way merge, no line of the base
    // that matches in comparisons with both sides is in a conflict.
    ensures merge { IfOk result (λ merged. (hunks : List (List (List ℕ)))
        × IsContentMerge options.now.hunk_level options.now.same_change (bytes_of inputs.now) hunks
        × (option_map (λ text. text.items) merged ≡ tried_outcome hunks)) }
    // If the whole contents resolve to a value, this is the result.
    ensures whole { IfOk result (λ merged. (v : List ℕ)
        → ResolvesTo bytes_eq options.now.same_change (bytes_of inputs.now) v
        → option_map (λ text. text.items) merged ≡ Some v) }
{
    let hunks = merge_terms(alloc, inputs.as_slice(), options)?;
    if !are_resolved(&hunks) {
        return Ok(None);
    }
    let text = side_of(alloc, &hunks, 0)?;
    Ok(Some(text))
}
