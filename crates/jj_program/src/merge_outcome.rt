//! Trivial resolution of a merge of strings in O(n log n), or O(n) for few distinct values or few
//! that do not cancel: cancels adds with equal removes by hints, then by merging sorted lists.
ghost use Rattle.std.specs.Prelude.{◌≡◌, ◌+◌, ◌<◌, ◌⊎◌, IfOk, IsTrue, None, if◌then◌else◌, count_by, length};
ghost use Rattle.std.specs.Str.{bytes_eq};
ghost use Rattle.std.specs.List.Sorted.{IsSorted};
ghost use Rattle.jj_merges.specs.Merge.{IsOdd};
ghost use Rattle.jj_merges.specs.Merge as merge;
ghost use Rattle.jj_program.specs.MergeViews.{text_eq, text_cmp, is_other, IsTextOutcome, ResolvesSides, IsUnmatched, IsMatched};

use crate::merge_counts::{count_values, outcome_of_counts};
use crate::merge_pairs::cancel_pairs;
use crate::text_sort::sort_strings;
use jj_merges::merge::{SameChange, trivial_merge};
use std::alloc::{AllocError, Global};
use std::cmp::Ordering;

// Merges with at least this many terms are counted or sorted; shorter ones are compared directly.
const MANY_TERMS: usize = 64;

// Resolves a merge of these terms if their signed counts determine one value. Allocates only if
// there are at least `MANY_TERMS`.
pub(crate) fn outcome<'t>(
    alloc: Global,
    terms: &[&'t str],
    same_change: SameChange,
) -> Result<Option<&'t str>, AllocError>
    requires { IsOdd (length terms.now) }
    ensures { IfOk result (IsTextOutcome same_change terms.now) }
{
    if terms.len() < MANY_TERMS {
        return Ok(outcome_of_terms(terms, same_change));
    }
    if let Some(counts) = count_values(alloc, terms)? {
        return Ok(outcome_of_counts(&counts, same_change));
    }
    if conflicts_at_start(terms, same_change) {
        return Ok(None);
    }
    let (adds, removes) = cancel_pairs(alloc, terms)?;
    let mut adds = adds;
    let mut removes = removes;
    let mut entries = Vec::with_capacity(alloc, adds.len())?;
    sort_strings(&mut entries, &mut adds)?;
    sort_strings(&mut entries, &mut removes)?;
    Ok(outcome_of_sides(&adds, &removes, same_change))
}

fn outcome_of_terms<'t>(terms: &[&'t str], same_change: SameChange) -> Option<&'t str>
    requires { IsOdd (length terms.now) }
    ensures { IsTextOutcome same_change terms.now result }
{
    match trivial_merge(terms, same_change) {
        Some(term) => Some(*term),
        None => None,
    }
}

// Whether the first remove or the first two adds are left, so that the merge is a conflict, as most
// merges of many values are. At most three comparisons for each term.
fn conflicts_at_start(terms: &[&str], same_change: SameChange) -> bool
    requires { 2 < length terms.now }
    ensures { IsTrue result → IsTextOutcome same_change terms.now None }
{
    if same_change == SameChange::Keep {
        let (adds, removes) = count_of(terms, terms[1]);
        if adds < removes {
            return true;
        }
    }
    if terms[0] == terms[2] {
        return false;
    }
    let (first_adds, first_removes) = count_of(terms, terms[0]);
    if first_adds <= first_removes {
        return false;
    }
    let (next_adds, next_removes) = count_of(terms, terms[2]);
    next_removes < next_adds
}

// Counts the adds and the removes that are equal to a value.
fn count_of(terms: &[&str], value: &str) -> (usize, usize)
    ensures adds { result.0 ≡ count_by (text_eq value.entry) (merge.adds terms.now) }
    ensures removes { result.1 ≡ count_by (text_eq value.entry) (merge.removes terms.now) }
{
    let mut adds = 0;
    let mut removes = 0;
    let mut index = 0;
    while index < terms.len() {
        let equal = one_if_equal(value, terms[index]);
        if index % 2 == 0 {
            adds += equal;
        } else {
            removes += equal;
        }
        index += 1;
    }
    (adds, removes)
}

// Returns 1 for equal strings, else 0.
fn one_if_equal(value: &str, other: &str) -> usize
    ensures { result ≡ (if bytes_eq value.now other.now then 1 else 0) }
{
    if value == other { 1 } else { 0 }
}

// Resolves the merges with the signed counts of these sides, which are sorted and one more adds
// than removes. Cancels equal values by merging the two lists, and stops at the first two values
// left on one side.
fn outcome_of_sides<'t>(
    adds: &[&'t str],
    removes: &[&'t str],
    same_change: SameChange,
) -> Option<&'t str>
    requires adds { IsSorted text_cmp adds.now }
    requires removes { IsSorted text_cmp removes.now }
    requires one_more { length adds.now ≡ length removes.now + 1 }
    ensures { ResolvesSides same_change adds.now removes.now result }
{
    let mut added: Option<&'t str> = None;
    let mut removed: Option<&'t str> = None;
    let (mut i, mut j) = (0, 0);
    while i < adds.len() || j < removes.len() {
        match compare_heads(adds, i, removes, j) {
            Ordering::Less => {
                if is_other(added, adds[i]) {
                    return None;
                }
                added = Some(adds[i]);
                i += 1;
            }
            Ordering::Equal => {
                i += 1;
                j += 1;
            }
            Ordering::Greater => {
                if same_change == SameChange::Keep || is_other(removed, removes[j]) {
                    return None;
                }
                removed = Some(removes[j]);
                j += 1;
            }
        }
    }
    added
}

// Compares the add at `i` with the remove at `j`. A missing one is greater than any other.
fn compare_heads(adds: &[&str], i: usize, removes: &[&str], j: usize) -> Ordering
    requires adds { IsSorted text_cmp adds.now }
    requires removes { IsSorted text_cmp removes.now }
    requires some { (i < length adds.now) ⊎ (j < length removes.now) }
    ensures less { result ≡ Ordering.Less → IsUnmatched adds.now i removes.now j }
    ensures equal { result ≡ Ordering.Equal → IsMatched adds.now i removes.now j }
    ensures greater { result ≡ Ordering.Greater → IsUnmatched removes.now j adds.now i }
{
    if j >= removes.len() {
        return Ordering::Less;
    }
    if i >= adds.len() {
        return Ordering::Greater;
    }
    adds[i].cmp(removes[j])
}

// Whether a value was found that differs from this one.
fn is_other(found: Option<&str>, value: &str) -> bool
    ensures { result ≡ is_other found.entry value.now }
{
    match found {
        Some(other) => other != value,
        None => false,
    }
}
