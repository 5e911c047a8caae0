//! Trivial resolution of a merge of strings with few distinct values in O(n): counts the adds and
//! removes of each value in a small table.
ghost use Rattle.std.specs.Prelude.{◌≡◌, ◌≢◌, ◌+◌, ◌<◌, ◌↔◌, ℕ, List, IfOk, OnOk, IfSome, IfNone, IsTrue, length, slice_index_or};
ghost use Rattle.jj_merges.specs.declared.merge.SameChange.{SameChange};
ghost use Rattle.jj_program.specs.Lines.{Text};
ghost use Rattle.jj_program.specs.MergeViews.{text_eq, IsTextOutcome};
ghost use Rattle.jj_program.specs.ValueCounts.{AreCountsOf, IsValueAt, HasNoValue};

use jj_merges::merge::SameChange;
use std::alloc::{AllocError, Global};

// Merges with more distinct values are not counted: each new one is compared with all of them.
const MAX_VALUES: usize = 64;

// The number of hints. A table has for each the index at which a value with this hint was last.
const HINTS: usize = 256;

// Counting stops after this many comparisons per term with values that no hint led to: sorting is
// then about as fast.
const MAX_COMPARISONS: usize = 8;

// A value with the numbers of adds and of removes that are equal to it.
#[derive(Clone, Copy)]
pub(crate) struct ValueCount<'t> {
    text: &'t str,
    adds: usize,
    removes: usize,
}

// Counts the adds and removes of each value. Returns `None` if there are too many values, or too
// many share hints.
pub(crate) fn count_values<'t>(
    alloc: Global,
    terms: &[&'t str],
) -> Result<Option<Vec<ValueCount<'t>>>, AllocError>
    ensures { IfOk result (λ found. IfSome found (λ counts. AreCountsOf terms.now counts.items)) }
{
    let mut counts = Vec::new(alloc);
    let mut hints = [0usize; HINTS];
    let mut compared = 0;
    let mut index = 0;
    while index < terms.len() {
        if compared / MAX_COMPARISONS > terms.len() {
            return Ok(None);
        }
        let term = terms[index];
        let hint = hint_of(term);
        let near = hints[hint];
        let Some(at) = index_of(&mut counts, near, term)? else {
            return Ok(None);
        };
        compared = compared_after(compared, near, at);
        hints[hint] = at;
        let found = counts[at];
        if index % 2 == 0 {
            counts[at] = ValueCount {
                text: found.text,
                adds: found.adds + 1,
                removes: found.removes,
            };
        } else {
            counts[at] = ValueCount {
                text: found.text,
                adds: found.adds,
                removes: found.removes + 1,
            };
        }
        index += 1;
    }
    Ok(Some(counts))
}

// Returns the number of comparisons after a value was found at `at`, which was looked for at `near`
// first.
fn compared_after(compared: usize, near: usize, at: usize) -> usize {
    if near == at {
        compared
    } else {
        compared.saturating_add(at)
    }
}

// Hashes a few bytes of a value to a hint.
fn hint_of(value: &str) -> usize
    ensures { result < HINTS }
{
    let bytes = value.as_bytes();
    let len = bytes.len();
    if len == 0 {
        return 0;
    }
    let some = [
        bytes[0],
        bytes[len / 2],
        bytes[len.saturating_sub(2)],
        bytes[len - 1],
    ];
    let mixed = u32::from_le_bytes(some).wrapping_mul(0x9E37_79B1);
    (mixed >> 24) as usize % HINTS
}

// Returns the index of a value, which is looked for at `near` first. Appends a new value, unless
// there are too many.
fn index_of<'t>(
    counts: &mut Vec<ValueCount<'t>>,
    near: usize,
    value: &'t str,
) -> Result<Option<usize>, AllocError>
    ensures at { IfOk result (λ found. IfSome found (IsValueAt counts.new.items value.now)) }
    ensures same { IfOk result (λ found. IfSome found (λ at. (terms : List Text)
        → AreCountsOf terms counts.old.items → AreCountsOf terms counts.new.items)) }
{
    if let Some(at) = find(counts, near, value) {
        return Ok(Some(at));
    }
    let at = counts.len();
    if at >= MAX_VALUES {
        return Ok(None);
    }
    counts.push(ValueCount {
        text: value,
        adds: 0,
        removes: 0,
    })?;
    Ok(Some(at))
}

// Returns the index of a value, which is looked for at `near` first.
fn find(counts: &[ValueCount<'_>], near: usize, value: &str) -> Option<usize>
    ensures found { IfSome result (IsValueAt counts.now value.now) }
    ensures missing { IfNone result (HasNoValue counts.now value.now) }
{
    if near < counts.len() && counts[near].text == value {
        return Some(near);
    }
    for at in 0..counts.len() {
        if counts[at].text == value {
            return Some(at);
        }
    }
    None
}

// Resolves the merges with these counts.
pub(crate) fn outcome_of_counts<'t>(
    counts: &[ValueCount<'t>],
    same_change: SameChange,
) -> Option<&'t str>
    ensures { (terms : List Text) → AreCountsOf terms counts.now
        → IsTextOutcome same_change terms result }
{
    let mut added: Option<&'t str> = None;
    let mut removed: Option<&'t str> = None;
    let mut index = 0;
    while index < counts.len() {
        let count = counts[index];
        if count.removes < count.adds {
            if added.is_some() {
                return None;
            }
            if is_kept_duplicate(same_change, count.adds, count.removes) {
                return None;
            }
            added = Some(count.text);
        } else if count.adds < count.removes {
            if same_change == SameChange::Keep {
                return None;
            }
            if removed.is_some() {
                return None;
            }
            removed = Some(count.text);
        }
        index += 1;
    }
    added
}

// Whether several sides made this change, which `Keep` leaves unresolved.
fn is_kept_duplicate(same_change: SameChange, adds: usize, removes: usize) -> bool
    requires { removes < adds }
    ensures { IsTrue result ↔ ((same_change ≡ SameChange.Keep) × (adds ≢ removes + 1)) }
{
    same_change == SameChange::Keep && adds - removes != 1
}
