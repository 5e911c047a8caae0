//! Search among patterns that are sorted by literal prefix: a binary search for the last one that
//! is at most the path, and from there a chain of links to patterns with shorter literal prefixes.
ghost use Rattle.std.specs.Prelude.{◌≡◌, ◌∷◌, ◌++◌, [], true, false, drop, take};
ghost use Rattle.std.specs.List.{list_any};
ghost use Rattle.jj_globs.specs.GlobPrefix.{glob_prefix};
ghost use Rattle.jj_matchers.specs.PatternOrder.{is_at_most, is_sorted_by_prefix, matches_string};
ghost use Rattle.jj_matchers.specs.LinkedPatterns.{AreLinked, IsCutAt, encloses, globs_of};

use crate::matchers::PathGlobPattern;
use std::alloc::AllocError;

// A pattern in a sorted list, with a link to the nearest earlier one whose literal prefix is a
// proper prefix of this one's.
#[derive(Debug, Drop)]
pub(super) struct LinkedPattern {
    pub pattern: PathGlobPattern,
    // The number of patterns up to the linked one, or 0 if there is none.
    pub enclosing_len: usize,
}

impl Clone for LinkedPattern {
    ghost is_clone = { λ linked copy. copy ≡ linked };

    fn clone(&self) -> Result<LinkedPattern, AllocError> {
        Ok(LinkedPattern {
            pattern: self.pattern.clone()?,
            enclosing_len: self.enclosing_len,
        })
    }
}

impl LinkedPattern {
    // Returns the earlier patterns up to the linked one.
    fn enclosing<'a>(&self, earlier: &'a [LinkedPattern]) -> &'a [LinkedPattern]
        ensures { result.now ≡ take self.now.enclosing_len earlier.now }
    {
        &earlier[..self.enclosing_len.min(earlier.len())]
    }
}

// Returns whether a pattern matches. Let the last remaining pattern's literal prefix be at most the
// path, but no prefix of it. Then each earlier prefix of the path is also one of that literal
// prefix, so the patterns after the linked one cannot match.
pub(super) fn any_match_sorted(patterns: &[LinkedPattern], prefix_paths: bool, text: &str) -> bool
    requires order { is_sorted_by_prefix (globs_of patterns.now) ≡ true }
    requires links { AreLinked patterns.now }
    ensures { result ≡ list_any (λ glob. matches_string prefix_paths glob text.now)
        (globs_of patterns.now) }
{
    let bytes = text.as_bytes();
    let mut left = at_most(patterns, bytes);
    while let Some((last, before)) = left.split_last() {
        if !bytes.starts_with(last.pattern.literal_prefix()) {
            left = last.enclosing(before);
            continue;
        }
        if last.pattern.matches_path(prefix_paths, text) {
            return true;
        }
        left = before;
    }
    false
}

// Returns the length of the list up to the last pattern whose literal prefix is a proper prefix of
// this pattern's, or 0. It follows the links, so n patterns take O(n) comparisons.
pub(super) fn find_enclosing(patterns: &[LinkedPattern], pattern: &PathGlobPattern) -> usize
    ensures { is_sorted_by_prefix (globs_of patterns.now ++ pattern.now ∷ []) ≡ true
        → AreLinked patterns.now → list_any (encloses (glob_prefix pattern.now))
        (globs_of (drop result patterns.now)) ≡ false }
{
    let mut left = patterns;
    while let Some((last, before)) = left.split_last() {
        if encloses(&last.pattern, pattern) {
            return left.len();
        }
        left = last.enclosing(before);
    }
    0
}

// Returns whether the literal prefix of the first pattern is a proper prefix of the second's.
fn encloses(pattern: &PathGlobPattern, other: &PathGlobPattern) -> bool
    ensures { result ≡ encloses (glob_prefix other.now) pattern.now }
{
    let prefix = pattern.literal_prefix();
    let bytes = other.literal_prefix();
    prefix.len() < bytes.len() && bytes.starts_with(prefix)
}

// Returns whether the list is still sorted after the pattern is appended.
pub(super) fn stays_sorted(patterns: &[LinkedPattern], pattern: &PathGlobPattern) -> bool
    ensures { is_sorted_by_prefix (globs_of patterns.now) ≡ true
        → result ≡ is_sorted_by_prefix (globs_of patterns.now ++ pattern.now ∷ []) }
{
    match patterns.split_last() {
        Some((last, _)) => is_prefix_at_most(&last.pattern, pattern.literal_prefix()),
        None => true,
    }
}

// Returns the patterns whose literal prefix is at most these bytes.
fn at_most<'a>(patterns: &'a [LinkedPattern], bytes: &[u8]) -> &'a [LinkedPattern]
    requires order { is_sorted_by_prefix (globs_of patterns.now) ≡ true }
    ensures { IsCutAt bytes.now patterns.now result.now }
{
    let end = patterns.partition_point(|linked| is_prefix_at_most(&linked.pattern, bytes));
    &patterns[..end]
}

fn is_prefix_at_most(pattern: &PathGlobPattern, bytes: &[u8]) -> bool
    ensures { result ≡ is_at_most (glob_prefix pattern.now) bytes.now }
{
    pattern.literal_prefix().cmp(&bytes).is_le()
}
