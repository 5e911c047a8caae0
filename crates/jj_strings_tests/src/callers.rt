//! Proved callers of string matchers.
ghost use Rattle.std.specs.Prelude.{◌≡◌, ◌↔◌, IsTrue, IsErr, IfOk, map, false};
ghost use Rattle.std.specs.Map.Iter.{deref_pair};
ghost use Rattle.jj_strings.specs.StringMatchers.{InMatcher, MayAllocate};
ghost use Rattle.jj_strings.specs.StringSets.{InPattern, is_all};
ghost use Rattle.jj_strings.specs.PatternViews.{pattern_of};
ghost use Rattle.jj_strings_tests.specs.Selected.{Selects};

use jj_content_tests::fallible_iterators::collect_fallible;
use jj_ids::object_id::CommitId;
use jj_ids::ref_name::RefNameBuf;
use jj_strings::str_util::{StringMatcher, StringPattern};
use std::alloc::{AllocError, Global};
use std::collections::BTreeMap;

/// Whether the matcher matches both names, with one searcher. Fails only if it contains a regular
/// expression.
pub fn matches_both(
    alloc: Global,
    matcher: &StringMatcher,
    first: &str,
    second: &str,
) -> Result<bool, AllocError>
    ensures both { IfOk result (λ yes. IsTrue yes
        ↔ (InMatcher matcher.now first.now × InMatcher matcher.now second.now)) }
    ensures memory { IsErr result → MayAllocate matcher.now }
{
    let mut searcher = matcher.searcher(alloc);
    let is_first = searcher.is_match(first)?;
    let is_second = searcher.is_match(second)?;
    Ok(is_first && is_second)
}

/// Returns the refs whose names match with their targets, ordered by name.
pub fn refs_named<'a>(
    alloc: Global,
    matcher: &StringMatcher,
    refs: &'a BTreeMap<RefNameBuf, CommitId>,
) -> Result<Vec<(&'a RefNameBuf, &'a CommitId)>, AllocError>
    ensures { IfOk result (λ found. Selects (λ entry. InMatcher matcher.now entry.0)
        refs.now.entries (map deref_pair found.items)) }
{
    collect_fallible(alloc, matcher.filter_btree_map(alloc, refs))
}

/// Whether a pattern matches a byte string, by its matcher. Proved for patterns that do not
/// trivially match everything.
pub fn is_in_pattern(
    alloc: Global,
    pattern: &StringPattern,
    bytes: &[u8],
) -> Result<bool, AllocError>
    ensures { is_all (pattern_of pattern.now) ≡ false
        → IfOk result (λ yes. IsTrue yes ↔ InPattern (pattern_of pattern.now) bytes.now) }
{
    let matcher = pattern.to_matcher(alloc)?;
    matcher.is_match_bytes(alloc, bytes)
}
