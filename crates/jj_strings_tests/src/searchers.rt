//! Tests of searchers: many strings with one matcher.
use crate::fixtures::{check_result, expression};
use jj_content_tests::retry::{Passed, passes};
use jj_strings::str_util::{StringExpression, StringMatcher, StringSearcher};
use std::alloc::{AllocError, Global};
use std::process::Abort;
use std::test::Fail;

// Strings that end in `b` in either case, and the string `ac`.
fn set_of_ends<R: Abort>(rt: &R, alloc: Global) -> Result<StringExpression, AllocError> {
    let in_b = expression(rt, alloc, "regex-i", "B$")?;
    in_b.union(alloc, expression(rt, alloc, "exact", "ac")?)
}

// Strings that begin with `a` and are not in `set_of_ends`.
fn matcher_of_starts<R: Abort>(rt: &R, alloc: Global) -> Result<StringMatcher, AllocError> {
    let starts = expression(rt, alloc, "regex", "^a")?;
    let difference = starts.intersection(alloc, set_of_ends(rt, alloc)?.negated(alloc)?)?;
    difference.to_matcher(alloc)
}

static STRINGS: [(&str, bool); 7] = [
    ("ab", false),
    ("a", true),
    ("b", false),
    ("aB", false),
    ("ac", false),
    ("abc", true),
    ("", false),
];

// Repeats the call after an allocation failure.
fn match_again(searcher: &mut StringSearcher<'_>, text: &str) -> Result<bool, AllocError> {
    match searcher.is_match(text) {
        Ok(yes) => Ok(yes),
        Err(AllocError) => searcher.is_match_bytes(text.as_bytes()),
    }
}

// Matches all strings with one searcher, which is used again after an allocation failure.
fn check_each<R: Abort>(
    rt: &R,
    searcher: &mut StringSearcher<'_>,
    rows: &[(&str, bool)],
) -> Passed {
    for (text, expected) in rows {
        check_result(rt, match_again(searcher, text)?, *expected, text);
    }
    Ok(())
}

fn check_strings<R: Abort>(rt: &R, alloc: Global) -> Passed {
    let matcher = matcher_of_starts(rt, alloc)?;
    check_each(rt, &mut matcher.searcher(alloc), &STRINGS)
}

#[test]
fn strings_one_after_another(rt: HostRuntime) -> Result<(), Fail> {
    passes(&rt, check_strings)
}
