//! Parsed patterns, and checks of debug forms, matches and iterators.
ghost use Rattle.std.specs.Iterator.{IsFinite};

use jj_content_tests::retry::Passed;
use jj_strings::str_util::{
    StringExpression, StringMatcher, StringPattern, StringPatternParseError,
};
use std::alloc::{AllocError, Global};
use std::fmt;
use std::process::Abort;

/// Parses a pattern that is known to be valid.
pub fn pattern<R: Abort>(
    rt: &R,
    alloc: Global,
    kind: &str,
    text: &str,
) -> Result<StringPattern, AllocError> {
    match StringPattern::from_str_kind(alloc, text, kind) {
        Ok(pattern) => Ok(pattern),
        Err(StringPatternParseError::Memory) => Err(AllocError),
        Err(error) => panic!(rt; "{kind}:{text} is a pattern: {error}"),
    }
}

/// Parses a pattern as an expression.
pub fn expression<R: Abort>(
    rt: &R,
    alloc: Global,
    kind: &str,
    text: &str,
) -> Result<StringExpression, AllocError> {
    StringExpression::pattern(alloc, pattern(rt, alloc, kind, text)?)
}

/// Parses and compiles a pattern.
pub fn matcher<R: Abort>(
    rt: &R,
    alloc: Global,
    kind: &str,
    text: &str,
) -> Result<StringMatcher, AllocError> {
    pattern(rt, alloc, kind, text)?.to_matcher(alloc)
}

/// Checks the debug form of a value.
pub fn check_debug<R: Abort, T: fmt::Debug>(
    rt: &R,
    alloc: Global,
    value: &T,
    debug: &str,
) -> Passed {
    assert_eq!(rt; format!(in alloc; "{value:?}")?.as_str(), debug);
    Ok(())
}

/// Checks the result of a match.
pub fn check_result<R: Abort>(rt: &R, found: bool, expected: bool, string: &str) {
    assert!(rt; found == expected, "{found} for {string:?}");
}

/// Checks whether a matcher matches a string.
pub fn check_match<R: Abort>(
    rt: &R,
    alloc: Global,
    matcher: &StringMatcher,
    string: &str,
    expected: bool,
) -> Passed {
    check_result(rt, matcher.is_match(alloc, string)?, expected, string);
    Ok(())
}

/// Collects the items of an iterator, which must end after an error.
pub fn collect<R: Abort, T: Drop, I: Iterator<Item = Result<T, AllocError>> + Drop>(
    rt: &R,
    alloc: Global,
    found: I,
) -> Result<Vec<T>, AllocError>
    requires callable { I.can_next found }
    requires finite { IsFinite (I.remaining found) }
{
    let mut items = Vec::new(alloc);
    let mut has_failed = false;
    for item in found {
        assert!(rt; !has_failed, "nothing comes after an error");
        match item {
            Ok(item) => items.push(item)?,
            Err(AllocError) => has_failed = true,
        }
    }
    if has_failed {
        return Err(AllocError);
    }
    Ok(items)
}
