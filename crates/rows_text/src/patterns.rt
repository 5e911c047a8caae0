//! Requests on string patterns, pattern expressions, and their matchers.
ghost use Rattle.std.specs.Iterator.{IsFinite};

use jj_strings::str_util::{
    StringExpression, StringMatcher, StringPattern, StringPatternParseError,
};
use rows::request::{Fields, Request};
use rows::row_error::{RowError, agree};
use rows::values::Values;
use std::alloc::{AllocError, Global};

// Parses a pattern, and fails with `Precondition` if it is invalid.
fn pattern_of(alloc: Global, kind: &str, string: &str) -> Result<StringPattern, RowError> {
    match StringPattern::from_str_kind(alloc, string, kind) {
        Ok(pattern) => Ok(pattern),
        Err(StringPatternParseError::Memory) => Err(RowError::Memory),
        Err(_) => Err(RowError::Precondition("a pattern")),
    }
}

fn put_error(alloc: Global, values: &mut Values, error: &StringPatternParseError) {
    values.word("error");
    match error {
        StringPatternParseError::Regex(regex) => match format!(in alloc; "{regex}") {
            // The rest of the message quotes the pattern.
            Ok(message) => values.flag(message.as_str().starts_with("regex parse error")),
            Err(error) => values.allocated(Err(error)),
        },
        error => {
            values.debug(error);
            values.display(error);
        }
    }
}

fn copy_agrees(alloc: Global, pattern: &StringPattern) -> Result<(), RowError> {
    let copy = pattern.clone()?;
    let shown = format!(in alloc; "{pattern:?}")?;
    agree(shown == format!(in alloc; "{copy:?}")?, "copy of a pattern")
}

fn put_pattern(
    alloc: Global,
    values: &mut Values,
    pattern: &StringPattern,
) -> Result<(), RowError> {
    values.word("ok");
    values.debug(pattern);
    values.string(pattern.as_str());
    values.flag(pattern.is_all());
    values.option_string(pattern.as_exact());
    values.debug(&pattern.to_matcher(alloc)?);
    agree(
        pattern.is_exact() == pattern.as_exact().is_some(),
        "exact patterns",
    )?;
    copy_agrees(alloc, pattern)
}

// Parses a pattern, and appends its forms or the error.
fn pattern(alloc: Global, request: &Request, values: &mut Values) -> Result<(), RowError> {
    let fields = request.group(0);
    match StringPattern::from_str_kind(alloc, fields.string(1), fields.string(0)) {
        Ok(pattern) => put_pattern(alloc, values, &pattern),
        Err(StringPatternParseError::Memory) => Err(RowError::Memory),
        Err(error) => {
            put_error(alloc, values, &error);
            Ok(())
        }
    }
}

// Appends the strings that match. Fails unless the three ways to match agree.
fn put_matches(
    alloc: Global,
    values: &mut Values,
    matcher: &StringMatcher,
    strings: &Fields,
) -> Result<(), RowError> {
    let mut searcher = matcher.searcher(alloc);
    for index in 0..strings.len() {
        let bytes = strings.bytes(index);
        let is_match = matcher.is_match_bytes(alloc, bytes)?;
        if is_match {
            values.bytes(bytes);
        }
        agree(searcher.is_match_bytes(bytes)? == is_match, "a searcher")?;
        if let Ok(string) = str::from_utf8(bytes) {
            agree(
                matcher.is_match(alloc, string)? == is_match,
                "a match of a string",
            )?;
        }
    }
    Ok(())
}

// Appends the strings that a pattern matches.
fn matches(alloc: Global, request: &Request, values: &mut Values) -> Result<(), RowError> {
    let fields = request.group(0);
    let matcher = pattern_of(alloc, fields.string(0), fields.string(1))?.to_matcher(alloc)?;
    put_matches(alloc, values, &matcher, request.group(1))
}

// Appends the debug form of a matcher of all strings or of one, and the strings that match.
fn matcher(alloc: Global, request: &Request, values: &mut Values) -> Result<(), RowError> {
    let fields = request.group(0);
    let matcher = match fields.string(0) {
        "all" => StringMatcher::all(),
        _ => StringMatcher::exact(String::from_str(alloc, fields.string(1))?),
    };
    values.debug(&matcher);
    put_matches(alloc, values, &matcher, request.group(1))
}

fn put_regex_matches(
    alloc: Global,
    values: &mut Values,
    pattern: &StringPattern,
    strings: &Fields,
) -> Result<(), RowError> {
    let regex = match pattern.to_regex(alloc) {
        Ok(regex) => regex,
        Err(regex::Error::OutOfMemory) => return Err(RowError::Memory),
        Err(_) => return Err(RowError::Disagreement("a pattern without a regular expression")),
    };
    for index in 0..strings.len() {
        let bytes = strings.bytes(index);
        if regex.matcher(alloc)?.is_match(bytes) {
            values.bytes(bytes);
        }
    }
    Ok(())
}

// Appends the strings that a pattern's regular expression matches.
fn regex(alloc: Global, request: &Request, values: &mut Values) -> Result<(), RowError> {
    let fields = request.group(0);
    let pattern = pattern_of(alloc, fields.string(0), fields.string(1))?;
    put_regex_matches(alloc, values, &pattern, request.group(1))
}

// Appends a pattern as a glob, and the strings that the glob matches.
fn glob(alloc: Global, request: &Request, values: &mut Values) -> Result<(), RowError> {
    let fields = request.group(0);
    let pattern = pattern_of(alloc, fields.string(0), fields.string(1))?;
    let Some(glob) = pattern.to_glob(alloc)? else {
        values.word("none");
        return Ok(());
    };
    values.word("some");
    values.string(glob.as_str());
    let matcher = pattern_of(alloc, "glob", glob.as_str())?.to_matcher(alloc)?;
    put_matches(alloc, values, &matcher, request.group(1))
}

fn pop(stack: &mut Vec<StringExpression>) -> Result<StringExpression, RowError> {
    match stack.pop() {
        Some(expression) => Ok(expression),
        None => Err(RowError::Unreadable("operand")),
    }
}

fn push_pattern(
    alloc: Global,
    stack: &mut Vec<StringExpression>,
    token: &str,
) -> Result<(), RowError> {
    let Some((kind, string)) = token.split_once(':') else {
        return Err(RowError::Unreadable("token"));
    };
    let pattern = pattern_of(alloc, kind, string)?;
    stack.push(StringExpression::pattern(alloc, pattern)?)?;
    Ok(())
}

fn push_union(alloc: Global, stack: &mut Vec<StringExpression>) -> Result<(), RowError> {
    let right = pop(stack)?;
    let left = pop(stack)?;
    stack.push(left.union(alloc, right)?)?;
    Ok(())
}

fn push_intersection(alloc: Global, stack: &mut Vec<StringExpression>) -> Result<(), RowError> {
    let right = pop(stack)?;
    let left = pop(stack)?;
    stack.push(left.intersection(alloc, right)?)?;
    Ok(())
}

fn push_union_of_all(alloc: Global, stack: &mut Vec<StringExpression>) -> Result<(), RowError> {
    let all = stack.split_off(0)?;
    stack.push(StringExpression::union_all(alloc, all)?)?;
    Ok(())
}

// Evaluates one token of a postfix expression.
fn step(alloc: Global, stack: &mut Vec<StringExpression>, token: &str) -> Result<(), RowError> {
    match token {
        "all" => stack.push(StringExpression::all(alloc)?)?,
        "none" => stack.push(StringExpression::none(alloc)?)?,
        "not" => {
            let inner = pop(stack)?;
            stack.push(inner.negated(alloc)?)?;
        }
        "or" => return push_union(alloc, stack),
        "and" => return push_intersection(alloc, stack),
        "union-all" => return push_union_of_all(alloc, stack),
        token => return push_pattern(alloc, stack, token),
    }
    Ok(())
}

fn expression_of(alloc: Global, tokens: &Fields) -> Result<StringExpression, RowError> {
    let mut stack = Vec::new(alloc);
    for index in 0..tokens.len() {
        step(alloc, &mut stack, tokens.string(index))?;
    }
    pop(&mut stack)
}

fn put_expression(
    alloc: Global,
    values: &mut Values,
    expression: &StringExpression,
) -> Result<(), RowError> {
    values.debug(expression);
    values.debug(&expression.to_matcher(alloc)?);
    for string in expression.exact_strings(alloc)? {
        values.string(string);
    }
    Ok(())
}

// Appends the debug forms of a postfix expression and its matcher, and its exact strings.
fn expression(alloc: Global, request: &Request, values: &mut Values) -> Result<(), RowError> {
    let expression = expression_of(alloc, request.group(0))?;
    let copy = expression.clone()?;
    put_expression(alloc, values, &copy)
}

// Appends the strings that a postfix expression matches.
fn expression_matches(
    alloc: Global,
    request: &Request,
    values: &mut Values,
) -> Result<(), RowError> {
    let matcher = expression_of(alloc, request.group(0))?.to_matcher(alloc)?;
    put_matches(alloc, values, &matcher, request.group(1))
}

// Collects an iterator, up to its first error.
fn items_of<T: Drop, I: Iterator<Item = Result<T, AllocError>> + Drop>(
    alloc: Global,
    found: I,
) -> Result<Vec<T>, AllocError>
    requires callable { I.can_next found }
    requires finite { IsFinite (I.remaining found) }
{
    let mut items = Vec::new(alloc);
    for item in found {
        items.push(item?)?;
    }
    Ok(items)
}

// Appends the lines of a string that a pattern matches.
fn lines(alloc: Global, request: &Request, values: &mut Values) -> Result<(), RowError> {
    let fields = request.group(0);
    let bytes = fields.bytes(2);
    let matcher = pattern_of(alloc, fields.string(0), fields.string(1))?.to_matcher(alloc)?;
    for line in items_of(alloc, matcher.match_lines(alloc, bytes))? {
        values.bytes(line);
    }
    Ok(())
}

fn push_repeated(string: &mut String, part: &str, times: u64) -> Result<(), AllocError> {
    for _ in 0..times {
        string.push_str(part)?;
    }
    Ok(())
}

// Parses pairs of a string and its number of repetitions, and concatenates them.
fn repeated(alloc: Global, fields: &Fields, start: usize) -> Result<String, AllocError> {
    let mut string = String::new(alloc);
    for index in start..fields.len() {
        if index % 2 == start % 2 {
            let times = fields.number(index.saturating_add(1));
            push_repeated(&mut string, fields.string(index), times)?;
        }
    }
    Ok(string)
}

// Appends whether a pattern with repeated parts matches strings with repeated parts.
fn matches_repeated(alloc: Global, request: &Request, values: &mut Values) -> Result<(), RowError> {
    let fields = request.group(0);
    let pattern = repeated(alloc, fields, 1)?;
    let matcher = pattern_of(alloc, fields.string(0), pattern.as_str())?.to_matcher(alloc)?;
    for strings in request.groups().iter().skip(1) {
        let string = repeated(alloc, strings, 0)?;
        values.flag(matcher.is_match(alloc, string.as_str())?);
    }
    Ok(())
}

pub(crate) fn call(alloc: Global, name: &str, request: &Request, values: &mut Values) -> bool {
    let called = match name {
        "pattern" => pattern(alloc, request, values),
        "matches" => matches(alloc, request, values),
        "matcher" => matcher(alloc, request, values),
        "pattern-regex" => regex(alloc, request, values),
        "pattern-glob" => glob(alloc, request, values),
        "expression" => expression(alloc, request, values),
        "expression-matches" => expression_matches(alloc, request, values),
        "match-lines" => lines(alloc, request, values),
        "matches-repeated" => matches_repeated(alloc, request, values),
        _ => return false,
    };
    values.record(called);
    true
}
