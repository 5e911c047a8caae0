//! Requests on globs. The first fields are `1` if `/` separates, `1` if case is ignored, and the
//! glob. If the glob cannot be parsed, its error is the result.
use jj_globs::glob::{Glob, GlobError, escape, is_special};
use rows::request::{Fields, Request};
use rows::row_error::{RowError, agree};
use rows::values::Values;
use std::alloc::Global;

// Parses a glob, or appends its error.
fn parse_text(
    alloc: Global,
    text: &str,
    separator: bool,
    icase: bool,
    values: &mut Values,
) -> Result<Option<Glob>, RowError> {
    match Glob::parse(alloc, text, separator, icase) {
        Ok(glob) => Ok(Some(glob)),
        Err(GlobError::Memory) => Err(RowError::Memory),
        Err(error) => {
            values.debug(&error);
            Ok(None)
        }
    }
}

fn parse(alloc: Global, fields: &Fields, values: &mut Values) -> Result<Option<Glob>, RowError> {
    let separator = fields.flag(0);
    let icase = fields.flag(1);
    parse_text(alloc, fields.string(2), separator, icase, values)
}

fn glob_parse(alloc: Global, fields: &Fields, values: &mut Values) -> Result<(), RowError> {
    let text = fields.string(2);
    let Some(glob) = parse(alloc, fields, values)? else {
        return Ok(());
    };
    values.word("ok");
    agree(glob.as_str() == text, "text of the glob")
}

// Appends for each further field whether the glob matches it.
fn glob_match(alloc: Global, fields: &Fields, values: &mut Values) -> Result<(), RowError> {
    let Some(glob) = parse(alloc, fields, values)? else {
        return Ok(());
    };
    for index in 3..fields.len() {
        values.flag(glob.is_match(fields.bytes(index)));
    }
    Ok(())
}

// Appends for each further field whether the glob matches it, or a prefix of it that `/` follows.
fn glob_prefix(alloc: Global, fields: &Fields, values: &mut Values) -> Result<(), RowError> {
    let Some(glob) = parse(alloc, fields, values)? else {
        return Ok(());
    };
    for index in 3..fields.len() {
        values.flag(glob.is_prefix_match(fields.bytes(index)));
    }
    Ok(())
}

// Appends the literal prefix of the glob.
fn glob_literal_prefix(
    alloc: Global,
    fields: &Fields,
    values: &mut Values,
) -> Result<(), RowError> {
    if let Some(glob) = parse(alloc, fields, values)? {
        values.bytes(glob.literal_prefix());
    }
    Ok(())
}

// Appends the equivalent regular expression.
fn glob_regex(alloc: Global, fields: &Fields, values: &mut Values) -> Result<(), RowError> {
    if let Some(glob) = parse(alloc, fields, values)? {
        values.allocated(glob.regex_text(alloc));
    }
    Ok(())
}

// Appends for each field the escaped glob, and checks that it matches the field.
fn glob_escape(alloc: Global, fields: &Fields, values: &mut Values) -> Result<(), RowError> {
    for index in 0..fields.len() {
        let text = fields.string(index);
        let escaped = escape(alloc, text)?;
        values.string(escaped.as_str());
        if let Some(glob) = parse_text(alloc, escaped.as_str(), true, false, values)? {
            agree(glob.is_match(text.as_bytes()), "escaped glob")?;
        }
    }
    Ok(())
}

// Appends for each byte whether it is special in a glob.
fn glob_special(fields: &Fields, values: &mut Values) -> Result<(), RowError> {
    for byte in fields.bytes(0) {
        values.flag(is_special(*byte));
    }
    Ok(())
}

// Returns the first field, repeated by the number in the second one, and then the third.
fn repeat(alloc: Global, fields: &Fields) -> Result<String, RowError> {
    let times = fields.index(1);
    let unit = fields.string(0);
    let end = fields.string(2);
    let mut whole = String::new(alloc);
    for _ in 0..times {
        whole.push_str(unit)?;
    }
    whole.push_str(end)?;
    Ok(whole)
}

// Matches the repeated glob of the first group with the repeated string of the second.
fn glob_repeat(alloc: Global, request: &Request, values: &mut Values) -> Result<(), RowError> {
    let text = repeat(alloc, request.group(1))?;
    let whole = repeat(alloc, request.group(0))?;
    if let Some(glob) = parse_text(alloc, whole.as_str(), true, false, values)? {
        values.flag(glob.is_match(text.as_bytes()));
        values.flag(glob.is_prefix_match(text.as_bytes()));
    }
    Ok(())
}

// Returns the glob `**/{n0.rs,n1.rs,..,other}` with this many numbered names.
fn numbered_names(alloc: Global, count: usize) -> Result<String, RowError> {
    let mut text = String::from_str(alloc, "**/{")?;
    for number in 0..count {
        text.push_str(format!(in alloc; "n{number}.rs,")?.as_str())?;
    }
    text.push_str("other}")?;
    Ok(text)
}

// Appends for each further field whether the glob of numbered names matches it.
fn glob_names(alloc: Global, fields: &Fields, values: &mut Values) -> Result<(), RowError> {
    let text = numbered_names(alloc, fields.index(0))?;
    let Some(glob) = parse_text(alloc, text.as_str(), true, false, values)? else {
        return Ok(());
    };
    for index in 1..fields.len() {
        values.flag(glob.is_match(fields.bytes(index)));
    }
    Ok(())
}

pub(crate) fn call(alloc: Global, name: &str, request: &Request, values: &mut Values) -> bool {
    if !name.starts_with("glob-") {
        return false;
    }
    let fields = request.group(0);
    let called = match name {
        "glob-parse" => glob_parse(alloc, fields, values),
        "glob-match" => glob_match(alloc, fields, values),
        "glob-prefix" => glob_prefix(alloc, fields, values),
        "glob-front" => glob_literal_prefix(alloc, fields, values),
        "glob-regex" => glob_regex(alloc, fields, values),
        "glob-escape" => glob_escape(alloc, fields, values),
        "glob-special" => glob_special(fields, values),
        "glob-repeat" => glob_repeat(alloc, request, values),
        "glob-names" => glob_names(alloc, fields, values),
        _ => return false,
    };
    values.record(called);
    true
}
