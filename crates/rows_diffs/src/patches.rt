//! Requests on unified diffs and differences of words.
use jj_diff_presentation::unified::{
    ApplyError, apply, word_diff, write_unified_diff, write_word_diff, write_word_diff_hunks,
};
use rows::request::Request;
use rows::row_error::RowError;
use rows::values::Values;
use std::alloc::Global;

// `unified CONTEXT PATH LEFT RIGHT`: the diff.
fn unified(alloc: Global, request: &Request, values: &mut Values) -> Result<(), RowError> {
    let fields = request.group(0);
    let (left, right) = (fields.bytes(2), fields.bytes(3));
    let path = fields.bytes(1);
    let text = write_unified_diff(alloc, path, left, right, fields.index(0))?;
    values.bytes(&text);
    Ok(())
}

// `apply LEFT PATCH`: the right version, or the error after `error`.
fn apply_patch(alloc: Global, request: &Request, values: &mut Values) -> Result<(), RowError> {
    let fields = request.group(0);
    match apply(alloc, fields.bytes(0), fields.bytes(1)) {
        Ok(bytes) => values.bytes(&bytes),
        Err(ApplyError::Memory(_)) => return Err(RowError::Memory),
        Err(error) => {
            values.word("error");
            values.display(&error);
        }
    }
    Ok(())
}

// `word-diff LEFT RIGHT`: both versions with marks.
fn words(alloc: Global, request: &Request, values: &mut Values) -> Result<(), RowError> {
    let fields = request.group(0);
    let tokens = word_diff(alloc, fields.bytes(0), fields.bytes(1))?;
    values.bytes(&write_word_diff(alloc, &tokens)?);
    Ok(())
}

// `word-diff-hunks CONTEXT LEFT RIGHT`: the hunks of both versions with marks.
fn word_hunks(alloc: Global, request: &Request, values: &mut Values) -> Result<(), RowError> {
    let fields = request.group(0);
    let (left, right) = (fields.bytes(1), fields.bytes(2));
    values.bytes(&write_word_diff_hunks(alloc, left, right, fields.index(0))?);
    Ok(())
}

/// Runs the request of this name. Returns `false` if there is none.
pub fn call(alloc: Global, name: &str, request: &Request, values: &mut Values) -> bool {
    let called = match name {
        "unified" => unified(alloc, request, values),
        "apply" => apply_patch(alloc, request, values),
        "word-diff" => words(alloc, request, values),
        "word-diff-hunks" => word_hunks(alloc, request, values),
        _ => return false,
    };
    values.record(called);
    true
}
