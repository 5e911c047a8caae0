//! Requests of the conformance table on the program: command lines, inputs, outputs and statuses.
#![tactic(auto)]

use jj_files::file_util::Watched;
use jj_program::program::start;
use rows::request::{Fields, Request};
use rows::row_error::{RowError, agree};
use rows::values::Values;
use std::alloc::Global;

// Appends the fields of a line with TABs between them, and a line end.
fn push_line(input: &mut Vec<u8>, line: &Fields) -> Result<(), RowError> {
    for index in 0..line.len() {
        if index > 0 {
            input.push(b'\t')?;
        }
        input.extend_from_slice(line.bytes(index))?;
    }
    input.push(b'\n')?;
    Ok(())
}

fn join_lines(alloc: Global, lines: &[Fields]) -> Result<Vec<u8>, RowError> {
    let mut input = Vec::new(alloc);
    for line in lines.iter().skip(1) {
        push_line(&mut input, line)?;
    }
    Ok(input)
}

fn put_lines(output: &[u8], values: &mut Values) -> Result<(), RowError> {
    let Ok(output) = str::from_utf8(output) else {
        return Err(RowError::Disagreement("output is UTF-8"));
    };
    for line in output.lines() {
        values.word("|");
        for field in line.split('\t') {
            values.string(field);
        }
    }
    Ok(())
}

fn put_outcome(
    status: u8,
    output: &[u8],
    errors: &[u8],
    values: &mut Values,
) -> Result<(), RowError> {
    if errors == b"jj-core: out of memory\n".as_slice() {
        return Err(RowError::Memory);
    }
    values.index(usize::from(status));
    if status == 0 {
        agree(errors.is_empty(), "no error on success")?;
        return put_lines(output, values);
    }
    agree(output.is_empty(), "no output on failure")?;
    put_lines(errors, values)
}

fn run(alloc: Global, words: &Fields, input: &[u8], values: &mut Values) -> Result<(), RowError> {
    let words = words.strings(0)?;
    let mut reader = Watched::new(input);
    let mut writer = Watched::new(Vec::new(alloc));
    let mut errors = Watched::new(Vec::new(alloc));
    let status = start(
        alloc,
        words.as_slice(),
        &mut reader,
        &mut writer,
        &mut errors,
    );
    let (output, errors) = (writer.into_inner(), errors.into_inner());
    put_outcome(status, output.as_slice(), errors.as_slice(), values)
}

// Words, and a group of fields for each line of the input.
fn run_lines(alloc: Global, request: &Request, values: &mut Values) -> Result<(), RowError> {
    let input = join_lines(alloc, request.groups())?;
    run(alloc, request.group(0), input.as_slice(), values)
}

// Words, and the input as one field.
fn run_bytes(alloc: Global, request: &Request, values: &mut Values) -> Result<(), RowError> {
    run(alloc, request.group(0), request.group(1).bytes(0), values)
}

/// Runs the request of this name. Returns `false` if this crate has no such request.
pub fn call(alloc: Global, name: &str, request: &Request, values: &mut Values) -> bool {
    let called = match name {
        "run" => run_lines(alloc, request, values),
        "run-bytes" => run_bytes(alloc, request, values),
        _ => return false,
    };
    values.record(called);
    true
}
