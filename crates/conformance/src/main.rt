//! Conformance checker: runs a table of requests and prints the rows whose results differ.
//!
//! The table is on standard input. A row is a request, a TAB, `=>`, a TAB and the expected
//! result; a line that begins with `#` is a comment. Each row whose result differs is printed
//! with its line number, and last a summary. A row during which an allocation fails runs again.
#![tactic(auto)]

use rows::request::Request;
use rows::row_error::RowError;
use rows::values::Values;
use std::alloc::{AllocError, Global};
use std::io;
use std::io::Write;

// The rows that differ, and counts.
#[derive(Drop)]
struct Report {
    text: String,
    rows: usize,
    differing: usize,
}

fn call(alloc: Global, name: &str, request: &Request, values: &mut Values) -> bool {
    rows_text::call(alloc, name, request, values)
        || rows_paths::call(alloc, name, request, values)
        || rows_matchers::call(alloc, name, request, values)
        || rows_merges::call(alloc, name, request, values)
        || rows_records::call(alloc, name, request, values)
        || rows_trees::call(alloc, name, request, values)
        || rows_views::call(alloc, name, request, values)
        || rows_walks::call(alloc, name, request, values)
        || rows_diffs::call(alloc, name, request, values)
        || rows_program::call(alloc, name, request, values)
}

fn values_of(alloc: Global, request: &str) -> Result<String, RowError> {
    let mut values = Values::new(alloc);
    let (name, arguments) = Request::parse(alloc, request)?;
    if !call(alloc, name, &arguments, &mut values) {
        return Err(RowError::Unreadable("no such request"));
    }
    if arguments.is_misread() {
        return Err(RowError::Unreadable("a field is missing or not of the expected form"));
    }
    values.into_string()
}

// Errors are results too, except for a failed allocation.
fn result_of(alloc: Global, request: &str) -> Result<String, AllocError> {
    match values_of(alloc, request) {
        Ok(result) => Ok(result),
        Err(RowError::Memory) => Err(AllocError),
        Err(RowError::Unreadable(why)) => format!(in alloc; "unreadable: {why}"),
        Err(RowError::Precondition(why)) => format!(in alloc; "precondition: {why}"),
        Err(RowError::Disagreement(why)) => format!(in alloc; "disagreement: {why}"),
    }
}

fn is_comment(row: &str) -> bool {
    row.is_empty() || row.starts_with('#')
}

impl Report {
    fn check(&mut self, alloc: Global, line: usize, row: &str) -> Result<(), AllocError> {
        if is_comment(row) {
            return Ok(());
        }
        let (request, expected) = row.split_once("\t=>\t").unwrap_or((row, ""));
        let result = match result_of(alloc, request) {
            Ok(result) => result,
            Err(AllocError) => result_of(alloc, request)?,
        };
        self.rows = self.rows.saturating_add(1);
        if result.as_str() == expected {
            return Ok(());
        }
        self.differing = self.differing.saturating_add(1);
        let text = format!(in alloc;
            "{line}: {request}\n  expected {expected}\n  result   {result}\n"
        )?;
        self.text.push_str(text.as_str())
    }
}

fn check_table(alloc: Global, table: &str) -> Result<String, AllocError> {
    let mut report = Report {
        text: String::new(alloc),
        rows: 0,
        differing: 0,
    };
    let mut line = 0usize;
    for row in table.split('\n') {
        line = line.saturating_add(1);
        report.check(alloc, line, row)?;
    }
    let (rows, differing) = (report.rows, report.differing);
    let text = format!(in alloc; "{rows} rows, {differing} differ\n")?;
    report.text.push_str(text.as_str())?;
    Ok(report.text)
}

fn main(rt: HostRuntime) -> io::Result<()> {
    let alloc = rt.alloc();
    let table = io::read_to_string(alloc, rt.stdin())?;
    match check_table(alloc, table.as_str()) {
        Ok(report) => rt.stdout().write_all(report.as_bytes()),
        Err(AllocError) => Err(io::Error::other("out of memory")),
    }
}
