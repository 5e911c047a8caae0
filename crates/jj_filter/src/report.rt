//! Lines on standard error, written without allocation.
ghost use Rattle.std.specs.Prelude.{◌≡◌, ◌++◌, ◌↔◌, ℕ, [], List, flat_map, true};
ghost use Rattle.jj_filter.specs.Reports.{Reports, WritesLine, report_line};

use itoa::Buffer;
use jj_files::file_util::{Sink, write_all};

/// A message on standard error and an exit status.
pub trait Report: Drop {
    /// The message, without the program's name and the end of the line. An empty one is not
    /// written.
    ghost text: { Self → List ℕ };

    ghost status: { Self → ℕ };

    /// Returns the message as four parts to be concatenated; a number is formatted into `digits`.
    fn parts<'a>(&'a self, digits: &'a mut Buffer) -> (&'a str, &'a str, &'a str, &'a str)
        ensures { result.0.now ++ result.1.now ++ result.2.now ++ result.3.now ≡ text self.now };

    /// Returns the exit status.
    fn status(&self) -> u8
        ensures { result ≡ status self.now };
}

/// No message, status 0.
impl Report for () {
    ghost text = { λ _. [] };

    ghost status = { λ _. 0 };

    fn parts<'a>(&'a self, _digits: &'a mut Buffer) -> (&'a str, &'a str, &'a str, &'a str) {
        ("", "", "", "")
    }

    fn status(&self) -> u8 {
        0
    }
}

/// Writes these parts of a line, and stops silently at the first write that fails.
pub fn write_parts<E: Sink>(errors: &mut E, parts: &[&str])
    ensures { WritesLine (E.contents errors.old) (E.contents errors.new) (E.has_failed errors.new)
        (flat_map (λ part. part.now) parts.now) }
{
    for index in 0..parts.len() {
        if write_all(errors, parts[index].as_bytes()).is_err() {
            return;
        }
    }
}

// Whether the parts are all empty.
fn are_empty(parts: &[&str]) -> bool
    ensures { (result ≡ true) ↔ (flat_map (λ part. part.now) parts.now ≡ []) }
{
    for index in 0..parts.len() {
        if !parts[index].is_empty() {
            return false;
        }
    }
    true
}

// Writes a line with the program's name and a message, unless that is empty.
fn write_message<'a, E: Sink>(
    errors: &mut E,
    program: &'a str,
    parts: (&'a str, &'a str, &'a str, &'a str),
)
    ensures { Reports (E.contents errors.old) (E.contents errors.new) (E.has_failed errors.new)
        (report_line program.now
        (parts.entry.0.now ++ parts.entry.1.now ++ parts.entry.2.now ++ parts.entry.3.now)) }
{
    let (first, second, third, fourth) = parts;
    if !are_empty(&[first, second, third, fourth]) {
        write_parts(errors, &[program, ": ", first, second, third, fourth, "\n"]);
    }
}

/// Writes a line with the program's name and the message, unless that is empty, and returns the
/// exit status. Does not allocate; a failing `errors` does not change the status.
pub fn write_report<T: Report, E: Sink>(errors: &mut E, program: &str, told: &T) -> u8
    ensures line { Reports (E.contents errors.old) (E.contents errors.new)
        (E.has_failed errors.new) (report_line program.now (T.text told.now)) }
    ensures status { result ≡ T.status told.now }
{
    let mut digits = Buffer::new();
    write_message(errors, program, told.parts(&mut digits));
    told.status()
}
