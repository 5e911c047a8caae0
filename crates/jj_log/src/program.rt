//! Entry points of the program: the log as a filter, and the command line.
ghost use Rattle.std.specs.Prelude.{◌≡◌, ◌⊎◌, ℕ, List, Result, IfOk, IfErr, MatchBool, false, get_or};
ghost use Rattle.jj_files.specs.Streams.{streams};
ghost use Rattle.jj_filter.specs.Reports.{Reports};
ghost use Rattle.jj_filter.specs.Runs.{ClosesBy, EndsBy, IsInputFailure, is_read_failure, is_write_failure};
ghost use Rattle.jj_filter.specs.declared.failure.Failure.{Failure};
ghost use Rattle.jj_log.specs.InputLines.{AreCommitsOf};
ghost use Rattle.jj_log.specs.Labels.{name_of};
ghost use Rattle.jj_log.specs.LogDrawings.{IsLogError};
ghost use Rattle.jj_log.specs.Reports.{IsFaultAt, report_text, status_of};
ghost use Rattle.jj_log.specs.CommandLines.{Asks};
ghost use Rattle.jj_log.specs.Runs.{DrawingsOf, IsInputFault, IsLayoutOf, IsLayoutOfLines, IsLinesFault};
ghost use Rattle.jj_log.specs.declared.arguments.LogOptions.{LogOptions as LogOptionsValue};
ghost use Rattle.jj_log.specs.declared.fault.Fault.{Fault};

use crate::arguments::{LogOptions, Task, UsageError, options_of, parse_words, word_at};
use crate::commits::Commit;
use crate::fault::{Fault, LineFault, LogError, fault_at};
use crate::fields::lines_of_fields;
use crate::input::parse_commits;
use crate::log::{LogLayout, rows_of_log};
use crate::writing::write_rows;
use jj_excerpts::excerpt;
use jj_files::file_util::{Sink, Source};
use jj_filter::arguments::VERSION;
use jj_filter::failure::Failure;
use jj_filter::filter::read_input;
use jj_filter::report::{write_parts, write_report};
use std::alloc::Global;
use std::io::ErrorKind;

fn line_at(lines: &[usize], index: usize) -> usize
    ensures { result ≡ get_or lines.now index 0 }
{
    lines.get(index).copied().unwrap_or(0)
}

fn name_at(commits: &[Commit], index: usize) -> &str
    ensures { result.now ≡ name_of commits.now index }
{
    match commits.get(index) {
        Some(commit) => commit.name.as_str(),
        None => "",
    }
}

// Returns the fault of the commit at this index, which quotes its name.
fn commit_fault(
    alloc: Global,
    commits: &[Commit],
    lines: &[usize],
    index: usize,
    kind: LineFault,
) -> Failure<Fault>
    ensures { IsInputFailure
        (IsFaultAt (get_or lines.now index 0) kind (name_of commits.now index)) result }
{
    fault_at(alloc, line_at(lines, index), kind, name_at(commits, index))
}

fn failure_of(alloc: Global, error: LogError, commits: &[Commit], lines: &[usize]) -> Failure<Fault>
    ensures { (most : ℕ) (input : List ℕ) → AreCommitsOf input commits.now lines.now
        → IsLogError most commits.now error → IsInputFailure (IsLinesFault most input) result }
{
    match error {
        LogError::Memory => Failure::Memory,
        LogError::RepeatedName(index) => {
            commit_fault(alloc, commits, lines, index, LineFault::RepeatedName)
        }
        LogError::Cycle(index) => commit_fault(alloc, commits, lines, index, LineFault::Cycle),
        LogError::TooWide(index) => commit_fault(alloc, commits, lines, index, LineFault::TooWide),
    }
}

// Returns the layout of the commits of the lines of the input.
fn layout_of_lines(
    alloc: Global,
    input: &[u8],
    max_columns: usize,
) -> Result<LogLayout, Failure<Fault>>
    ensures layout { IfOk result (IsLayoutOfLines max_columns input.now) }
    ensures error { IfErr result (IsInputFailure (IsLinesFault max_columns input.now)) }
{
    let Ok(input) = str::from_utf8(input) else {
        return Err(Failure::Input(Fault::NotUtf8));
    };
    let (commits, lines) = parse_commits(alloc, input)?;
    match rows_of_log(alloc, &commits, max_columns) {
        Ok(rows) => Ok(LogLayout { commits, rows }),
        Err(error) => Err(failure_of(alloc, error, &commits, &lines)),
    }
}

// Returns the layout of the commits of the input.
fn layout_of(alloc: Global, input: &[u8], options: LogOptions) -> Result<LogLayout, Failure<Fault>>
    ensures layout { IfOk result (IsLayoutOf options input.now) }
    ensures error { IfErr result (IsInputFailure (IsInputFault options input.now)) }
{
    if options.nul {
        let lines = lines_of_fields(alloc, input)?;
        layout_of_lines(alloc, &lines, options.max_columns)
    } else {
        layout_of_lines(alloc, input, options.max_columns)
    }
}

/// Reads the commits of the source, lays them all out, and then writes their drawing row by row.
/// Fails as `jj_filter::filter::run` does.
pub fn run<R: Source, W: Sink>(
    alloc: Global,
    options: LogOptions,
    reader: &mut R,
    writer: &mut W,
) -> Result<(), Failure<Fault>>
    // The drawing of the commits of the whole input was written; or nothing was written, and a read
    // failed, memory ran out or the input has the fault; or a write failed, after a prefix of the
    // drawing.
    ensures ends { EndsBy (DrawingsOf options) (IsInputFault options)
        (streams (R.remaining reader.old) (W.contents writer.old))
        (streams (R.remaining reader.new) (W.contents writer.new)) result }
    // The source has failed exactly if the failure is a failed read.
    ensures read_failure { R.has_failed reader.old ≡ false
        → R.has_failed reader.new ≡ is_read_failure result }
    // The sink has failed exactly if the failure is a failed write.
    ensures write_failure { W.has_failed writer.old ≡ false
        → W.has_failed writer.new ≡ is_write_failure result }
    // A failed write is one to a closed output exactly if the sink's error is a broken pipe.
    ensures closed { ClosesBy W.may_fail result }
{
    let input = read_input(alloc, reader)?;
    let layout = layout_of(alloc, &input, options)?;
    match write_rows(alloc, writer, options.style, &layout.rows, &layout.commits) {
        Ok(()) => Ok(()),
        Err(error) => Err(Failure::WriteOutput {
            is_closed: error.kind() == ErrorKind::BrokenPipe,
        }),
    }
}

/// The most columns without `--columns`.
pub const DEFAULT_COLUMNS: usize = usize::MAX;

/// The name in messages.
pub const NAME: &str = "jj-log";

const SYNOPSIS: &str = "usage: jj-log [-z] [--columns N] [--style STYLE] < COMMITS\n";

const HELP: &str = "
Draws commits as a graph. A line is a commit: its name, a TAB, its parents, separated by blanks, a
TAB, and its label. A commit without the second TAB is not drawn.

  git log --format='%h%x09%p%x09%h %s' | jj-log
  git log -z --format='%h%x00%p%x00%h %s' | jj-log -z

  -z, --null       each field ends in NUL, three a commit
  --columns N      fail if a row needs more than N columns
  --style STYLE    ascii (the default) or unicode
  -h, --help       this help
  -V, --version    the version

Status: 0, 1 after a fault, 2 after a wrong option.

";

// Runs with these options, reports how the run ended, and returns the exit status.
fn draw<R: Source, W: Sink, E: Sink>(
    alloc: Global,
    options: LogOptions,
    reader: &mut R,
    writer: &mut W,
    errors: &mut E,
) -> u8
    ensures { (ended : Result (Unit {0}) (Failure Fault))
        × EndsBy (DrawingsOf options) (IsInputFault options)
        (streams (R.remaining reader.old) (W.contents writer.old))
        (streams (R.remaining reader.new) (W.contents writer.new)) ended
        × (R.has_failed reader.old ≡ false → R.has_failed reader.new ≡ is_read_failure ended)
        × (W.has_failed writer.old ≡ false → W.has_failed writer.new ≡ is_write_failure ended)
        × ClosesBy W.may_fail ended
        × (result ≡ status_of ended)
        × Reports (E.contents errors.old) (E.contents errors.new) (E.has_failed errors.new)
        (report_text ended) }
{
    match run(alloc, options, reader, writer) {
        Ok(()) => write_report(errors, NAME, &()),
        Err(failure) => write_report(errors, NAME, &failure),
    }
}

/// Runs the program with these arguments (without the program's name), and returns its exit status.
///
/// It draws the commits of the input, and returns 0 when the drawing was written, 1 after a
/// failure, with a line about it on `errors` unless the output was closed, and 2 after a wrong
/// argument. A failing `errors` does not change the status.
pub fn start<R: Source, W: Sink, E: Sink>(
    alloc: Global,
    words: &[String],
    reader: &mut R,
    writer: &mut W,
    errors: &mut E,
) -> u8
    // If the arguments ask for a drawing, the filter ran with their options; status and line are
    // those of how the run ended.
    ensures run { (options : LogOptionsValue) → Asks words.now options
        → (ended : Result (Unit {0}) (Failure Fault))
        × EndsBy (DrawingsOf options) (IsInputFault options)
        (streams (R.remaining reader.old) (W.contents writer.old))
        (streams (R.remaining reader.new) (W.contents writer.new)) ended
        × (R.has_failed reader.old ≡ false → R.has_failed reader.new ≡ is_read_failure ended)
        × (W.has_failed writer.old ≡ false → W.has_failed writer.new ≡ is_write_failure ended)
        × ClosesBy W.may_fail ended
        × (result ≡ status_of ended)
        × Reports (E.contents errors.old) (E.contents errors.new) (E.has_failed errors.new)
        (report_text ended) }
    // With other arguments nothing is read.
    ensures other { ((options : LogOptionsValue) → ¬ (Asks words.now options))
        → (R.remaining reader.new ≡ R.remaining reader.old)
        × ((result ≡ 0) ⊎ (result ≡ 2)) }
{
    match options_of(words) {
        Some(options) => draw(alloc, options, reader, writer, errors),
        None => perform(alloc, words, writer, errors),
    }
}

/// Returns whether the program reads commits if it is called with these arguments.
pub fn reads(words: &[String]) -> bool
    ensures { MatchBool result ((options : LogOptionsValue) × Asks words.now options)
        ((options : LogOptionsValue) → ¬ (Asks words.now options)) }
{
    options_of(words).is_some()
}

// Prints the help or the version, or reports the wrong word.
fn perform<W: Sink, E: Sink>(alloc: Global, words: &[String], writer: &mut W, errors: &mut E) -> u8
    ensures { (result ≡ 0) ⊎ (result ≡ 2) }
{
    match parse_words(words) {
        Ok(line) => match line.task {
            Task::Help => {
                write_parts(writer, &[SYNOPSIS, HELP]);
                0
            }
            Task::Version => {
                write_parts(writer, &["jj-log in Rattle ", VERSION, "\n"]);
                0
            }
            Task::Draw => {
                report_no_number(errors);
                2
            }
        },
        Err(error) => {
            report_usage(alloc, error, words, errors);
            2
        }
    }
}

fn report_no_number<E: Sink>(errors: &mut E) {
    let problem = "jj-log: --columns needs a number, as in --columns 200\n";
    write_parts(errors, &[problem, SYNOPSIS]);
}

fn report_usage<E: Sink>(alloc: Global, error: UsageError, words: &[String], errors: &mut E) {
    match error {
        UsageError::NoColumns => report_no_number(errors),
        UsageError::NoStyle => {
            write_parts(
                errors,
                &["jj-log: --style needs ascii or unicode\n", SYNOPSIS],
            );
        }
        UsageError::UnknownArgument(index) => {
            report_word(alloc, "jj-log: unknown argument ", words, index, errors);
        }
        UsageError::UnknownStyle(index) => {
            let problem = "jj-log: --style needs ascii or unicode, not ";
            report_word(alloc, problem, words, index, errors);
        }
    }
}

fn report_word<E: Sink>(
    alloc: Global,
    problem: &str,
    words: &[String],
    index: usize,
    errors: &mut E,
) {
    if let Ok(word) = excerpt(alloc, word_at(words, index).as_bytes()) {
        write_parts(errors, &[problem, word.as_str(), "\n", SYNOPSIS]);
    }
}
