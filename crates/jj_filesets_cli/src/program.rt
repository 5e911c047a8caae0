//! The selection of lines as a filter, and the command line.
ghost use Rattle.std.specs.Prelude.{◌≡◌, ◌⊎◌, ℕ, List, Result, IfOk, IfErr, codes, false, map, string_bytes};
ghost use Rattle.jj_files.specs.Streams.{streams};
ghost use Rattle.jj_filesets.specs.Expressions.{Spells};
ghost use Rattle.jj_filesets.specs.Listing.{IsListError};
ghost use Rattle.jj_filesets.specs.SyntaxTrees.{SyntaxTree};
ghost use Rattle.jj_filesets.specs.declared.listing.ListOptions.{ListOptions as ListOptionsValue};
ghost use Rattle.jj_filter.specs.Reports.{Reports, report_line};
ghost use Rattle.jj_filter.specs.Runs.{ClosesBy, EndsBy, IsInputFailure, is_read_failure, is_write_failure};
ghost use Rattle.jj_filter.specs.declared.failure.Failure.{Failure};
ghost use Rattle.jj_filesets_cli.specs.CommandLines.{command_line};
ghost use Rattle.jj_filesets_cli.specs.Runs.{IsExpressionFault, IsFaultOfList, IsRefusedBy, Selects, command_error_status, command_error_text, place_at, report_text, status_of};
ghost use Rattle.jj_filesets_cli.specs.declared.fault.CommandError.{CommandError as CommandErrorValue};
ghost use Rattle.jj_filesets_cli.specs.declared.fault.ListFault.{ListFault};
ghost use Rattle.jj_filesets_cli.specs.declared.outcome.Outcome.{Outcome as OutcomeValue};

use crate::arguments::{CommandLine, Task, UsageError, parse_words};
use crate::fault::{CommandError, ExpressionFault, ListFault};
use crate::outcome::Outcome;
use jj_excerpts::excerpt;
use jj_files::file_util::{Sink, Source};
use jj_filesets::fileset::{FilesetExpression, FilesetParseError};
use jj_filesets::listing::{ListError, ListOptions, select_lines};
use jj_filter::arguments::VERSION;
use jj_filter::failure::Failure;
use jj_filter::filter;
use jj_filter::filter::Filter;
use jj_filter::report::{write_parts, write_report};
use std::alloc::{AllocError, Global};

// The name in messages.
pub(crate) const NAME: &str = "jj-filesets";

const SYNOPSIS: &str =
    "usage: jj-filesets [-z] [--skip-invalid] [--fail-if-none] EXPRESSION < LIST\n";

const HELP: &str = "
Prints the lines of a list of paths that are in a file set, as src/** & ~tests.

  -z, --null         lines end in NUL, as those of git ls-files -z
  --skip-invalid     skip lines that are no paths, and count them on stderr
  --fail-if-none     status 1 if no line is in the set
  -h, --help         this help
  -V, --version      the version

  src                src and the paths below it
  file:src           src itself
  'src/*.rs'         the paths that the glob matches, and those below them
  'glob:src/*.rs'    the paths that the glob matches
  'all()' 'none()'   every path, no path
  '~x' 'x & y'       complement, intersection
  'x ~ y' 'x | y'    difference, union

Status: 0, 1 after a fault of the list, 2 after a wrong option or expression.

";

// The lines of a list that are in a set.
#[derive(Drop)]
pub(crate) struct Selection {
    set: FilesetExpression,
    options: ListOptions,
    fails_if_none: bool,
}

impl Filter for Selection {
    ghost use Rattle.jj_filesets_cli.specs.Runs.{IsFaultOfList, Selects};

    type Outcome = Outcome;

    type Fault = ListFault;

    ghost yields = { λ selection. Selects selection.set selection.options selection.fails_if_none };

    ghost fails = { λ selection. IsFaultOfList selection.options };

    fn output(
        &self,
        alloc: Global,
        input: &[u8],
    ) -> Result<(Vec<u8>, Outcome), Failure<ListFault>> {
        match select_lines(alloc, &self.set, self.options, input) {
            Ok(selected) => {
                let fails = self.fails_if_none && selected.output.is_empty();
                let outcome = Outcome {
                    invalid: selected.invalid,
                    status: u8::from(fails),
                };
                Ok((selected.output, outcome))
            }
            Err(error) => Err(list_failure(alloc, error)),
        }
    }
}

fn list_failure(alloc: Global, error: ListError) -> Failure<ListFault>
    ensures { (options : ListOptionsValue) (input : List ℕ) → IsListError options input error
        → IsInputFailure (IsFaultOfList options input) result }
{
    let Ok(message) = error.to_string(alloc) else {
        return Failure::Memory;
    };
    match error {
        ListError::Memory => Failure::Memory,
        ListError::Line {
            number,
            excerpt,
            fault,
        } => Failure::Input(ListFault {
            number,
            excerpt,
            kind: fault,
            message,
        }),
    }
}

// Parses the expression of a selection.
fn selection_of(
    alloc: Global,
    line: CommandLine,
    expression: &str,
) -> Result<Selection, CommandError>
    ensures spelled { IfOk result (λ selection. Spells expression.now selection.set) }
    ensures options { IfOk result (λ selection. (selection.options ≡ line.options)
        × (selection.fails_if_none ≡ line.fails_if_none)) }
    ensures error { IfErr result (IsRefusedBy expression.now) }
{
    match FilesetExpression::parse(alloc, expression) {
        Ok(set) => Ok(Selection {
            set,
            options: line.options,
            fails_if_none: line.fails_if_none,
        }),
        Err(FilesetParseError::Memory) => Err(CommandError::Memory),
        Err(FilesetParseError::Syntax { at, kind }) => {
            let place = place_at(alloc, expression.as_bytes(), at)?;
            Err(usage_error(alloc, ExpressionFault { at, place, kind }))
        }
    }
}

fn usage_error(alloc: Global, fault: ExpressionFault) -> CommandError
    ensures { (expression : List ℕ) → IsExpressionFault expression fault
        → IsRefusedBy expression result }
{
    match fault.to_string(alloc) {
        Ok(message) => CommandError::Usage { fault, message },
        Err(_) => CommandError::Memory,
    }
}

// Quotes the expression from the offset on.
fn place_at(alloc: Global, expression: &[u8], at: usize) -> Result<String, AllocError>
    ensures { IfOk result (λ place. string_bytes place ≡ place_at expression.now at) }
{
    if at < expression.len() {
        excerpt(alloc, &expression[at..])
    } else {
        String::from_str(alloc, "the end")
    }
}

// Selects the lines of the source that are in the set of an expression. Nothing is read or written
// if there is no such set, or if memory runs out before. Else the filter is run; status and line
// are those of how the run ended.
pub(crate) fn select<R: Source, W: Sink, E: Sink>(
    alloc: Global,
    line: CommandLine,
    expression: &str,
    reader: &mut R,
    writer: &mut W,
    errors: &mut E,
) -> u8
    ensures { ((error : CommandErrorValue) × IsRefusedBy expression.now error
        × (R.remaining reader.new ≡ R.remaining reader.old)
        × (W.contents writer.new ≡ W.contents writer.old)
        × (result ≡ command_error_status error)
        × Reports (E.contents errors.old) (E.contents errors.new) (E.has_failed errors.new)
        (report_line (codes "jj-filesets") (command_error_text error)))
        ⊎ ((set : SyntaxTree) × Spells expression.now set
        × (ended : Result OutcomeValue (Failure ListFault))
        × EndsBy (Selects set line.options line.fails_if_none) (IsFaultOfList line.options)
        (streams (R.remaining reader.old) (W.contents writer.old))
        (streams (R.remaining reader.new) (W.contents writer.new)) ended
        × (R.has_failed reader.old ≡ false → R.has_failed reader.new ≡ is_read_failure ended)
        × (W.has_failed writer.old ≡ false → W.has_failed writer.new ≡ is_write_failure ended)
        × ClosesBy W.may_fail ended
        × (result ≡ status_of ended)
        × Reports (E.contents errors.old) (E.contents errors.new) (E.has_failed errors.new)
        (report_text ended)) }
{
    match selection_of(alloc, line, expression) {
        Ok(selection) => filter::start(alloc, NAME, &selection, reader, writer, errors),
        Err(error) => write_report(errors, NAME, &error),
    }
}

// Whether a command line selects lines of standard input.
pub(crate) fn reads_input(words: &[String]) -> bool {
    matches!(parse_words(words), Ok(line) if line.task == Task::Select)
}

// Runs the program with these arguments (without the program's name), and returns its exit status:
// 0, 1 after a failure, or if no line is in the set and the option for this is set, 2 after a wrong
// option or expression. A failing `errors` does not change the status.
pub(crate) fn start<R: Source, W: Sink, E: Sink>(
    alloc: Global,
    words: &[String],
    reader: &mut R,
    writer: &mut W,
    errors: &mut E,
) -> u8
    // After a wrong command line nothing is read or written.
    ensures usage { IfErr (command_line (map (λ word. string_bytes word) words.now)) (λ error.
        (result ≡ 2) × (R.remaining reader.new ≡ R.remaining reader.old)
        × (W.contents writer.new ≡ W.contents writer.old)) }
{
    match parse_words(words) {
        Ok(line) => match (line.task, line.expression) {
            (Task::Select, Some(index)) => {
                select(alloc, line, word_at(words, index), reader, writer, errors)
            }
            (Task::Version, _) => {
                write_parts(writer, &["jj-filesets in Rattle ", VERSION, "\n"]);
                0
            }
            _ => {
                write_parts(writer, &[SYNOPSIS, HELP]);
                0
            }
        },
        Err(error) => {
            report_usage(alloc, error, words, errors);
            2
        }
    }
}

// The word at an index, or the empty string.
fn word_at(words: &[String], index: usize) -> &str {
    words.get(index).map_or("", |word| word.as_str())
}

// Quotes the word at an index.
fn quoted_at(alloc: Global, words: &[String], index: usize) -> Result<String, AllocError> {
    excerpt(alloc, word_at(words, index).as_bytes())
}

fn report_usage<E: Sink>(alloc: Global, error: UsageError, words: &[String], errors: &mut E) {
    match error {
        UsageError::NoExpression => {
            write_parts(errors, &["jj-filesets: no expression\n", SYNOPSIS]);
        }
        UsageError::UnknownOption(index) => {
            if let Ok(word) = quoted_at(alloc, words, index) {
                let line = [
                    "jj-filesets: unknown option ",
                    word.as_str(),
                    "\n",
                    SYNOPSIS,
                ];
                write_parts(errors, &line);
            }
        }
        UsageError::SecondExpression(index) => {
            if let Ok(word) = quoted_at(alloc, words, index) {
                let problem = "jj-filesets: more than one expression: ";
                write_parts(errors, &[problem, word.as_str(), "\n", SYNOPSIS]);
            }
        }
    }
}
