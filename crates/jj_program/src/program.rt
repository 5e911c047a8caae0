//! Entry points of the program: the commands as filters, and the command line.
ghost use Rattle.std.specs.Prelude.{◌≡◌, map, false, Result, Ok, Err, IfOk, IfErr, IfSome, None, string_bytes};
ghost use Rattle.jj_files.specs.Streams.{streams};
ghost use Rattle.jj_filter.specs.Reports.{Reports, WritesLine};
ghost use Rattle.jj_filter.specs.Runs.{ClosesBy, EndsBy, IsInputFailure, is_read_failure, is_write_failure};
ghost use Rattle.jj_filter.specs.declared.failure.Failure.{Failure};
ghost use Rattle.jj_program.specs.Program.{command_named, command_line, HasResult, OutputsOf, FaultsOf, ReportsOf};
ghost use Rattle.jj_program.specs.Reports.{report_text, status_of, usage_text};
ghost use Rattle.jj_program.specs.declared.fault.FaultReport.{FaultReport as FaultReportValue};

pub use crate::fault::{Fault, FaultReport, LineFault};
use crate::graph_command::graph_output;
use crate::hash_command::hash_output;
use crate::merge_command::merge_output;
use crate::message::message_of;
use crate::walk_command::walk_output;
use jj_files::file_util::{Sink, Source};
use jj_filter::failure::Failure;
use jj_filter::filter;
use jj_filter::filter::Filter;
use jj_filter::report::write_parts;
use std::alloc::Global;

/// A command of the program.
#[derive(Clone, Copy, Debug, PartialEq, Eq)]
pub enum Command {
    Walk,
    Merge,
    Graph,
    Hash,
}

impl Command {
    ghost use Rattle.jj_program.specs.Program.{command_named};

    /// Parses the name of a command. Returns `None` for any other word.
    pub fn from_name(name: &str) -> Option<Command>
        ensures { result ≡ command_named name.now }
    {
        match name {
            "walk" => Some(Command::Walk),
            "merge" => Some(Command::Merge),
            "graph" => Some(Command::Graph),
            "hash" => Some(Command::Hash),
            _ => None,
        }
    }
}

// Validates the input as UTF-8 and runs the command on it.
fn output(alloc: Global, command: Command, input: &[u8]) -> Result<Vec<u8>, Failure<Fault>>
    ensures done { IfOk result (λ output. HasResult command input.now (Ok output.items)) }
    ensures fault { IfErr result (IsInputFailure (FaultsOf command input.now)) }
{
    let Ok(text) = str::from_utf8(input) else {
        return Err(Failure::Input(Fault::NotUtf8));
    };
    match command {
        Command::Walk => walk_output(alloc, text),
        Command::Merge => merge_output(alloc, text),
        Command::Graph => graph_output(alloc, text),
        Command::Hash => hash_output(alloc, text),
    }
}

// Returns a fault of the input with its message, or out of memory.
fn report_of(alloc: Global, command: Command, input: &[u8], fault: Fault) -> Failure<FaultReport>
    ensures { HasResult command input.now (Err fault)
        → IsInputFailure (ReportsOf command input.now) result }
{
    match message_of(alloc, command, input, fault) {
        Ok(message) => Failure::Input(FaultReport { fault, message }),
        Err(_) => Failure::Memory,
    }
}

// Runs the command on the input, and describes its fault.
fn reported_output(
    alloc: Global,
    command: Command,
    input: &[u8],
) -> Result<Vec<u8>, Failure<FaultReport>>
    ensures done { IfOk result (λ output. HasResult command input.now (Ok output.items)) }
    ensures fault { IfErr result (IsInputFailure (ReportsOf command input.now)) }
{
    match output(alloc, command, input) {
        Ok(output) => Ok(output),
        Err(Failure::Input(fault)) => Err(report_of(alloc, command, input, fault)),
        Err(_) => Err(Failure::Memory),
    }
}

impl Filter for Command {
    ghost use Rattle.std.specs.Prelude.{Ok};
    ghost use Rattle.jj_program.specs.Program.{HasResult, ReportsOf};

    type Outcome = ();

    type Fault = FaultReport;

    ghost yields = { λ command input output _. HasResult command input (Ok output) };

    ghost fails = { λ command input report. ReportsOf command input report };

    fn output(&self, alloc: Global, input: &[u8]) -> Result<(Vec<u8>, ()), Failure<FaultReport>> {
        Ok((reported_output(alloc, *self, input)?, ()))
    }
}

// Parses a command line: exactly one word, the name of a command.
fn command_of(words: &[String]) -> Option<Command>
    ensures { result ≡ command_line (map string_bytes words.now) }
{
    match words {
        [word] => Command::from_name(word.as_str()),
        _ => None,
    }
}

/// The name in messages.
pub const NAME: &str = "jj-core";

// The usage line.
const USAGE: &str = "usage: jj-core walk|merge|graph|hash\n";

/// Runs the program with these arguments (without the program's name) and returns its exit status.
///
/// Returns 0 when the output was written, 1 after a failure, with one line about it on `errors`,
/// and 2 when the arguments are no command, with the usage line on `errors`. Error reporting does
/// not allocate; a failing `errors` does not change the status.
pub fn start<R: Source, W: Sink, E: Sink>(
    alloc: Global,
    words: &[String],
    reader: &mut R,
    writer: &mut W,
    errors: &mut E,
) -> u8
    // If the arguments are no command, nothing is read or written but the usage line.
    ensures usage { command_line (map string_bytes words.now) ≡ None → (result ≡ 2)
        × (R.remaining reader.new ≡ R.remaining reader.old)
        × (W.contents writer.new ≡ W.contents writer.old)
        × WritesLine (E.contents errors.old) (E.contents errors.new) (E.has_failed errors.new)
        usage_text }
    // If they are one, the command was run; status and line are those of how the run ended.
    ensures run { IfSome (command_line (map string_bytes words.now)) (λ command.
        (ended : Result (Unit {0}) (Failure FaultReportValue))
        × EndsBy (OutputsOf command) (ReportsOf command)
        (streams (R.remaining reader.old) (W.contents writer.old))
        (streams (R.remaining reader.new) (W.contents writer.new)) ended
        × (R.has_failed reader.old ≡ false → R.has_failed reader.new ≡ is_read_failure ended)
        × (W.has_failed writer.old ≡ false → W.has_failed writer.new ≡ is_write_failure ended)
        × ClosesBy W.may_fail ended
        × (result ≡ status_of ended)
        × Reports (E.contents errors.old) (E.contents errors.new) (E.has_failed errors.new)
        (report_text ended)) }
{
    let Some(command) = command_of(words) else {
        write_parts(errors, &[USAGE]);
        return 2;
    };
    filter::start(alloc, NAME, &command, reader, writer, errors)
}
