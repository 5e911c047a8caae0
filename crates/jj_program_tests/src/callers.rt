//! Proved callers: running a command on an input in memory.
ghost use Rattle.std.specs.Prelude.{◌≡◌, ◌≢◌, [], IfErr, IfOk, MatchOption, Ok, map, string_bytes, true};
ghost use Rattle.jj_filter.specs.declared.failure.Failure.{Failure};
ghost use Rattle.jj_program.specs.Program.{HasResult, command_line};
ghost use Rattle.jj_program_tests.specs.Outputs.{CanFailBy, FindsFiles, IsFaultOfWalk, IsRunOf};

use jj_files::file_util::Watched;
use jj_filter::failure::Failure;
use jj_filter::filter::run;
use jj_program::laws::{faults_are_of_first_kinds, walks_find_their_files};
use jj_program::program::{Command, FaultReport, start};
use std::alloc::Global;

/// Returns the output of a command for these bytes. An output in memory is never reported as
/// closed.
pub fn output_of(
    alloc: Global,
    command: Command,
    input: &[u8],
) -> Result<Vec<u8>, Failure<FaultReport>>
    ensures done { IfOk result (λ output. HasResult command input.now (Ok output.items)) }
    ensures fails { IfErr result (CanFailBy command input.now) }
    ensures never_closed { IfErr result (λ failure. failure ≢ Failure.WriteOutput true) }
{
    let mut reader = Watched::new(input);
    let mut writer = Watched::new(Vec::new(alloc));
    run(alloc, &command, &mut reader, &mut writer)?;
    Ok(writer.into_inner())
}

/// Returns the output of `walk`: the marked paths in the set that the input describes, each once
/// and in path order, then the directories entered. A fault is that of the first faulty line.
pub fn found_files(alloc: Global, text: &str) -> Result<Vec<u8>, Failure<FaultReport>>
    ensures found { IfOk result (λ output. FindsFiles text.now output.items) }
    ensures fails { IfErr result (IsFaultOfWalk text.now) }
{
    walks_find_their_files();
    faults_are_of_first_kinds();
    output_of(alloc, Command::Walk, text.as_bytes())
}

/// Runs the program with these arguments on these bytes, and returns the exit status and the
/// output. The status is 2, without output, if the arguments are no command; 0 if the output is
/// that of the command; otherwise 1.
pub fn run_program(alloc: Global, words: &[String], input: &[u8]) -> (u8, Vec<u8>)
    ensures { MatchOption (command_line (map string_bytes words.now))
        ((result.0 ≡ 2) × (result.1.items ≡ []))
        (λ command. IsRunOf command input.now result.0 result.1.items) }
{
    let mut reader = Watched::new(input);
    let mut writer = Watched::new(Vec::new(alloc));
    let mut errors = Watched::new(Vec::new(alloc));
    let status = start(alloc, words, &mut reader, &mut writer, &mut errors);
    (status, writer.into_inner())
}
