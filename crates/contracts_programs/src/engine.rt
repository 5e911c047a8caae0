//! Callers of `jj_program`.
ghost use Rattle.std.specs.Prelude.{IfErr, IfOk, Ok};
ghost use Rattle.jj_program.specs.Program.{HasResult};
ghost use Rattle.contracts_programs.specs.Outputs.{CanFailBy};

use crate::memory;
use jj_filter::failure::Failure;
use jj_program::program::{Command, FaultReport};
use std::alloc::Global;

/// A command as a filter, on an input in memory.
pub fn output_of(
    alloc: Global,
    command: Command,
    input: &[u8],
) -> Result<Vec<u8>, Failure<FaultReport>>
    ensures done { IfOk result (λ output. HasResult command input.now (Ok output.items)) }
    ensures fails { IfErr result (CanFailBy command input.now) }
{
    memory::output(alloc, command, input)
}
