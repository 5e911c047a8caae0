//! Runs of `jj_program` on an input in memory.
ghost use Rattle.std.specs.Prelude.{IfErr, IfOk, Ok};
ghost use Rattle.jj_program.specs.Program.{HasResult};
ghost use Rattle.contracts_programs.specs.Outputs.{CanFailBy};

use jj_files::file_util::Watched;
use jj_filter::failure::Failure;
use jj_filter::filter::run;
use jj_program::program::{Command, FaultReport};
use std::alloc::Global;

pub(crate) fn output(
    alloc: Global,
    command: Command,
    input: &[u8],
) -> Result<Vec<u8>, Failure<FaultReport>>
    ensures done { IfOk result (λ output. HasResult command input.now (Ok output.items)) }
    ensures fails { IfErr result (CanFailBy command input.now) }
{
    let mut reader = Watched::new(input);
    let mut writer = Watched::new(Vec::new(alloc));
    run(alloc, &command, &mut reader, &mut writer)?;
    Ok(writer.into_inner())
}
