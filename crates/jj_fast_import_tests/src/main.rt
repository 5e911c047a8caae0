//! Prints the commands of the stream on standard input again.
#![tactic(auto)]

mod callers;

use jj_fast_import::command::Command;
use jj_fast_import::printing::push_command;
use jj_fast_import::reader::{CommandReader, StreamError};
use jj_files::file_util::{Source, StdIo, Watched};
use std::alloc::Global;
use std::io::{self, Write};
use std::process::ExitCode;

// Reads a command and appends it to `out`. Returns whether another may follow.
fn copy_command<R: Source>(
    alloc: Global,
    reader: &mut CommandReader<R>,
    out: &mut Vec<u8>,
) -> Result<bool, StreamError> {
    match reader.next_command(alloc)? {
        Some(command) => {
            push_command(out, &command)?;
            Ok(!matches!(command, Command::Done))
        }
        None => Ok(false),
    }
}

fn copy_stream(rt: &HostRuntime) -> Result<(), StreamError> {
    let mut reader = CommandReader::new(rt.alloc(), Watched::new(StdIo(rt.reader())));
    let mut writer = io::writer(rt);
    for _ in 0..u64::MAX {
        let mut out = Vec::new(rt.alloc());
        let may_follow = copy_command(rt.alloc(), &mut reader, &mut out)?;
        if writer.write_all(&out).is_err() || !may_follow {
            break;
        }
    }
    Ok(())
}

fn main(rt: HostRuntime) -> ExitCode {
    match copy_stream(&rt) {
        Ok(()) => ExitCode::SUCCESS,
        Err(error) => {
            let _ = eprintln!(rt; "{error}");
            ExitCode::FAILURE
        }
    }
}
