//! The program `jj-history`: the history of a Git repository in an SQLite database.
#![tactic(auto)]

mod asking;
mod batches;
mod database;
mod fault;
mod importing;
mod lines;
mod merging;
mod session;

use crate::fault::Fault;
use crate::session::{Streams, run_on_store};
use jj_files::file_util::{StdIo, Watched};
use jj_filter::arguments::{VERSION, arguments};
use jj_filter::report::write_report;
use jj_history_commands::arguments::{Command, Request, parse_words};
use jj_history_commands::usage::{HELP, NAME, SYNOPSIS};
use jj_sqlite::files::open_store_file;
use std::fs;
use std::io::{ErrorKind, IsTerminal};
use std::process::ExitCode;

const USAGE: u8 = 2;

// Milliseconds to wait for another process that writes.
const PATIENCE: u64 = 5000;

// Returns the reason why a database cannot be at this path. Only `import` creates one.
fn path_fault(rt: &HostRuntime, file: &str, imports: bool) -> Option<&'static str> {
    match fs::metadata(rt, file) {
        Ok(metadata) if metadata.is_dir() => Some("a directory; expected a database"),
        Err(error) if error.kind() == ErrorKind::NotFound && !imports => {
            Some("no such file; `import` creates a database")
        }
        _ => None,
    }
}

// Returns the input that a command reads.
fn input_of(command: &Command) -> Option<&'static str> {
    match command {
        Command::Import => Some("a stream of git fast-export"),
        Command::Batch => Some("questions, a line each"),
        _ => None,
    }
}

fn run(rt: &HostRuntime, file: &str, command: &Command) -> Result<(), Fault> {
    let stdin = rt.stdin();
    if let Some(input) = input_of(command)
        && stdin.is_terminal()
    {
        let _ = eprintln!(rt; "{NAME}: reads {input}, up to Ctrl-D");
    }
    let stderr = rt.stderr();
    let on_terminal = matches!(command, Command::Import) && stderr.is_terminal();
    let streams = Streams {
        source: Watched::new(StdIo(stdin)),
        output: Watched::new(StdIo(rt.stdout())),
        errors: Watched::new(StdIo(stderr)),
        on_terminal,
    };
    run_on_store(
        rt.alloc(),
        open_store_file(rt, file, PATIENCE),
        command,
        streams,
    )
}

fn report(rt: &HostRuntime, file: &str, fault: &Fault) {
    let _ = match fault {
        Fault::Closed => Ok(()),
        Fault::Database(error) => eprintln!(rt; "{NAME}: {file}: {error}"),
        fault => eprintln!(rt; "{NAME}: {fault}"),
    };
}

fn run_on_file(rt: &HostRuntime, file: &str, command: &Command) -> ExitCode {
    if let Some(fault) = path_fault(rt, file, matches!(command, Command::Import)) {
        let _ = eprintln!(rt; "{NAME}: {file}: {fault}");
        return ExitCode::FAILURE;
    }
    match run(rt, file, command) {
        Ok(()) => ExitCode::SUCCESS,
        Err(fault) => {
            report(rt, file, &fault);
            ExitCode::FAILURE
        }
    }
}

fn perform(rt: &HostRuntime, request: Request) -> ExitCode {
    match request {
        Request::Help => {
            let _ = print!(rt; "{SYNOPSIS}{HELP}");
            ExitCode::SUCCESS
        }
        Request::Version => {
            let _ = println!(rt; "{NAME} in Rattle {VERSION}");
            ExitCode::SUCCESS
        }
        Request::Run { database, command } => run_on_file(rt, database.as_str(), &command),
    }
}

fn main(rt: HostRuntime) -> ExitCode {
    let words = match arguments(&rt) {
        Ok(words) => words,
        Err(error) => {
            let mut errors = Watched::new(StdIo(rt.stderr()));
            return ExitCode::from(write_report(&mut errors, NAME, &error));
        }
    };
    match parse_words(rt.alloc(), &words) {
        Ok(request) => perform(&rt, request),
        Err(error) => {
            let _ = eprint!(rt; "{NAME}: {error}\n{SYNOPSIS}");
            ExitCode::from(USAGE)
        }
    }
}
