//! The program `jj-core`: runs one command, on standard input and output.
#![tactic(auto)]

use jj_excerpts::excerpt;
use jj_files::file_util::{StdIo, Watched};
use jj_filter::arguments::{VERSION, arguments};
use jj_filter::report::write_report;
use jj_program::program;
use jj_program::program::Command;
use jj_progress::read_progress::ReadProgress;
use std::io::IsTerminal;
use std::process::ExitCode;

const HELP: &str = "usage: jj-core walk|merge|graph|hash

Reads lines of TAB-separated fields from standard input.

  walk             marked paths and set operations; prints the marked paths in the set, and the
                   directories to enter
  merge            the terms of a conflict; prints how it simplifies or resolves
  graph            nodes with their parents, and requests; prints orders, heads and merge bases
  hash             bytes and values; prints their BLAKE2b-512 digests
  -h, --help       this help
  -V, --version    the version

docs/guide/input.md describes each line. Fields are separated by TABs, not by blanks.

Status: 0, 1 after a fault, 2 if the argument is no command.
";

fn is_command(words: &[String]) -> bool {
    match words {
        [word] => Command::from_name(word.as_str()).is_some(),
        _ => false,
    }
}

fn status_of<T: Drop, E: Drop>(written: Result<T, E>) -> ExitCode {
    match written {
        Ok(_) => ExitCode::SUCCESS,
        Err(_) => ExitCode::FAILURE,
    }
}

// Prints the help or the version if an argument requests it.
fn printed(rt: &HostRuntime, words: &[String]) -> Option<ExitCode> {
    for word in words {
        match word.as_str() {
            "-h" | "--help" => return Some(status_of(print!(rt; "{HELP}"))),
            "-V" | "--version" => {
                return Some(status_of(println!(rt; "jj-core in Rattle {VERSION}")));
            }
            _ => {}
        }
    }
    None
}

// Names the word that is wrong, before the usage line.
fn report_wrong_word(rt: &HostRuntime, words: &[String]) {
    let wrong = match words {
        [first, second, ..] if Command::from_name(first.as_str()).is_some() => second,
        [first, ..] => first,
        [] => return,
    };
    if let Ok(quoted) = excerpt(rt.alloc(), wrong.as_bytes()) {
        let _ = eprintln!(rt; "jj-core: unknown argument {quoted}");
    }
}

fn main(rt: HostRuntime) -> ExitCode {
    let mut errors = Watched::new(StdIo(rt.stderr()));
    let words = match arguments(&rt) {
        Ok(words) => words,
        Err(error) => return ExitCode::from(write_report(&mut errors, program::NAME, &error)),
    };
    if let Some(status) = printed(&rt, &words) {
        return status;
    }
    let stdin = rt.stdin();
    let is_typed = stdin.is_terminal();
    if !is_command(&words) {
        report_wrong_word(&rt, &words);
    } else if is_typed {
        let _ = eprintln!(rt; "jj-core: reads lines of TAB-separated fields, up to Ctrl-D");
    }
    let mut reader = ReadProgress::new(
        Watched::new(StdIo(stdin)),
        &rt,
        Watched::new(StdIo(rt.stderr())),
        program::NAME,
        !is_typed && rt.stderr().is_terminal(),
    );
    let mut writer = Watched::new(StdIo(rt.stdout()));
    let status = program::start(rt.alloc(), &words, &mut reader, &mut writer, &mut errors);
    ExitCode::from(status)
}
