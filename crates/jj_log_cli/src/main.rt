//! The program `jj-log`: draws the commits of standard input as a graph.
#![tactic(auto)]

use jj_files::file_util::{StdIo, Watched};
use jj_filter::arguments::arguments;
use jj_filter::report::write_report;
use jj_log::program;
use jj_progress::read_progress::ReadProgress;
use std::io::IsTerminal;
use std::process::ExitCode;

fn main(rt: HostRuntime) -> ExitCode {
    let mut errors = Watched::new(StdIo(rt.stderr()));
    let words = match arguments(&rt) {
        Ok(words) => words,
        Err(error) => return ExitCode::from(write_report(&mut errors, program::NAME, &error)),
    };
    let stdin = rt.stdin();
    let is_typed = stdin.is_terminal();
    if program::reads(&words) && is_typed {
        let _ = eprintln!(rt; "jj-log: reads commits, a line each, up to Ctrl-D");
    }
    let mut reader = ReadProgress::new(
        Watched::new(StdIo(stdin)),
        &rt,
        Watched::new(StdIo(rt.stderr())),
        program::NAME,
        !is_typed && rt.stderr().is_terminal(),
    );
    let mut writer = Watched::new(StdIo(rt.stdout()));
    let status = program::start(rt.alloc(), &words, &mut reader, &mut writer, &mut errors);
    ExitCode::from(status)
}
