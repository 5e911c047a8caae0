//! Answers to a batch of questions.
use crate::fault::Fault;
use crate::lines::LineReader;
use jj_backend::backend::Backend;
use jj_files::file_util::{Sink, Source, write_all};
use jj_history_commands::questions::{KnownCommits, answer, ask};
use jj_import::names::Names;
use std::alloc::Global;
use std::io::ErrorKind;

// Writes all bytes.
pub(crate) fn write<W: Sink>(output: &mut W, bytes: &[u8]) -> Result<(), Fault> {
    match write_all(output, bytes) {
        Ok(()) => Ok(()),
        Err(error) if error.kind() == ErrorKind::BrokenPipe => Err(Fault::Closed),
        Err(_) => Err(Fault::Write),
    }
}

// Answers each line of the source before it reads the next one.
pub(crate) fn answer_lines<B: Backend, R: Source, W: Sink>(
    alloc: Global,
    store: &B,
    names: &Names,
    lines: &mut LineReader<R>,
    output: &mut W,
) -> Result<(), Fault> {
    let refs = names.refs();
    let git_ids = names.git_ids();
    let mut known = KnownCommits::new(alloc, refs, git_ids)?;
    for _ in 0..u64::MAX {
        let Some(line) = lines.next_line(alloc)? else {
            break;
        };
        let asked = ask(alloc, store, refs, git_ids, &mut known, &line);
        write(output, &answer(alloc, asked)?)?;
    }
    Ok(())
}
