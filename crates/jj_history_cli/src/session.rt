//! A run of a command over a store.
use crate::asking::{answer_lines, write};
use crate::database::{close, with_last_commit};
use crate::fault::Fault;
use crate::importing::import_stream;
use crate::lines::LineReader;
use crate::merging::merge_in_store;
use jj_backend::backend::Backend;
use jj_files::file_util::{Sink, Source};
use jj_history_commands::arguments::Command;
use jj_history_commands::commands::output_of;
use jj_ids::object_id::CommitId;
use jj_import::names::{Names, NamesError};
use jj_mirror::mirrored::Mirrored;
use jj_sqlite::error::OpenError;
use jj_sqlite::sqlite_log::SqliteLog;
use jj_sqlite::store::close_database;
use sqlite::FileStore;
use sqlite_disk::Disk;
use std::alloc::Global;

// Returns the names of the last commit, if it is their record.
fn read_names<B: Backend>(
    alloc: Global,
    store: &B,
    last: Option<CommitId>,
) -> Result<Names, NamesError> {
    let Some(id) = last else {
        return Ok(Names::new(alloc));
    };
    match Names::read(alloc, store, &id) {
        Ok(Some(names)) => Ok(names),
        Ok(None) => Ok(Names::new(alloc)),
        Err(error) => Err(error),
    }
}

// The standard streams. On a terminal, `errors` reports the progress of an import.
#[derive(Drop)]
pub(crate) struct Streams<R, W, E> {
    pub(crate) source: R,
    pub(crate) output: W,
    pub(crate) errors: E,
    pub(crate) on_terminal: bool,
}

// Runs a command that reads over a store and the names of its commits, and writes its output once
// the store is closed.
fn print_output<D: Disk + Drop, W: Sink>(
    alloc: Global,
    store: Mirrored<SqliteLog<FileStore<D>>>,
    names: &Names,
    command: &Command,
    output: &mut W,
) -> Result<(), Fault> {
    let printed = output_of(alloc, &store, names.refs(), names.git_ids(), command);
    close(store)?;
    match printed {
        Ok(bytes) => write(output, &bytes),
        Err(error) => Err(Fault::Command(error)),
    }
}

// Closes the store, then runs the questions of the source on the objects in memory.
fn answer_questions<D: Disk + Drop, R: Source + Drop, W: Sink>(
    alloc: Global,
    store: Mirrored<SqliteLog<FileStore<D>>>,
    names: &Names,
    source: R,
    output: &mut W,
) -> Result<(), Fault> {
    let (backend, log) = store.into_parts();
    match close_database(log.into_connection()) {
        Ok(_files) => (),
        Err(error) => return Err(Fault::from(error)),
    }
    let mut lines = LineReader::new(alloc, source);
    answer_lines(alloc, &backend, names, &mut lines, output)
}

// Runs a command over a store and the names of its commits, and closes the store.
fn run_with_names<D: Disk + Drop, R: Source + Drop, W: Sink + Drop, E: Sink + Drop>(
    alloc: Global,
    store: Mirrored<SqliteLog<FileStore<D>>>,
    names: Names,
    command: &Command,
    streams: Streams<R, W, E>,
) -> Result<(), Fault> {
    let Streams {
        source,
        mut output,
        mut errors,
        on_terminal,
    } = streams;
    match command {
        Command::Import => import_stream(alloc, store, names, source, &mut errors, on_terminal),
        Command::Merge {
            first,
            second,
            style,
        } => {
            let (first, second) = (first.as_str(), second.as_str());
            let description = merge_in_store(alloc, store, names, first, second, *style)?;
            write(&mut output, &description)
        }
        Command::Batch => answer_questions(alloc, store, &names, source, &mut output),
        command => print_output(alloc, store, &names, command, &mut output),
    }
}

// Runs a command over an opened store, closes it and writes the output. Generic over the files, so
// that a drop of them is proved once.
pub(crate) fn run_on_store<D: Disk + Drop, R: Source + Drop, W: Sink + Drop, E: Sink + Drop>(
    alloc: Global,
    opened: Result<Mirrored<SqliteLog<FileStore<D>>>, OpenError>,
    command: &Command,
    streams: Streams<R, W, E>,
) -> Result<(), Fault> {
    let (store, last) = match opened {
        Ok(store) => with_last_commit(store)?,
        Err(error) => return Err(Fault::from(error)),
    };
    match read_names(alloc, &store, last) {
        Ok(names) => run_with_names(alloc, store, names, command, streams),
        Err(error) => Err(Fault::Names(error)),
    }
}
