//! Import of a stream of Git, a transaction for each batch of commits.
use crate::batches::{Progress, import_batch, show_commits};
use crate::database::close;
use crate::fault::Fault;
use jj_fast_import::reader::CommandReader;
use jj_files::file_util::{Sink, Source};
use jj_filter::report::write_parts;
use jj_history_commands::usage::NAME;
use jj_import::importer::Importer;
use jj_import::names::Names;
use jj_mirror::mirrored::Mirrored;
use jj_sqlite::error::OpenError;
use jj_sqlite::sqlite_batch::SqliteBatch;
use jj_sqlite::sqlite_log::SqliteLog;
use sqlite::{Alter, FileStore};
use sqlite_disk::Disk;
use std::alloc::Global;

// Begins a transaction.
pub(crate) fn begin<S: Alter + Drop>(
    store: Mirrored<SqliteLog<S>>,
) -> Result<Mirrored<SqliteBatch<S>>, OpenError> {
    let (backend, log) = store.into_parts();
    match SqliteBatch::begin(log) {
        Ok(batch) => match Mirrored::new(backend, batch) {
            Ok(written) => Ok(written),
            Err(_) => Err(OpenError::Memory),
        },
        Err((error, _)) => Err(error),
    }
}

// Commits a transaction.
pub(crate) fn commit<S: Alter + Drop>(
    written: Mirrored<SqliteBatch<S>>,
) -> Result<Mirrored<SqliteLog<S>>, OpenError> {
    let (backend, batch) = written.into_parts();
    match batch.commit() {
        Ok(log) => match Mirrored::new(backend, log) {
            Ok(store) => Ok(store),
            Err(_) => Err(OpenError::Memory),
        },
        Err((error, _)) => Err(error),
    }
}

// Imports a batch in a transaction. An error of the stream leaves the commits before it imported.
fn import_in_transaction<S: Alter + Drop, R: Source>(
    alloc: Global,
    store: Mirrored<SqliteLog<S>>,
    importer: &mut Importer,
    reader: &mut CommandReader<R>,
) -> Result<(Mirrored<SqliteLog<S>>, Progress), Fault> {
    let mut written = begin(store)?;
    match import_batch(alloc, importer, &mut written, reader) {
        Ok(progress) => {
            let store = commit(written)?;
            Ok((store, progress))
        }
        Err(error) => Err(Fault::Import(error)),
    }
}

// Imports batches up to the end of the stream, or to an error of it. On a terminal, `errors`
// reports how many commits were imported.
fn import_batches<S: Alter + Drop, R: Source, E: Sink>(
    alloc: Global,
    store: Mirrored<SqliteLog<S>>,
    importer: &mut Importer,
    reader: &mut CommandReader<R>,
    errors: &mut E,
    on_terminal: bool,
) -> Result<(Mirrored<SqliteLog<S>>, Progress), Fault> {
    let mut store = store;
    for _ in 0..u64::MAX {
        let (next, progress) = import_in_transaction(alloc, store, importer, reader)?;
        store = next;
        if on_terminal {
            show_commits(errors, NAME, importer.commits());
        }
        if !matches!(&progress, Progress::Within) {
            return Ok((store, progress));
        }
    }
    Ok((store, Progress::Ended))
}

// Imports a stream over the names of earlier commits, and closes the store.
pub(crate) fn import_stream<D: Disk + Drop, R: Source + Drop, E: Sink>(
    alloc: Global,
    store: Mirrored<SqliteLog<FileStore<D>>>,
    names: Names,
    source: R,
    errors: &mut E,
    on_terminal: bool,
) -> Result<(), Fault> {
    let mut importer = Importer::over_names(alloc, names);
    let mut reader = CommandReader::new(alloc, source);
    let (store, progress) = import_batches(
        alloc,
        store,
        &mut importer,
        &mut reader,
        errors,
        on_terminal,
    )?;
    if on_terminal {
        write_parts(errors, &["\n"]);
    }
    close(store)?;
    match progress {
        Progress::Failed(error) => Err(Fault::Stream(error)),
        _ => Ok(()),
    }
}
