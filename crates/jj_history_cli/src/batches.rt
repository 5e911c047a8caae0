//! Imports of batches of commits, each with the names of all commits.
use itoa::Buffer;
use jj_backend::backend::Backend;
use jj_fast_import::reader::CommandReader;
use jj_files::file_util::{Sink, Source};
use jj_filter::report::write_parts;
use jj_import::error::ImportError;
use jj_import::importer::Importer;
use jj_import::stream::{StreamError, import_commands};
use std::alloc::Global;

// The most commits of a batch.
pub(crate) const BATCH: usize = 2000;

// Where the stream is after a batch.
#[derive(Drop)]
pub(crate) enum Progress {
    // There may be more commits.
    Within,
    Ended,
    // A command could not be read or imported. The commands before it are imported.
    Failed(StreamError),
}

// Imports at most a batch of commits, and records the names of all commits. Fails as
// `Importer::write_names` does.
pub(crate) fn import_batch<B: Backend, R: Source>(
    alloc: Global,
    importer: &mut Importer,
    store: &mut B,
    reader: &mut CommandReader<R>,
) -> Result<Progress, ImportError> {
    let progress = match import_commands(alloc, importer, store, reader, BATCH) {
        Ok(false) => Progress::Within,
        Ok(true) => Progress::Ended,
        Err(error) => Progress::Failed(error),
    };
    match importer.write_names(alloc, store) {
        Ok(_record) => Ok(progress),
        Err(error) => Err(error),
    }
}

// Writes the number of commits so far over the last one.
pub(crate) fn show_commits<E: Sink>(errors: &mut E, name: &str, commits: u64) {
    let mut digits = Buffer::new();
    write_parts(
        errors,
        &["\r", name, ": ", digits.format(commits), " commits"],
    );
}
