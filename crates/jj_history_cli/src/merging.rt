//! Merges of two commits, each in a transaction.
use crate::database::close;
use crate::fault::Fault;
use crate::importing::{begin, commit};
use jj_backend::backend::Backend;
use jj_conflicts::conflicts::ConflictMarkerStyle;
use jj_history_merges::command::{MERGE_REF, merge_revisions};
use jj_ids::object_id::CommitId;
use jj_import::importer::Importer;
use jj_import::names::Names;
use jj_mirror::mirrored::Mirrored;
use jj_sqlite::sqlite_log::SqliteLog;
use sqlite::FileStore;
use sqlite_disk::Disk;
use std::alloc::Global;

// Names the commit of a merge, and records all names.
fn record_merge<B: Backend>(
    alloc: Global,
    store: &mut B,
    names: Names,
    id: &CommitId,
) -> Result<(), Fault> {
    let mut importer = Importer::over_names(alloc, names);
    if importer.set_ref(MERGE_REF, id).is_err() {
        return Err(Fault::Memory);
    }
    match importer.write_names(alloc, store) {
        Ok(_record) => Ok(()),
        Err(error) => Err(Fault::Import(error)),
    }
}

// Merges the commits that two revisions name, and names the merge. Returns a description.
fn merge_named<B: Backend>(
    alloc: Global,
    store: &mut B,
    names: Names,
    first: &str,
    second: &str,
    style: ConflictMarkerStyle,
) -> Result<String, Fault> {
    let merged = merge_revisions(
        alloc,
        store,
        names.refs(),
        names.git_ids(),
        first,
        second,
        style,
    );
    match merged {
        Ok((id, description)) => {
            record_merge(alloc, store, names, &id)?;
            Ok(description)
        }
        Err(error) => Err(Fault::Merge(error)),
    }
}

// Merges two commits in a transaction, and closes the store. Returns a description. After an error
// the store is as before.
pub(crate) fn merge_in_store<D: Disk + Drop>(
    alloc: Global,
    store: Mirrored<SqliteLog<FileStore<D>>>,
    names: Names,
    first: &str,
    second: &str,
    style: ConflictMarkerStyle,
) -> Result<Vec<u8>, Fault> {
    let mut written = begin(store)?;
    match merge_named(alloc, &mut written, names, first, second, style) {
        Ok(description) => {
            let store = commit(written)?;
            close(store)?;
            Ok(description.into_bytes())
        }
        Err(error) => Err(error),
    }
}
