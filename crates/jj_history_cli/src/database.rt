//! The store in a database, and the names of its commits.
use crate::fault::Fault;
use jj_ids::object_id::CommitId;
use jj_import::names::Names;
use jj_mirror::mirrored::Mirrored;
use jj_sqlite::error::OpenError;
use jj_sqlite::sqlite_log::SqliteLog;
use jj_sqlite::store::close_store;
use sqlite::{Alter, Connection, Error, FileStore};
use sqlite_disk::Disk;
use std::alloc::Global;

// Returns the id of the last commit of the log, if there is one.
fn query_last_commit<S: Alter>(conn: &mut Connection<S>) -> Result<Option<CommitId>, Error> {
    let rows = conn.query_all(
        "SELECT id FROM object_log WHERE kind = 'commit' ORDER BY seq DESC LIMIT 1",
        &[],
    )?;
    match rows.first() {
        Some(row) => {
            let id: Vec<u8> = row.get(0)?;
            Ok(Some(CommitId::new(id)))
        }
        None => Ok(None),
    }
}

// Returns the log and the id of its last commit, if there is one.
fn last_commit<S: Alter + Drop>(
    log: SqliteLog<S>,
) -> Result<(SqliteLog<S>, Option<CommitId>), OpenError> {
    let mut conn = log.into_connection();
    match query_last_commit(&mut conn) {
        Ok(last) => match SqliteLog::over(conn) {
            Ok(log) => Ok((log, last)),
            Err((error, _)) => Err(error),
        },
        Err(error) => Err(OpenError::from(error)),
    }
}

// Returns the store and the id of its last commit, if there is one.
pub(crate) fn with_last_commit<S: Alter + Drop>(
    store: Mirrored<SqliteLog<S>>,
) -> Result<(Mirrored<SqliteLog<S>>, Option<CommitId>), OpenError> {
    let (backend, log) = store.into_parts();
    match last_commit(log) {
        Ok((log, last)) => match Mirrored::new(backend, log) {
            Ok(store) => Ok((store, last)),
            Err(_) => Err(OpenError::Memory),
        },
        Err(error) => Err(error),
    }
}

// Closes the store, so that a copy of the database file is a backup.
pub(crate) fn close<D: Disk + Drop>(store: Mirrored<SqliteLog<FileStore<D>>>) -> Result<(), Fault> {
    match close_store(store) {
        Ok(_) => Ok(()),
        Err(error) => Err(Fault::from(error)),
    }
}
