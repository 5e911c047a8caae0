//! Proved callers: entries that are written in one transaction.
ghost use Rattle.std.specs.Prelude.{◌++◌, [], ◌∷◌, List, IfOk, IfErr, OnOk, OnErr};
ghost use Rattle.jj_mirror.specs.Entries.{LogEntryValue};
ghost use Rattle.jj_sqlite.specs.Batches.{IsBatch, LeavesAllOrNone};
ghost use Rattle.jj_sqlite.specs.Inserts.{StoresEntries};

use jj_backend::backend::BackendResult;
use jj_mirror::object_log::{LogEntry, ObjectLog};
use jj_sqlite::error::OpenError;
use jj_sqlite::sqlite_batch::SqliteBatch;
use jj_sqlite::sqlite_log::SqliteLog;
use sqlite::{Alter, Connection};
use std::alloc::Global;

fn append_entry<S: Alter>(
    alloc: Global,
    batch: &mut SqliteBatch<S>,
    entry: &LogEntry,
) -> BackendResult<()>
    ensures ok { OnOk result ((kept before : List LogEntryValue)
        → IsBatch S.Store batch.old.conn kept before
        → IsBatch S.Store batch.new.conn kept (before ++ entry.now ∷ [])) }
    ensures err { OnErr result ((kept before : List LogEntryValue)
        → IsBatch S.Store batch.old.conn kept before
        → IsBatch S.Store batch.new.conn kept before) }
{
    batch.append(alloc, entry.kind, &entry.id, &entry.bytes)
}

/// Appends entries to a transaction and commits it. The log has all of them then. After an error a
/// crash leaves a database that has all of them or none.
pub fn commit_all<S: Alter>(
    alloc: Global,
    mut batch: SqliteBatch<S>,
    entries: &[LogEntry],
) -> Result<SqliteLog<S>, (OpenError, Connection<S>)>
    // After a success the log has the entries from before and then all of these.
    ensures ok { IfOk result (λ log. (kept before : List LogEntryValue)
        → IsBatch S.Store batch.conn kept before
        → StoresEntries S.Store log.conn (before ++ entries.now)) }
    // After an error a crash leaves a database with all of these entries or none of them.
    ensures crash { IfErr result (λ e. (kept before : List LogEntryValue)
        → IsBatch S.Store batch.conn kept before
        → LeavesAllOrNone S.Store e.1 kept (before ++ entries.now)) }
{
    for entry in entries {
        match append_entry(alloc, &mut batch, entry) {
            Ok(()) => (),
            Err(error) => return Err((OpenError::Backend(error), batch.into_connection())),
        }
    }
    batch.commit()
}
