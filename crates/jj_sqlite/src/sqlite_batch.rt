//! A log of written objects in an open transaction of an SQLite database.
ghost use Rattle.std.specs.Prelude.{◌≡◌, ◌++◌, ◌∷◌, [], List, IsTrue, IfOk, IfErr, OnOk, OnErr};
ghost use Rattle.sqlite.specs.Held.{state};
ghost use Rattle.sqlite.specs.State.{HasCleanDisk, IsLive, Survives};
ghost use Rattle.jj_mirror.specs.Entries.{LogEntryValue};
ghost use Rattle.jj_mirror.specs.Logs.{Appends, Keeps};
ghost use Rattle.jj_sqlite.specs.Batches.{IsBatch, LeavesAllOrNone};
ghost use Rattle.jj_sqlite.specs.Batches.{begin_statement, commit_statement};
ghost use Rattle.jj_sqlite.specs.Crashes.{CommitsAsIs, RunsAsIs};
ghost use Rattle.jj_sqlite.specs.Inserts.{MayFailToBatch, StoresEntries};

use crate::error::OpenError;
use crate::sqlite_log::{SqliteLog, convert_error, insert_entry, run};
use jj_backend::backend::BackendResult;
use jj_mirror::object_log::{ObjectKind, ObjectLog};
use sqlite::{Alter, Connection, Error, ErrorCode};
use std::alloc::Global;

/// A log whose new entries are in an open transaction. `commit` makes all of them durable; if it is
/// not called or fails, or after a crash before it, the log has none of them.
pub struct SqliteBatch<S: Alter> {
    conn: Connection<S>,
}

impl<S: Alter + Drop> Drop for SqliteBatch<S> {
    fn drop(self) {
        let SqliteBatch { conn: _ } = self;
    }
}

impl<S: Alter> SqliteBatch<S> {
    /// Opens a transaction over a log. Fails with `Sqlite`, or with `Memory` if memory runs out; an
    /// error returns the log too.
    pub fn begin(log: SqliteLog<S>) -> Result<Self, (OpenError, SqliteLog<S>)>
        // The batch begins with the entries that a crash leaves in the table.
        ensures ok { IfOk result (λ batch. (entries : List LogEntryValue)
            → StoresEntries S.Store log.conn entries
            → IsBatch S.Store batch.conn entries entries) }
        // After an error the log has its entries, also after a crash.
        ensures unchanged { IfErr result (λ e.
            Keeps (StoresEntries S.Store) log.conn e.1.conn) }
    {
        let mut conn = log.into_connection();
        let _schema = conn.schema();
        match begin_transaction(&mut conn) {
            Ok(_) => Ok(SqliteBatch { conn }),
            Err(cause) => Err((OpenError::from(cause), SqliteLog { conn })),
        }
    }

    /// Gives up the transaction, which ends when the connection is dropped, and returns that.
    pub fn into_connection(self) -> Connection<S>
        ensures { result ≡ self.conn }
    {
        let SqliteBatch { conn } = self;
        conn
    }

    /// Commits the entries and returns the log, which has all of them. Fails with `Sqlite`, or with
    /// `Memory` if memory runs out: whoever opens the database then finds all of them or none. An
    /// error returns the connection too.
    pub fn commit(self) -> Result<SqliteLog<S>, (OpenError, Connection<S>)>
        // After a commit the table has all entries of the batch, also after a crash.
        ensures ok { IfOk result (λ log. (kept entries : List LogEntryValue)
            → IsBatch S.Store self.conn kept entries → StoresEntries S.Store log.conn entries) }
        // After an error a crash leaves the entries from before the batch or all of it.
        ensures crash { IfErr result (λ e. (kept entries : List LogEntryValue)
            → IsBatch S.Store self.conn kept entries
            → LeavesAllOrNone S.Store e.1 kept entries) }
    {
        let SqliteBatch { mut conn } = self;
        let _schema = conn.schema();
        if conn.is_autocommit() {
            return Err((OpenError::Sqlite(ENDED), conn));
        }
        match commit_transaction(&mut conn) {
            Ok(_) => Ok(SqliteLog { conn }),
            Err(cause) => Err((OpenError::from(cause), conn)),
        }
    }
}

// The error of a batch whose transaction was ended by an earlier failure.
const ENDED: Error = Error::SqliteFailure(ErrorCode::TransactionState);

fn begin_transaction<S: Alter>(conn: &mut Connection<S>) -> Result<usize, Error>
    ensures runs { HasCleanDisk (state S.Store conn.new)
        → RunsAsIs S.Store begin_statement [] conn.old conn.new result }
    ensures survives { Survives (state S.Store conn.old) (state S.Store conn.new)
        (CommitsAsIs S.Store begin_statement [] conn.old) }
{
    run(conn, "BEGIN", &[])
}

fn commit_transaction<S: Alter>(conn: &mut Connection<S>) -> Result<usize, Error>
    ensures runs { HasCleanDisk (state S.Store conn.new)
        → RunsAsIs S.Store commit_statement [] conn.old conn.new result }
    ensures survives { Survives (state S.Store conn.old) (state S.Store conn.new)
        (CommitsAsIs S.Store commit_statement [] conn.old) }
{
    run(conn, "COMMIT", &[])
}

impl<S: Alter> ObjectLog for SqliteBatch<S> {
    ghost contains = { λ batch entries. (kept : List LogEntryValue)
        × IsBatch S.Store batch.conn kept entries };

    ghost may_fail = { λ batch. MayFailToBatch S.Store batch.conn };

    fn append(
        &mut self,
        alloc: Global,
        kind: ObjectKind,
        id: &[u8],
        bytes: &[u8],
    ) -> BackendResult<()>
        // On success the entry follows those of the batch.
        ensures ok { OnOk result (Appends (λ conn entries. (kept : List LogEntryValue)
            × IsBatch S.Store conn kept entries) self.old.conn self.new.conn
            (record { kind = kind; id = id.now; bytes = bytes.now })) }
        // After an error the batch has its entries.
        ensures unchanged { OnErr result (Keeps (λ conn entries. (kept : List LogEntryValue)
            × IsBatch S.Store conn kept entries) self.old.conn self.new.conn) }
        // The last commit stays as it is.
        ensures appended { OnOk result ((kept entries : List LogEntryValue)
            → IsBatch S.Store self.old.conn kept entries → IsBatch S.Store self.new.conn kept
            (entries ++ record { kind = kind; id = id.now; bytes = bytes.now } ∷ [])) }
        // After an error a commit still writes the entries appended before.
        ensures kept { OnErr result ((kept entries : List LogEntryValue)
            → IsBatch S.Store self.old.conn kept entries
            → IsBatch S.Store self.new.conn kept entries) }
        // An error is that of the statement, or of a transaction that has ended.
        ensures error { IfErr result (MayFailToBatch S.Store self.old.conn
            (record { kind = kind; id = id.now; bytes = bytes.now })) }
    {
        if self.conn.is_autocommit() {
            return Err(convert_error(alloc, ENDED));
        }
        match insert_entry(&mut self.conn, kind, id, bytes) {
            Ok(_) => Ok(()),
            Err(error) => Err(convert_error(alloc, error)),
        }
    }
}
