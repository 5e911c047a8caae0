//! Callers of `jj_sqlite`.
ghost use Rattle.std.specs.Prelude.{◌≡◌, IfErr, IfOk, OnOk};
ghost use Rattle.std.specs.List.{AllZip};
ghost use Rattle.sqlite.specs.Held.{state};
ghost use Rattle.sqlite.specs.State.{HasCleanDisk};
ghost use Rattle.jj_mirror.specs.Logs.{Appends};
ghost use Rattle.jj_sqlite.specs.Inserts.{StoresEntries};
ghost use Rattle.jj_sqlite.specs.Opening.{FailsToCreate};
ghost use Rattle.jj_sqlite.specs.Rows.{AreNumbered, IsGoodRow, IsReadError};

use jj_backend::backend::BackendResult;
use jj_mirror::object_log::{LogEntry, ObjectKind, ObjectLog};
use jj_sqlite::error::OpenError;
use jj_sqlite::sqlite_log::{self, SqliteLog};
use sqlite::{Alter, Connection, Row};
use std::alloc::Global;

/// `SqliteLog::over`.
pub fn over<S: Alter>(conn: Connection<S>) -> Result<SqliteLog<S>, (OpenError, Connection<S>)>
    ensures { IfErr result (λ e. HasCleanDisk (state S.Store e.1)
        → FailsToCreate S.Store conn e.1 e.0) }
{
    SqliteLog::over(conn)
}

/// `entries_from_rows`.
pub fn entries_from_rows(alloc: Global, rows: &[Row]) -> Result<Vec<LogEntry>, OpenError>
    ensures ok { IfOk result (λ entries. AllZip IsGoodRow rows.now entries.items) }
    ensures numbered { OnOk result (AreNumbered rows.now) }
    ensures error { IfErr result (IsReadError rows.now) }
{
    sqlite_log::entries_from_rows(alloc, rows)
}

/// `ObjectLog::append` of `SqliteLog`.
pub fn append<S: Alter>(
    alloc: Global,
    log: &mut SqliteLog<S>,
    kind: ObjectKind,
    id: &[u8],
    bytes: &[u8],
) -> BackendResult<()>
    ensures { OnOk result (Appends (StoresEntries S.Store) log.old.conn log.new.conn
        (record { kind = kind; id = id.now; bytes = bytes.now })) }
{
    log.append(alloc, kind, id, bytes)
}
