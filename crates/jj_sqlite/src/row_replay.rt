//! Replaying the rows of a log one at a time, so that only the backend has all of their bytes.
ghost use Rattle.std.specs.Prelude.{◌≡◌, ◌⊎◌, ◌++◌, ◌∷◌, [], List};
ghost use Rattle.std.specs.Prelude.{IfOk, IfErr, IfSome, OnOk};
ghost use Rattle.sqlite.specs.Held.{state};
ghost use Rattle.sqlite.specs.Order.{Row as RowValue};
ghost use Rattle.sqlite.specs.State.{HasCleanDisk, FailsToQuery, IsUnchanged, Shown, Survives};
ghost use Rattle.jj_sqlite.specs.Opening.{sqlite_error};
ghost use Rattle.jj_sqlite.specs.RowReplays.{AreReplayed, IsInRange, IsRowReplay};
ghost use Rattle.jj_sqlite.specs.Rows.{IsReadError};
ghost use Rattle.jj_sqlite.specs.Tables.{select_statement};

use crate::error::OpenError;
use crate::sqlite_log::{next_entry, select_rows};
use jj_mirror::error::ReplayError;
use jj_mirror::replay::{replay, replay_next};
use jj_trees::memory_backend::MemoryBackend;
use sqlite::{Alter, Connection, Error, Row};
use std::alloc::Global;

// The result of replaying the entries of rows, and their number. After an entry that cannot be
// replayed the later rows are still checked: their errors come first.
#[derive(Drop)]
pub(crate) struct Replayed {
    pub(crate) backend: Result<MemoryBackend, ReplayError>,
    pub(crate) count: usize,
}

// Takes the result of replaying some rows, and returns that of replaying these and one more.
fn replay_row(
    alloc: Global,
    replayed: Result<Replayed, OpenError>,
    row: &Row,
) -> Result<Replayed, OpenError>
    requires { IfOk replayed IsInRange }
    ensures range { IfOk result IsInRange }
    ensures next { (rows : List RowValue) → IsRowReplay rows replayed
        → IsRowReplay (rows ++ row.now ∷ []) result }
{
    let Replayed { backend, count } = replayed?;
    let entry = next_entry(row, count)?;
    Ok(Replayed {
        backend: replay_next(alloc, backend, &entry),
        count: count + 1,
    })
}

// Replays the rows of the table as they are read. Returns `None` after 2^64 - 1 rows, which SQLite
// cannot store.
fn replay_stream<S: Alter>(
    alloc: Global,
    conn: &mut Connection<S>,
) -> Result<Option<Result<Replayed, OpenError>>, Error>
    ensures rows { HasCleanDisk (state S.Store conn.new) → IfOk result (λ found. IfSome found (λ r.
        (rows : List RowValue) × IsRowReplay rows r
        × Shown select_statement [] (state S.Store conn.old) (state S.Store conn.new) rows)) }
    ensures range { IfOk result (λ found. IfSome found (λ r. IfOk r IsInRange)) }
    ensures same { HasCleanDisk (state S.Store conn.new) → OnOk result
        (IsUnchanged (state S.Store conn.old) (state S.Store conn.new)) }
    ensures survives { Survives (state S.Store conn.old) (state S.Store conn.new) (λ _. ⊥) }
    ensures error { HasCleanDisk (state S.Store conn.new) → IfErr result
        (FailsToQuery select_statement [] (state S.Store conn.old) (state S.Store conn.new)) }
{
    let mut replayed = Ok(Replayed {
        backend: replay(alloc, &[]),
        count: 0,
    });
    let mut rows = conn.query(
        "SELECT seq, kind, id, bytes FROM object_log ORDER BY seq",
        &[],
    )?;
    'rows: for _ in 0..u64::MAX {
        let Some(row) = rows.next()? else {
            return Ok(Some(replayed));
        };
        replayed = replay_row(alloc, replayed, row);
    }
    Ok(None)
}

// Replays the rows of the table. Fails at the first row that has an error.
pub(crate) fn replay_rows<S: Alter>(
    alloc: Global,
    conn: &mut Connection<S>,
) -> Result<Replayed, OpenError>
    ensures rows { HasCleanDisk (state S.Store conn.new) → IfOk result (λ r.
        (rows : List RowValue) × AreReplayed rows r
        × Shown select_statement [] (state S.Store conn.old) (state S.Store conn.new) rows) }
    ensures range { IfOk result IsInRange }
    ensures survives { Survives (state S.Store conn.old) (state S.Store conn.new) (λ _. ⊥) }
    ensures error { HasCleanDisk (state S.Store conn.new) → IfErr result (λ e.
        ((cause : Error) × (e ≡ sqlite_error cause)
        × FailsToQuery select_statement [] (state S.Store conn.old) (state S.Store conn.new) cause)
        ⊎ ((rows : List RowValue) × IsReadError rows e
        × Shown select_statement [] (state S.Store conn.old) (state S.Store conn.new) rows)) }
{
    match replay_stream(alloc, conn)? {
        Some(replayed) => replayed,
        None => {
            select_rows(conn)?;
            Err(OpenError::Memory)
        }
    }
}
