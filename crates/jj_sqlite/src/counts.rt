//! The number of rows that SQLite counted for the table of a log (AUTOINCREMENT).
ghost use Rattle.std.specs.Prelude.{◌≡◌, ◌↔◌, [], IsTrue, IfOk, IfErr, OnOk};
ghost use Rattle.sqlite.specs.Held.{state};
ghost use Rattle.sqlite.specs.State.{HasCleanDisk, FailsToQuery, Shown, CommitsShowing, Survives};
ghost use Rattle.jj_mirror.specs.Logs.{Keeps};
ghost use Rattle.jj_sqlite.specs.Inserts.{StoresEntries};
ghost use Rattle.jj_sqlite.specs.Opening.{FailsToCount, IsCounted};
ghost use Rattle.jj_sqlite.specs.Rows.{ShowsCount};
ghost use Rattle.jj_sqlite.specs.Tables.{count_statement, is_counted};

use crate::error::OpenError;
use crate::sqlite_log::has_number;
use sqlite::{Alter, Connection, Error, Row};

fn is_counted<S: Alter>(conn: &Connection<S>) -> bool
    ensures { result ≡ is_counted (state S.Store conn.now).now.schema }
{
    conn.schema().table_named(b"sqlite_sequence").is_some()
}

fn select_counts<S: Alter>(conn: &mut Connection<S>) -> Result<Vec<Row>, Error>
    ensures rows { HasCleanDisk (state S.Store conn.new) → IfOk result (λ rows.
        Shown count_statement [] (state S.Store conn.old) (state S.Store conn.new) rows.items) }
    ensures survives { Survives (state S.Store conn.old) (state S.Store conn.new)
        (CommitsShowing count_statement [] (state S.Store conn.old)) }
    ensures error { HasCleanDisk (state S.Store conn.new) → IfErr result
        (FailsToQuery count_statement [] (state S.Store conn.old) (state S.Store conn.new)) }
{
    conn.query_all(
        "SELECT seq FROM sqlite_sequence WHERE name = 'object_log'",
        &[],
    )
}

// Returns whether the rows represent this count. SQLite has no row before the first insertion.
fn shows_count(rows: &[Row], count: usize) -> bool
    ensures { IsTrue result ↔ ShowsCount count rows.now }
{
    match rows {
        [] => count == 0,
        [row] => has_number(row, count),
        _ => false,
    }
}

// Fails with `Lost` if SQLite counted another number of rows.
pub(crate) fn check_count<S: Alter>(conn: &mut Connection<S>, count: usize) -> Result<(), OpenError>
    ensures ok { HasCleanDisk (state S.Store conn.new) → OnOk result
        (IsCounted S.Store conn.old conn.new count) }
    ensures kept { OnOk result (Keeps (StoresEntries S.Store) conn.old conn.new) }
    ensures clean { HasCleanDisk (state S.Store conn.new) → HasCleanDisk (state S.Store conn.old) }
    ensures error { HasCleanDisk (state S.Store conn.new)
        → IfErr result (FailsToCount S.Store conn.old conn.new count) }
{
    if !is_counted(conn) {
        return Ok(());
    }
    let rows = select_counts(conn)?;
    if shows_count(&rows, count) {
        Ok(())
    } else {
        Err(OpenError::Lost { count })
    }
}
