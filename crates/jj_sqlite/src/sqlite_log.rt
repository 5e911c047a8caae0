//! A log of written objects in a table of an SQLite database.
ghost use Rattle.std.specs.Prelude.{◌≡◌, ◌⊎◌, ◌↔◌, ◌+◌, ◌<◌, ◌^◌, ◌++◌, ◌∷◌, [], pos, List};
ghost use Rattle.std.specs.Prelude.{length, take};
ghost use Rattle.std.specs.Prelude.{IsTrue, IfOk, IfErr, OnOk, OnErr};
ghost use Rattle.std.specs.List.{AllZip};
ghost use Rattle.sqlite.specs.Held.{state};
ghost use Rattle.sqlite.specs.declared.types.Value.TheVariants.{Int};
ghost use Rattle.sqlite.specs.Order.{Row, column};
ghost use Rattle.sqlite.specs.State.{HasCleanDisk, FailsToQuery, Shown, CommitsShowing, Survives};
ghost use Rattle.sqlite.specs.Values.{bound};
ghost use Rattle.jj_mirror.specs.Entries.{LogEntryValue};
ghost use Rattle.jj_mirror.specs.Logs.{Appends, Keeps};
ghost use Rattle.jj_sqlite.specs.Tables.{create_statement, insert_statement, select_statement};
ghost use Rattle.jj_sqlite.specs.Tables.{entry_row, CountsRowsOf, HasOnlyRowsOf, IsForeign};
ghost use Rattle.jj_sqlite.specs.Crashes.{CommitsAsIs, HasLog, RunsAsIs};
ghost use Rattle.jj_sqlite.specs.Inserts.{ContainsEntries, ConvertsTo, FailsToInsert};
ghost use Rattle.jj_sqlite.specs.Inserts.{MayFailToInsert, StoresEntries, WasNewOrContains};
ghost use Rattle.jj_sqlite.specs.Rows.{AreNumbered, IsEntryRow, IsGoodRow};
ghost use Rattle.jj_sqlite.specs.Rows.{IsErrorAt, IsRowError, IsReadError};
ghost use Rattle.jj_sqlite.specs.Opening.{IsCreated, IsRead, FailsToCreate, FailsToRead};

use crate::counts::check_count;
use crate::error::OpenError;
use jj_backend::backend::{BackendError, BackendResult};
use jj_files::file_util::{SourceError, SourceKind};
use jj_mirror::object_log::{LogEntry, ObjectKind, ObjectLog};
use sqlite::types::ValueRef;
use sqlite::{Alter, Connection, Error, ErrorCode, Row, params};
use std::alloc::Global;

/// A log in the table `object_log` of a database: a row for each entry, in the order of `seq`.
pub struct SqliteLog<S: Alter> {
    pub(crate) conn: Connection<S>,
}

impl<S: Alter + Drop> Drop for SqliteLog<S> {
    fn drop(self) {
        let SqliteLog { conn: _ } = self;
    }
}

impl<S: Alter> SqliteLog<S> {
    /// Opens the log of a database, and creates its table in an empty one. Fails with `Foreign` if
    /// the database has other tables, indexes or views and no table of a log, and else with
    /// `Sqlite`, or with `Memory` if memory runs out; an error returns the connection too.
    pub fn over(mut conn: Connection<S>) -> Result<Self, (OpenError, Connection<S>)>
        // The table of the log is there or was created.
        ensures ok { IfOk result (λ log. HasCleanDisk (state S.Store log.conn)
            → IsCreated S.Store conn log.conn) }
        // The log has the entries whose rows the table has, also after a crash.
        ensures entries { IfOk result (λ log. (entries : List LogEntryValue)
            → WasNewOrContains S.Store conn entries → StoresEntries S.Store log.conn entries) }
        // Rows of these entries, of which some were lost, stay as they are.
        ensures damaged { IfOk result (λ log. HasCleanDisk (state S.Store log.conn)
            → (entries : List LogEntryValue) → HasOnlyRowsOf (state S.Store conn) entries
            → HasOnlyRowsOf (state S.Store log.conn) entries) }
        // If SQLite has counted all entries, it still has.
        ensures counted { IfOk result (λ log. HasCleanDisk (state S.Store log.conn)
            → (entries : List LogEntryValue) → CountsRowsOf (state S.Store conn) entries
            → CountsRowsOf (state S.Store log.conn) entries) }
        // If the disk has returned only what was written to it up to the end of the call, it had at
        // the start.
        ensures clean { IfOk result (λ log. HasCleanDisk (state S.Store log.conn)
            → HasCleanDisk (state S.Store conn)) }
        // A crash leaves a database that it could leave before the call, or the log with the
        // entries that it had.
        ensures crash { IfErr result (λ e. Survives (state S.Store conn) (state S.Store e.1) (λ db.
            (entries : List LogEntryValue) → HasCleanDisk (state S.Store conn)
            → WasNewOrContains S.Store conn entries → HasLog db entries)) }
        // An error is that of the statement that creates the table, or the database is another
        // program's.
        ensures error { IfErr result (λ e. HasCleanDisk (state S.Store e.1)
            → FailsToCreate S.Store conn e.1 e.0) }
        // A database of another program is not opened.
        ensures own { OnOk result (¬ (IsForeign (state S.Store conn).now.schema)) }
    {
        if is_foreign(&conn) {
            return Err((OpenError::Foreign, conn));
        }
        let _schema = conn.schema();
        match create_table(&mut conn) {
            Ok(_) => Ok(SqliteLog { conn }),
            Err(cause) => Err((OpenError::from(cause), conn)),
        }
    }

    /// Reads the entries in the order in which they were appended. Fails with `Sqlite` if a query
    /// fails, at the first row that has not the next number (`Gap`), that cannot be read
    /// (`Sqlite`), whose kind is unknown (`UnknownKind`) or whose id is not the digest of its
    /// object (`WrongObject`), if SQLite counted another number of rows (`Lost`), and with `Memory`
    /// if memory runs out. A table that an older version created is not counted.
    pub fn read_entries(&mut self, alloc: Global) -> Result<Vec<LogEntry>, OpenError>
        // The entries are those of the rows of the table, in the order of their numbers.
        ensures rows { HasCleanDisk (state S.Store self.new.conn) → IfOk result (λ entries.
            (rows : List Row) × AllZip IsGoodRow rows entries.items × AreNumbered rows
            × IsRead S.Store self.old.conn self.new.conn rows) }
        // If the table has exactly the rows of these entries, they are returned.
        ensures entries { HasCleanDisk (state S.Store self.new.conn) → IfOk result (λ read.
            (entries : List LogEntryValue) → ContainsEntries S.Store self.old.conn entries
            → read.items ≡ entries) }
        // If rows of these entries were lost, repeated or put in another order, the entries that
        // are read are the first of them, and none is skipped.
        ensures damaged { HasCleanDisk (state S.Store self.new.conn) → IfOk result (λ read.
            (entries : List LogEntryValue) → HasOnlyRowsOf (state S.Store self.old.conn) entries
            → read.items ≡ take (length read.items) entries) }
        // If SQLite counted these entries, none is missing.
        ensures counted { HasCleanDisk (state S.Store self.new.conn) → IfOk result (λ read.
            (entries : List LogEntryValue) → CountsRowsOf (state S.Store self.old.conn) entries
            → read.items ≡ entries) }
        // Reading changes no entry, also not what a crash leaves.
        ensures kept { OnOk result (Keeps (StoresEntries S.Store) self.old.conn self.new.conn) }
        // If the disk returned what was written to it up to the end of the call, it did at the
        // start.
        ensures clean { HasCleanDisk (state S.Store self.new.conn)
            → HasCleanDisk (state S.Store self.old.conn) }
        // An error is that of a statement, of the first row that has one, or of the count.
        ensures error { HasCleanDisk (state S.Store self.new.conn)
            → IfErr result (FailsToRead S.Store self.old.conn self.new.conn) }
    {
        let rows = select_rows(&mut self.conn)?;
        let entries = entries_from_rows(alloc, &rows)?;
        check_count(&mut self.conn, rows.len())?;
        Ok(entries)
    }

    /// Closes the log and returns its connection.
    pub fn into_connection(self) -> Connection<S>
        ensures { result ≡ self.conn }
    {
        let SqliteLog { conn } = self;
        conn
    }
}

// Runs a statement. A connection that is shut fails to prepare it, so it commits nothing.
pub(crate) fn run<S: Alter>(
    conn: &mut Connection<S>,
    sql: &str,
    params: &[ValueRef<'_>],
) -> Result<usize, Error>
    ensures runs { HasCleanDisk (state S.Store conn.new)
        → RunsAsIs S.Store sql.now (bound params.now) conn.old conn.new result }
    ensures survives { Survives (state S.Store conn.old) (state S.Store conn.new)
        (CommitsAsIs S.Store sql.now (bound params.now) conn.old) }
{
    let statement = conn.prepare(sql)?;
    statement.execute(conn, params)
}

// Returns whether the database is another program's.
fn is_foreign<S: Alter>(conn: &Connection<S>) -> bool
    ensures { IsTrue result ↔ IsForeign (state S.Store conn.now).now.schema }
{
    let schema = conn.schema();
    let is_empty = schema.tables.is_empty() && schema.indexes.is_empty() && schema.views.is_empty();
    schema.table_named(b"object_log").is_none() && !is_empty
}

fn create_table<S: Alter>(conn: &mut Connection<S>) -> Result<usize, Error>
    ensures runs { HasCleanDisk (state S.Store conn.new)
        → RunsAsIs S.Store create_statement [] conn.old conn.new result }
    ensures survives { Survives (state S.Store conn.old) (state S.Store conn.new)
        (CommitsAsIs S.Store create_statement [] conn.old) }
{
    run(
        conn,
        "CREATE TABLE IF NOT EXISTS object_log (seq INTEGER PRIMARY KEY AUTOINCREMENT, \
        kind TEXT NOT NULL, id BLOB NOT NULL, bytes BLOB NOT NULL) STRICT",
        &[],
    )
}

pub(crate) fn select_rows<S: Alter>(conn: &mut Connection<S>) -> Result<Vec<Row>, Error>
    ensures rows { HasCleanDisk (state S.Store conn.new) → IfOk result (λ rows.
        Shown select_statement [] (state S.Store conn.old) (state S.Store conn.new) rows.items) }
    ensures survives { Survives (state S.Store conn.old) (state S.Store conn.new)
        (CommitsShowing select_statement [] (state S.Store conn.old)) }
    ensures error { HasCleanDisk (state S.Store conn.new) → IfErr result
        (FailsToQuery select_statement [] (state S.Store conn.old) (state S.Store conn.new)) }
{
    conn.query_all(
        "SELECT seq, kind, id, bytes FROM object_log ORDER BY seq",
        &[],
    )
}

// Returns the entry of a row.
fn entry_from_row(row: &Row) -> Result<LogEntry, OpenError>
    ensures ok { IfOk result (IsEntryRow row.now) }
    ensures wrong { IfErr result (IsRowError row.now) }
{
    let name: String = row.get(1)?;
    let id: Vec<u8> = row.get(2)?;
    let bytes: Vec<u8> = row.get(3)?;
    match ObjectKind::from_name(name.as_str()) {
        Some(kind) => Ok(LogEntry { kind, id, bytes }),
        None => Err(OpenError::UnknownKind { id }),
    }
}

// Returns whether a row has this number.
pub(crate) fn has_number(row: &Row, seq: usize) -> bool
    ensures number { IsTrue result ↔ (column row.now 0 ≡ Int (pos seq)) }
    ensures fits { IsTrue result → seq < 2 ^ 63 }
{
    match row.get_ref(0) {
        Ok(ValueRef::Int(number)) => u64::try_from(number) == Ok(seq as u64),
        _ => false,
    }
}

// Returns the entry of a row, whose id has to be the digest of its object.
fn checked_entry(row: &Row) -> Result<LogEntry, OpenError>
    ensures ok { IfOk result (IsGoodRow row.now) }
    ensures wrong { IfErr result (IsRowError row.now) }
{
    let entry = entry_from_row(row)?;
    if entry.has_digest() {
        Ok(entry)
    } else {
        let LogEntry { kind, id, bytes: _ } = entry;
        Err(OpenError::WrongObject { kind, id })
    }
}

// Returns the entry of the row after so many others.
pub(crate) fn next_entry(row: &Row, count: usize) -> Result<LogEntry, OpenError>
    requires { count < 2 ^ 63 }
    ensures ok { IfOk result (IsGoodRow row.now) }
    ensures number { OnOk result (column row.now 0 ≡ Int (pos (count + 1))) }
    ensures fits { OnOk result (count + 1 < 2 ^ 63) }
    ensures wrong { IfErr result (IsErrorAt count row.now) }
{
    if has_number(row, count + 1) {
        checked_entry(row)
    } else {
        Err(OpenError::Gap { count })
    }
}

/// Returns the entries of the rows of a log, which are numbered from 1. Fails at the first row that
/// has not the next number (`Gap`), that cannot be read (`Sqlite`), whose kind is unknown
/// (`UnknownKind`) or whose id is not the digest of its object (`WrongObject`), and with `Memory`
/// if memory runs out.
pub fn entries_from_rows(alloc: Global, rows: &[Row]) -> Result<Vec<LogEntry>, OpenError>
    // Each row is that of the entry at its index, whose id is the digest of its object.
    ensures ok { IfOk result (λ entries. AllZip IsGoodRow rows.now entries.items) }
    // On success the rows are numbered in their order, from 1.
    ensures numbered { OnOk result (AreNumbered rows.now) }
    // An error is that of the first row that has one.
    ensures wrong { IfErr result (IsReadError rows.now) }
{
    let mut entries = Vec::new(alloc);
    for row in rows {
        match next_entry(row, entries.len()) {
            Ok(entry) => entries.push(entry)?,
            Err(error) => return Err(error),
        }
    }
    Ok(entries)
}

pub(crate) fn insert_entry<S: Alter>(
    conn: &mut Connection<S>,
    kind: ObjectKind,
    id: &[u8],
    bytes: &[u8],
) -> Result<usize, Error>
    ensures runs { HasCleanDisk (state S.Store conn.new) → RunsAsIs S.Store insert_statement
        (entry_row (record { kind = kind; id = id.now; bytes = bytes.now }))
        conn.old conn.new result }
    ensures survives { Survives (state S.Store conn.old) (state S.Store conn.new)
        (CommitsAsIs S.Store insert_statement
        (entry_row (record { kind = kind; id = id.now; bytes = bytes.now })) conn.old) }
{
    run(
        conn,
        "INSERT INTO object_log (kind, id, bytes) VALUES (?1, ?2, ?3)",
        params![kind.name(), id, bytes],
    )
}

// Converts an error of SQLite. The message is empty if memory runs out for it.
pub(crate) fn convert_error(alloc: Global, error: Error) -> BackendError
    ensures { ConvertsTo error result }
{
    match error {
        Error::SqliteFailure(ErrorCode::OutOfMemory) => BackendError::Memory,
        error => BackendError::Other(SourceError {
            kind: SourceKind::Io,
            message: match format!(in alloc; "{error}") {
                Ok(message) => message,
                Err(_) => String::new(alloc),
            },
        }),
    }
}

impl<S: Alter> ObjectLog for SqliteLog<S> {
    ghost contains = { λ log. StoresEntries S.Store log.conn };

    ghost may_fail = { λ log. MayFailToInsert S.Store log.conn };

    fn append(
        &mut self,
        alloc: Global,
        kind: ObjectKind,
        id: &[u8],
        bytes: &[u8],
    ) -> BackendResult<()>
        // After a crash at any moment the log has all entries of the calls that succeeded, and at
        // most that of the one that failed.
        ensures ok { OnOk result (Appends (StoresEntries S.Store) self.old.conn self.new.conn
            (record { kind = kind; id = id.now; bytes = bytes.now })) }
        // After an error the log has its entries, also after a crash.
        ensures unchanged { OnErr result
            (Keeps (StoresEntries S.Store) self.old.conn self.new.conn) }
        // A crash leaves a database that it could leave before the call, or the log with this
        // entry.
        ensures crash { Survives (state S.Store self.old.conn) (state S.Store self.new.conn) (λ db.
            (entries : List LogEntryValue) → HasCleanDisk (state S.Store self.old.conn)
            → ContainsEntries S.Store self.old.conn entries → HasLog db
            (entries ++ record { kind = kind; id = id.now; bytes = bytes.now } ∷ [])) }
        // An error is one that the statement for the entry may have.
        ensures error { IfErr result (MayFailToInsert S.Store self.old.conn
            (record { kind = kind; id = id.now; bytes = bytes.now })) }
        // The statement for the entry failed with an error of SQLite, which is converted.
        ensures cause { IfErr result (λ e. (cause : Error)
            × FailsToInsert S.Store (record { kind = kind; id = id.now; bytes = bytes.now })
            self.old.conn self.new.conn cause × ConvertsTo cause e) }
    {
        match insert_entry(&mut self.conn, kind, id, bytes) {
            Ok(_) => Ok(()),
            Err(error) => Err(convert_error(alloc, error)),
        }
    }
}
