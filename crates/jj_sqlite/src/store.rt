//! Opening and closing a backend whose objects are stored in an SQLite database.
ghost use Rattle.std.specs.Prelude.{◌≡◌, ◌⊎◌, ℕ, IsTrue, List, take, IfOk, IfErr, OnOk};
ghost use Rattle.sqlite.specs.Files.{over_files};
ghost use Rattle.sqlite.specs.Held.{state};
ghost use Rattle.sqlite.specs.State.{HasCleanDisk};
ghost use Rattle.jj_mirror.specs.Entries.{LogEntryValue};
ghost use Rattle.jj_mirror.specs.Logs.{Keeps};
ghost use Rattle.jj_mirror.specs.Replays.{IsReplay};
ghost use Rattle.jj_trees.specs.MemoryObjects.{digest_length};
ghost use Rattle.jj_sqlite.specs.Inserts.{ContainsEntries, StoresEntries, WasNewOrContains};
ghost use Rattle.jj_sqlite.specs.Tables.{CountsRowsOf, HasOnlyRowsOf, IsForeign};
ghost use Rattle.jj_sqlite.specs.Opening.{IsOpened, IsOpenError, IsReplayed};
ghost use Rattle.jj_sqlite.specs.Opening.{FailsToRead, FailsToReplay};
ghost use Rattle.jj_sqlite.specs.Opening.{IsDecodingError, IsOpenCause, OnMalformed};
ghost use Rattle.jj_sqlite.specs.Opening.{sqlite_error};
ghost use Rattle.jj_sqlite.specs.Closing.{CrashContains, FilesContain, IsBackup};

use crate::counts::check_count;
use crate::error::OpenError;
use crate::row_replay::{Replayed, replay_rows};
use crate::sqlite_log::SqliteLog;
use jj_backend::backend::{Commit, CopyHistory, Tree};
use jj_decode::read_content::ReadContent;
use jj_mirror::mirrored::Mirrored;
use jj_trees::memory_backend::MemoryBackend;
use sqlite::{Alter, Connection, Error, FileStore};
use sqlite_disk::{Disk, Files};
use std::alloc::Global;

// Replays the entries of a log.
fn replay_log<S: Alter>(alloc: Global, log: &mut SqliteLog<S>) -> Result<MemoryBackend, OpenError>
    ensures ok { HasCleanDisk (state S.Store log.new.conn) → IfOk result
        (IsReplayed S.Store log.old.conn log.new.conn) }
    ensures entries { HasCleanDisk (state S.Store log.new.conn) → IfOk result (λ backend.
        (entries : List LogEntryValue) → ContainsEntries S.Store log.old.conn entries
        → IsReplay entries backend) }
    ensures damaged { HasCleanDisk (state S.Store log.new.conn) → IfOk result (λ backend.
        (entries : List LogEntryValue) → HasOnlyRowsOf (state S.Store log.old.conn) entries
        → (count : ℕ) × IsReplay (take count entries) backend) }
    ensures counted { HasCleanDisk (state S.Store log.new.conn) → IfOk result (λ backend.
        (entries : List LogEntryValue) → CountsRowsOf (state S.Store log.old.conn) entries
        → IsReplay entries backend) }
    ensures whole { IfOk result (λ backend. backend.id_length ≡ digest_length) }
    ensures kept { OnOk result (Keeps (StoresEntries S.Store) log.old.conn log.new.conn) }
    ensures clean { HasCleanDisk (state S.Store log.new.conn)
        → HasCleanDisk (state S.Store log.old.conn) }
    ensures error { HasCleanDisk (state S.Store log.new.conn) → IfErr result (λ e.
        FailsToRead S.Store log.old.conn log.new.conn e
        ⊎ FailsToReplay S.Store log.old.conn log.new.conn e) }
    ensures cause { HasCleanDisk (state S.Store log.new.conn) → IfErr result (λ e. OnMalformed e
        (IsDecodingError S.Store ⟦<CopyHistory as ReadContent>⟧.errors
        ⟦<Tree as ReadContent>⟧.errors ⟦<Commit as ReadContent>⟧.errors
        log.old.conn log.new.conn)) }
{
    let Replayed { backend, count } = replay_rows(alloc, &mut log.conn)?;
    check_count(&mut log.conn, count)?;
    match backend {
        Ok(backend) => Ok(backend),
        Err(error) => Err(OpenError::from(error)),
    }
}

// Puts a backend with whole digests beside its log.
fn beside<S: Alter>(backend: MemoryBackend, log: SqliteLog<S>) -> Mirrored<SqliteLog<S>>
    requires { backend.id_length ≡ digest_length }
    ensures backend { result.backend ≡ backend }
    ensures log { result.log ≡ log }
{
    match Mirrored::new(backend, log) {
        Ok(store) => store,
        Err(_) => unreachable!(),
    }
}

/// Opens the backend whose log is in a database: replays the entries into a backend in memory, each
/// as its row is read. Creates the log in an empty database. The backend has whole digests as ids.
/// Fails as `SqliteLog::over`, `read_entries` and `replay` do, in this order; an error returns the
/// connection too.
pub fn open_store<S: Alter>(
    alloc: Global,
    conn: Connection<S>,
) -> Result<Mirrored<SqliteLog<S>>, (OpenError, Connection<S>)>
    // The table of the log is there or was created, and the backend has the objects of its entries.
    ensures ok { IfOk result (λ store. HasCleanDisk (state S.Store store.log.conn)
        → IsOpened S.Store conn store.log.conn store.backend) }
    // If the table has exactly the rows of these entries, the backend stores their objects.
    ensures entries { IfOk result (λ store. HasCleanDisk (state S.Store store.log.conn)
        → (entries : List LogEntryValue) → WasNewOrContains S.Store conn entries
        → IsReplay entries store.backend) }
    // If rows of these entries were lost, repeated or put in another order, the backend stores the
    // objects of the first entries, and none is skipped.
    ensures damaged { IfOk result (λ store. HasCleanDisk (state S.Store store.log.conn)
        → (entries : List LogEntryValue) → HasOnlyRowsOf (state S.Store conn) entries
        → (count : ℕ) × IsReplay (take count entries) store.backend) }
    // If SQLite counted these entries, the backend stores the objects of all of them, though rows
    // were lost: then opening fails.
    ensures counted { IfOk result (λ store. HasCleanDisk (state S.Store store.log.conn)
        → (entries : List LogEntryValue) → CountsRowsOf (state S.Store conn) entries
        → IsReplay entries store.backend) }
    // Opening changes no entry: after a crash at this moment the table has the rows of all of them.
    ensures kept { IfOk result (λ store. (entries : List LogEntryValue)
        → WasNewOrContains S.Store conn entries
        → StoresEntries S.Store store.log.conn entries) }
    // If the disk has returned only what was written to it up to the end of the call, it had at
    // the start.
    ensures clean { IfOk result (λ store. HasCleanDisk (state S.Store store.log.conn)
        → HasCleanDisk (state S.Store conn)) }
    // An error is that of creating the table, of reading its rows, or of replaying their entries.
    ensures error { IfErr result (λ e. HasCleanDisk (state S.Store e.1)
        → IsOpenError S.Store conn e.1 e.0) }
    // The reason and the offset of a malformed entry are those of decoding its bytes as its kind.
    ensures cause { IfErr result (λ e. HasCleanDisk (state S.Store e.1)
        → IsOpenCause S.Store ⟦<CopyHistory as ReadContent>⟧.errors
        ⟦<Tree as ReadContent>⟧.errors ⟦<Commit as ReadContent>⟧.errors conn e.1 e.0) }
    // A database of another program is not opened.
    ensures own { OnOk result (¬ (IsForeign (state S.Store conn).now.schema)) }
{
    let mut log = match SqliteLog::over(conn) {
        Ok(log) => log,
        Err(error) => return Err(error),
    };
    match replay_log(alloc, &mut log) {
        Ok(backend) => Ok(beside(backend, log)),
        Err(error) => Err((error, log.into_connection())),
    }
}

/// Copies SQLite's write-ahead log into the database file: a copy of that file is a backup then.
/// Returns both files. Fails with `Sqlite`, or with `Memory` if memory runs out; the files are
/// closed then.
pub fn close_database<D: Disk + Drop>(conn: Connection<FileStore<D>>) -> Result<Files<D>, OpenError>
    // Whoever opens the files finds the entries of the log.
    ensures entries { IfOk result (λ files. (entries : List LogEntryValue)
        → ContainsEntries over_files conn entries → FilesContain D.Disk files entries) }
    // Whoever opens what a crash leaves of the files finds the entries.
    ensures crash { IfOk result (λ files. (entries : List LogEntryValue)
        → ContainsEntries over_files conn entries → CrashContains D.Disk files entries) }
    // Whoever opens a copy of the database file finds the entries.
    ensures backup { IfOk result (λ files. (entries : List LogEntryValue)
        → ContainsEntries over_files conn entries → IsBackup D.Disk files entries) }
    // The file of the write-ahead log can be used again.
    ensures log { IfOk result (λ files. IsTrue (D.Disk.is_usable files.log)) }
    // The database file can be used again.
    ensures db { IfOk result (λ files. IsTrue (D.Disk.is_usable files.db)) }
    // An error is that of SQLite.
    ensures error { IfErr result (λ e. (cause : Error) × (e ≡ sqlite_error cause)) }
{
    let _schema = conn.schema();
    match conn.close_files() {
        Ok(files) => Ok(files),
        Err((error, store)) => {
            drop(store.close());
            Err(OpenError::from(error))
        }
    }
}

/// Closes a store: the database file has all its objects then, and a copy of it is a backup.
/// Returns the files. Fails as `close_database` does.
pub fn close_store<D: Disk + Drop>(
    store: Mirrored<SqliteLog<FileStore<D>>>,
) -> Result<Files<D>, OpenError>
    // Whoever opens the files finds the entries of the log.
    ensures entries { IfOk result (λ files. (entries : List LogEntryValue)
        → ContainsEntries over_files store.log.conn entries
        → FilesContain D.Disk files entries) }
    // Whoever opens what a crash leaves of the files finds the entries.
    ensures crash { IfOk result (λ files. (entries : List LogEntryValue)
        → ContainsEntries over_files store.log.conn entries
        → CrashContains D.Disk files entries) }
    // Whoever opens a copy of the database file finds the entries.
    ensures backup { IfOk result (λ files. (entries : List LogEntryValue)
        → ContainsEntries over_files store.log.conn entries
        → IsBackup D.Disk files entries) }
    // The file of the write-ahead log can be used again.
    ensures log { IfOk result (λ files. IsTrue (D.Disk.is_usable files.log)) }
    // The database file can be used again.
    ensures db { IfOk result (λ files. IsTrue (D.Disk.is_usable files.db)) }
    // An error is that of SQLite.
    ensures error { IfErr result (λ e. (cause : Error) × (e ≡ sqlite_error cause)) }
{
    let (_, log) = store.into_parts();
    close_database(log.into_connection())
}
