//! Proved callers: a commit that is read from a database by a later process.
ghost use Rattle.std.specs.Prelude.{◌≡◌, ℕ, IsTrue, List, All, Contains, Some, take};
ghost use Rattle.std.specs.Prelude.{IfOk, IfErr, OnOk};
ghost use Rattle.sqlite.specs.Files.{file_state, over_files};
ghost use Rattle.sqlite.specs.Held.{state};
ghost use Rattle.sqlite.specs.State.{HasCleanDisk};
ghost use Rattle.jj_content.specs.Blake2b.{blake2b};
ghost use Rattle.jj_backend.specs.Contents.{IsCommit, commit_content};
ghost use Rattle.jj_backend.specs.Objects.{commit_object};
ghost use Rattle.jj_backend.specs.Records.{CommitValue};
ghost use Rattle.jj_mirror.specs.Entries.{LogEntryValue, entry_of};
ghost use Rattle.jj_mirror.specs.Logs.{WithEntry};
ghost use Rattle.jj_mirror.specs.Replays.{IsReplay, IsReplayCause};
ghost use Rattle.jj_sqlite.specs.Inserts.{ContainsEntries, StoresEntries, WasNewOrContains};
ghost use Rattle.jj_sqlite.specs.Rows.{HasDigest};
ghost use Rattle.jj_sqlite.specs.Faults.{HasFault};
ghost use Rattle.jj_sqlite.specs.Closing.{CrashContains, FilesContain, IsBackup};
ghost use Rattle.jj_sqlite.specs.Opening.{IsOpened, OnMalformed};
ghost use Rattle.jj_sqlite.specs.Tables.{CountsRowsOf, HasOnlyRowsOf};
ghost use Rattle.jj_sqlite_tests.specs.SavedFiles.{HasWith, IsLoaded, SavesEntry};
ghost use Rattle.jj_trees.specs.MemoryObjects.{MemoryBackendValue, objects_of};

use jj_backend::backend::{Backend, BackendResult, Commit, CommitId, CopyHistory, NoSigner, Tree};
use jj_decode::read_content::ReadContent;
use jj_mirror::mirrored::Mirrored;
use jj_sqlite::error::OpenError;
use jj_sqlite::sqlite_log::SqliteLog;
use jj_sqlite::store::{close_database, open_store};
use sqlite::{Alter, Connection, FileStore, Options};
use sqlite_disk::{Disk, Files};
use std::alloc::Global;

/// Writes a commit to a store that is the replay of its log. If the log has the commit's entry, it
/// stays as it was; else the entry is appended.
pub fn log_commit<S: Alter>(
    alloc: Global,
    store: &mut Mirrored<SqliteLog<S>>,
    commit: Commit,
) -> BackendResult<CommitId>
    // The ID is the BLAKE2b-512 digest of the content of the commit.
    ensures id { IfOk result (λ id. id ≡ blake2b (commit_content commit)) }
    // The fields of a stored commit fit their types.
    ensures value { OnOk result (IsCommit commit) }
    // If the log has the entry of the commit it is unchanged, else the entry is appended.
    ensures once { OnOk result ((entries : List LogEntryValue)
        → StoresEntries S.Store store.old.log.conn entries → IsReplay entries store.old.backend
        → WithEntry (StoresEntries S.Store store.new.log.conn) entries
        (entry_of (commit_object commit))) }
    // The log has its old entries and that of the commit.
    ensures logged { OnOk result ((entries : List LogEntryValue)
        → StoresEntries S.Store store.old.log.conn entries
        → (HasCleanDisk (state S.Store store.old.log.conn)
        → IsReplay entries store.old.backend)
        → HasWith (StoresEntries S.Store store.new.log.conn) entries
        (entry_of (commit_object commit))) }
{
    let stored = store.write_commit(alloc, commit, None::<&mut NoSigner>)?;
    let (id, _) = stored;
    Ok(id)
}

/// Opens a store over a database and writes a commit, whose row is then in the table of the log:
/// one that it had, or a new one.
/// Returns the id that the write returned, the commit's digest, and the connection.
pub fn write_stored<S: Alter>(
    alloc: Global,
    conn: Connection<S>,
    commit: Commit,
) -> (Result<CommitId, OpenError>, Connection<S>)
    // The ID is the BLAKE2b-512 digest of the content of the commit.
    ensures id { IfOk result.0 (λ id. id ≡ blake2b (commit_content commit)) }
    // The fields of a stored commit fit their types.
    ensures value { OnOk result.0 (IsCommit commit) }
    // The table has the rows of its old entries and that of the commit.
    ensures logged { OnOk result.0 ((entries : List LogEntryValue)
        → WasNewOrContains S.Store conn entries → HasWith (StoresEntries S.Store result.1)
        entries (entry_of (commit_object commit))) }
{
    let mut store = match open_store(alloc, conn) {
        Ok(store) => store,
        Err((error, conn)) => return (Err(error), conn),
    };
    let written = log_commit(alloc, &mut store, commit);
    let (_, log) = store.into_parts();
    match written {
        Ok(id) => (Ok(id), log.into_connection()),
        Err(error) => (Err(OpenError::Backend(error)), log.into_connection()),
    }
}

/// Opens a store over a database and reads a commit: that of an entry whose row is in the table, if
/// the id is its digest.
pub fn read_stored<S: Alter>(
    alloc: Global,
    conn: Connection<S>,
    id: &CommitId,
) -> (Result<Commit, OpenError>, Connection<S>)
    // If the table has the row of a commit, reading its digest returns this commit.
    ensures value { HasCleanDisk (state S.Store result.1) → IfOk result.0 (λ read.
        (entries : List LogEntryValue) → WasNewOrContains S.Store conn entries
        → (commit : CommitValue) → IsCommit commit
        → Contains entries (entry_of (commit_object commit))
        → id.now ≡ blake2b (commit_content commit) → read ≡ commit) }
    // The backend of the log's rows has this commit under the id.
    ensures found { HasCleanDisk (state S.Store result.1) → IfOk result.0 (λ read.
        (backend : MemoryBackendValue) × IsOpened S.Store conn result.1 backend
        × ((objects_of backend).commits id.now ≡ Some read)) }
    // If the disk has returned only what was written to it up to the end, it had at the start.
    ensures clean { IfOk result.0 (λ _. HasCleanDisk (state S.Store result.1)
        → HasCleanDisk (state S.Store conn)) }
{
    let store = match open_store(alloc, conn) {
        Ok(store) => store,
        Err((error, conn)) => return (Err(error), conn),
    };
    let (backend, log) = store.into_parts();
    match backend.read_commit(alloc, id) {
        Ok(commit) => (Ok(commit), log.into_connection()),
        Err(error) => (Err(OpenError::Backend(error)), log.into_connection()),
    }
}

/// Writes a commit to the files of a database and closes them: whoever opens the files finds its
/// entry in the log, also after a crash or in a copy of the database file. Returns the id that the
/// write returned, and the files.
pub fn save_commit<D: Disk + Drop>(
    alloc: Global,
    conn: Connection<FileStore<D>>,
    commit: Commit,
) -> Result<(CommitId, Files<D>), OpenError>
    // The ID is the BLAKE2b-512 digest of the content of the commit.
    ensures id { IfOk result (λ saved. saved.0 ≡ blake2b (commit_content commit)) }
    // The fields of a stored commit fit their types.
    ensures value { OnOk result (IsCommit commit) }
    // A connection that is opened on the closed files finds the old entries and that of the commit.
    ensures logged { IfOk result (λ saved. (entries : List LogEntryValue)
        → WasNewOrContains over_files conn entries
        → HasWith (FilesContain D.Disk saved.1) entries (entry_of (commit_object commit))) }
    // After a crash the database in the closed files has these entries too.
    ensures crash { IfOk result (λ saved. (entries : List LogEntryValue)
        → WasNewOrContains over_files conn entries
        → HasWith (CrashContains D.Disk saved.1) entries (entry_of (commit_object commit))) }
    // The database file by itself has these entries too, now and after a crash.
    ensures backup { IfOk result (λ saved. (entries : List LogEntryValue)
        → WasNewOrContains over_files conn entries
        → HasWith (IsBackup D.Disk saved.1) entries (entry_of (commit_object commit))) }
    ensures log { IfOk result (λ saved. IsTrue (D.Disk.is_usable saved.1.log)) }
    ensures db { IfOk result (λ saved. IsTrue (D.Disk.is_usable saved.1.db)) }
{
    let (written, conn) = write_stored(alloc, conn, commit);
    let id = written?;
    let files = close_database(conn)?;
    Ok((id, files))
}

/// Opens the files of a database, as a later process does, and reads a commit: that of an entry in
/// the log, if the id is its digest.
pub fn load_commit<D: Disk + Drop>(
    alloc: Global,
    files: Files<D>,
    options: Options,
    id: &CommitId,
) -> Result<(Commit, Connection<FileStore<D>>), OpenError>
    requires log { IsTrue (D.Disk.is_usable files.log) }
    requires db { IsTrue (D.Disk.is_usable files.db) }
    // If the files have the row of a commit, reading its digest returns this commit.
    ensures value { IfOk result (λ loaded. HasCleanDisk (file_state loaded.1)
        → (entries : List LogEntryValue) → FilesContain D.Disk files entries
        → (commit : CommitValue) → IsCommit commit
        → Contains entries (entry_of (commit_object commit))
        → id.now ≡ blake2b (commit_content commit) → loaded.0 ≡ commit) }
    // A connection found the log in these files, and its replay has this commit under the id.
    ensures found { IfOk result (λ loaded. HasCleanDisk (file_state loaded.1)
        → IsLoaded D.Disk files loaded.1 id.now loaded.0) }
{
    let conn = match Connection::open_files(alloc, files, options) {
        Ok(conn) => conn,
        Err((error, _)) => return Err(OpenError::from(error)),
    };
    let (read, conn) = read_stored(alloc, conn, id);
    Ok((read?, conn))
}

/// Writes a commit to the files of a database and closes them. Opens them again and reads the
/// commit by the id that the write returned.
pub fn reread_commit<D: Disk + Drop>(
    alloc: Global,
    conn: Connection<FileStore<D>>,
    commit: Commit,
    options: Options,
) -> Result<(Commit, Connection<FileStore<D>>), OpenError>
    // The commit that is read is the one that was written.
    ensures commit { IfOk result (λ reread. HasCleanDisk (file_state reread.1)
        → (entries : List LogEntryValue) → WasNewOrContains over_files conn entries
        → reread.0 ≡ commit) }
    // The closed files have the commit's entry, and the commit is read from them by its digest.
    ensures files { IfOk result (λ reread. (files : Files D)
        × ((entries : List LogEntryValue) → WasNewOrContains over_files conn entries
        → SavesEntry D.Disk files entries (entry_of (commit_object commit)))
        × (HasCleanDisk (file_state reread.1)
        → IsLoaded D.Disk files reread.1 (blake2b (commit_content commit)) reread.0)) }
{
    let saved = save_commit(alloc, conn, commit)?;
    let (id, files) = saved;
    load_commit(alloc, files, options, &id)
}

/// Opens a store over a database. If that succeeds, each entry in the log has the digest of its
/// object as its id; else the log has the fault that the error names.
pub fn check_objects<S: Alter>(
    alloc: Global,
    conn: Connection<S>,
) -> (Result<(), OpenError>, Connection<S>)
    // After a success the ID of each entry is the digest of its object.
    ensures ok { HasCleanDisk (state S.Store result.1) → OnOk result.0
        ((entries : List LogEntryValue) → WasNewOrContains S.Store conn entries
        → All HasDigest entries) }
    // An error names a fault that the entries have.
    ensures error { HasCleanDisk (state S.Store conn) → HasCleanDisk (state S.Store result.1)
        → IfErr result.0 (λ e. (entries : List LogEntryValue)
        → WasNewOrContains S.Store conn entries → HasFault entries e) }
    // The reason and the offset of a malformed entry are those of decoding its bytes as its kind.
    ensures reason { HasCleanDisk (state S.Store conn) → HasCleanDisk (state S.Store result.1)
        → IfErr result.0 (λ e. (entries : List LogEntryValue)
        → WasNewOrContains S.Store conn entries → OnMalformed e (IsReplayCause
        ⟦<CopyHistory as ReadContent>⟧.errors ⟦<Tree as ReadContent>⟧.errors
        ⟦<Commit as ReadContent>⟧.errors entries)) }
{
    match open_store(alloc, conn) {
        Ok(store) => {
            let (_, log) = store.into_parts();
            (Ok(()), log.into_connection())
        }
        Err((error, conn)) => (Err(error), conn),
    }
}

/// Opens a store over a database that may have lost rows of its log. If that succeeds, the backend
/// has the objects of the first entries, and none of them is skipped; it has those of all entries
/// if SQLite counted them.
pub fn open_damaged<S: Alter>(
    alloc: Global,
    conn: Connection<S>,
) -> Result<Mirrored<SqliteLog<S>>, (OpenError, Connection<S>)>
    // The backend has the objects of the first entries, and none of them is skipped.
    ensures first { IfOk result (λ store. HasCleanDisk (state S.Store store.log.conn)
        → (entries : List LogEntryValue) → HasOnlyRowsOf (state S.Store conn) entries
        → (count : ℕ) × IsReplay (take count entries) store.backend) }
    // If SQLite counted all entries, the backend has the objects of all.
    ensures all { IfOk result (λ store. HasCleanDisk (state S.Store store.log.conn)
        → (entries : List LogEntryValue) → CountsRowsOf (state S.Store conn) entries
        → IsReplay entries store.backend) }
{
    open_store(alloc, conn)
}
