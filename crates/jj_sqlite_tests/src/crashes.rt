//! Proved callers: the commits that a store has after a crash.
ghost use Rattle.std.specs.Prelude.{◌⊎◌, ℕ, List, take, map, IfOk, OnOk, OnErr};
ghost use Rattle.sqlite_wal.specs.Recovery.{Image};
ghost use Rattle.sqlite.specs.Files.{over_files};
ghost use Rattle.sqlite.specs.Held.{state};
ghost use Rattle.sqlite.specs.Start.{FindsIn};
ghost use Rattle.sqlite.specs.State.{HasCleanDisk, IsLive, Opens};
ghost use Rattle.sqlite_trees.specs.View.{IsClean};
ghost use Rattle.sqlite_store.specs.FileStore.{view};
ghost use Rattle.jj_mirror.specs.Entries.{LogEntryValue};
ghost use Rattle.jj_mirror.specs.Logs.{WithEntries, WithEntry};
ghost use Rattle.jj_mirror.specs.Replays.{IsReplay};
ghost use Rattle.jj_sqlite.specs.Inserts.{StoresEntries};
ghost use Rattle.jj_sqlite_tests.specs.SavedFiles.{CrashLeaves, HasReplayAfterCrash, MayContain, file_entry};

use jj_backend::backend::{Backend, BackendResult};
use jj_mirror::mirrored::Mirrored;
use jj_paths::repo_path::RepoPath;
use jj_sqlite::error::OpenError;
use jj_sqlite::sqlite_log::SqliteLog;
use jj_sqlite::store::open_store;
use sqlite::{Alter, Connection, FileStore};
use sqlite_disk::Disk;
use std::alloc::Global;

// Writes a file to a store that is the replay of its log.
fn log_file<S: Alter>(
    alloc: Global,
    store: &mut Mirrored<SqliteLog<S>>,
    contents: &[u8],
) -> BackendResult<()>
    ensures ok { OnOk result ((entries : List LogEntryValue)
        → StoresEntries S.Store store.old.log.conn entries → IsReplay entries store.old.backend
        → WithEntry (λ all. StoresEntries S.Store store.new.log.conn all
        × IsReplay all store.new.backend) entries (file_entry contents.now)) }
    ensures err { OnErr result ((entries : List LogEntryValue)
        → StoresEntries S.Store store.old.log.conn entries → IsReplay entries store.old.backend
        → StoresEntries S.Store store.new.log.conn entries
        ⊎ WithEntry (StoresEntries S.Store store.new.log.conn) entries
        (file_entry contents.now)) }
{
    store.write_file(alloc, RepoPath::root(), contents)?;
    Ok(())
}

/// Writes files to a store that is the replay of its log, up to the first write that fails. The log
/// has the entries that it had and, at its end, those of the written files that it lacked, each
/// once and none of them skipped. A crash leaves all of them and at most one more.
pub fn write_files<S: Alter>(
    alloc: Global,
    store: &mut Mirrored<SqliteLog<S>>,
    files: &[Vec<u8>],
) -> BackendResult<()>
    // After a success the log has its old entries and then those of the files that it lacked, each
    // once, and the backend is their replay.
    ensures ok { OnOk result ((entries : List LogEntryValue)
        → StoresEntries S.Store store.old.log.conn entries → IsReplay entries store.old.backend
        → WithEntries (λ all. StoresEntries S.Store store.new.log.conn all
        × IsReplay all store.new.backend)
        entries (map (λ file. file_entry file.items) files.now)) }
    // After an error the log has its old entries and then those of some first files that it lacked,
    // each once.
    ensures err { OnErr result ((entries : List LogEntryValue)
        → StoresEntries S.Store store.old.log.conn entries → IsReplay entries store.old.backend
        → (count : ℕ) × WithEntries (StoresEntries S.Store store.new.log.conn) entries
        (map (λ file. file_entry file.items) (take count files.now))) }
{
    for contents in files {
        log_file(alloc, store, contents)?;
    }
    Ok(())
}

/// Gives up a connection without closing its files. Whoever opens what a crash at this moment may
/// leave finds all entries of the log, and at most one more, whose write failed.
pub fn abandon<D: Disk + Drop>(conn: Connection<FileStore<D>>) -> FileStore<D>
    // Each content of the files that a crash may leave is the database of a log with these entries,
    // and at most one more, whose write failed.
    ensures { (entries : List LogEntryValue) → StoresEntries over_files conn entries
        → IsClean (view result) → CrashLeaves result entries }
{
    conn.into_store()
}

/// Opens the store of a connection that was just opened on what a crash left. The backend has the
/// objects of all entries of the log, and of at most one more, whose write failed.
pub fn open_after_crash<S: Alter>(
    alloc: Global,
    conn: Connection<S>,
) -> Result<Mirrored<SqliteLog<S>>, (OpenError, Connection<S>)>
    // On a disk that returns what it stored, the backend has the objects of these entries, and of
    // at most one more, whose write failed.
    ensures { IfOk result (λ store. HasCleanDisk (state S.Store store.log.conn)
        → (image : Image) → FindsIn image (state S.Store conn) → Opens (state S.Store conn)
        → IsLive (state S.Store conn) → (entries : List LogEntryValue)
        → MayContain image entries → HasReplayAfterCrash entries store.backend) }
{
    open_store(alloc, conn)
}
