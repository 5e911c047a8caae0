//! Proved callers: a commit that is written to a store in a database file, and read again.
ghost use Rattle.std.specs.Prelude.{◌≡◌, List, IfOk};
ghost use Rattle.sqlite.specs.Files.{file_state, over_files};
ghost use Rattle.sqlite.specs.State.{HasCleanDisk};
ghost use Rattle.jj_content.specs.Blake2b.{blake2b};
ghost use Rattle.jj_backend.specs.Contents.{commit_content};
ghost use Rattle.jj_mirror.specs.Entries.{LogEntryValue};
ghost use Rattle.jj_mirror.specs.Replays.{IsReplay};
ghost use Rattle.jj_sqlite.specs.Inserts.{StoresEntries};
ghost use Rattle.jj_sqlite_tests.specs.SavedFiles.{IsLoadedFromFiles, IsRereadFrom};

use crate::callers::{load_commit, log_commit};
use jj_backend::backend::Commit;
use jj_mirror::mirrored::Mirrored;
use jj_sqlite::error::OpenError;
use jj_sqlite::files::open_store_file;
use jj_sqlite::sqlite_log::SqliteLog;
use jj_sqlite::store::close_store;
use sqlite::{Connection, File, FileStore, Options};
use sqlite_disk::Disk;
use std::alloc::Global;

/// Writes a commit to a store that is the replay of its log, and closes the store. Opens its files
/// again and reads the commit by the id that the write returned.
pub fn reread_in_store<D: Disk + Drop>(
    alloc: Global,
    mut store: Mirrored<SqliteLog<FileStore<D>>>,
    commit: Commit,
    options: Options,
) -> Result<(Commit, Connection<FileStore<D>>), OpenError>
    // The commit that is read is the one that was written.
    ensures commit { IfOk result (λ reread. HasCleanDisk (file_state reread.1)
        → (entries : List LogEntryValue) → StoresEntries over_files store.log.conn entries
        → (HasCleanDisk (file_state store.log.conn) → IsReplay entries store.backend)
        → reread.0 ≡ commit) }
    // The commit is read from the closed files by its digest.
    ensures found { IfOk result (λ reread. HasCleanDisk (file_state reread.1)
        → IsLoadedFromFiles D.Disk reread.1 (blake2b (commit_content commit)) reread.0) }
{
    let id = match log_commit(alloc, &mut store, commit) {
        Ok(id) => id,
        Err(error) => return Err(OpenError::Backend(error)),
    };
    let files = close_store(store)?;
    load_commit(alloc, files, options, &id)
}

/// Opens the store in the database file at a path, writes a commit and closes the store. Opens its
/// files again and reads the commit by the id that the write returned.
pub fn reread_in_file(
    rt: &HostRuntime,
    path: &str,
    commit: Commit,
    options: Options,
) -> Result<(Commit, Connection<FileStore<File>>), OpenError>
    // If the database at the path was empty or a store's, the commit is the one that was written.
    ensures commit { IfOk result (λ reread. HasCleanDisk (file_state reread.1)
        → IsRereadFrom ⟦<File as Disk>⟧ commit reread.0) }
    // The commit is read from the closed files by its digest.
    ensures found { IfOk result (λ reread. HasCleanDisk (file_state reread.1)
        → IsLoadedFromFiles ⟦<File as Disk>⟧ reread.1 (blake2b (commit_content commit)) reread.0) }
{
    let store = open_store_file(rt, path, 1000)?;
    reread_in_store(rt.alloc(), store, commit, options)
}
