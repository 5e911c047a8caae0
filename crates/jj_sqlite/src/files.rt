//! Opening a database file that another process may have open. A file that cannot be opened stays
//! as it was, and so does its directory.
ghost use Rattle.std.specs.Prelude.{◌≡◌, ◌⊎◌, IfOk, IfErr};
ghost use Rattle.sqlite.specs.Files.{file_state, IsOpened};
ghost use Rattle.sqlite.specs.State.{HasCleanDisk};
ghost use Rattle.jj_sqlite.specs.Opening.{sqlite_error};
ghost use Rattle.jj_sqlite.specs.StoreFiles.{FailsAsStore, IsStoreInFile};

use crate::error::OpenError;
use crate::sqlite_log::SqliteLog;
use crate::store::open_store;
use jj_mirror::mirrored::Mirrored;
use sqlite::{Connection, Error, ErrorCode, File, FileStore, Leftover, Unknown};
use sqlite_disk::Disk;
use std::alloc::{AllocError, Global};
use std::io::ErrorKind;
use std::time::Duration;
use std::{fs, thread};

// Milliseconds between two attempts.
const PAUSE: u64 = 10;

const NO_MEMORY: Error = Error::SqliteFailure(ErrorCode::OutOfMemory);

// Bytes of the shortest write-ahead log with a page: its header, that of a frame, and the page.
const SHORTEST_LOG: u64 = 32 + 24 + 512;

fn is_missing(rt: &HostRuntime, path: &str) -> bool {
    match fs::symlink_metadata(rt, path) {
        Ok(_) => false,
        Err(error) => error.kind() == ErrorKind::NotFound,
    }
}

fn if_missing(rt: &HostRuntime, path: String) -> Option<String> {
    if is_missing(rt, path.as_str()) {
        Some(path)
    } else {
        None
    }
}

fn remove_if_shorter(rt: &HostRuntime, path: &str, length: u64) {
    match fs::symlink_metadata(rt, path) {
        Ok(found) if found.is_file() && found.len() < length => {
            let _ = fs::remove_file(rt, path);
        }
        _ => {}
    }
}

// The paths of a database and of its write-ahead log, if there is no file.
#[derive(Drop)]
struct MissingFiles {
    database: Option<String>,
    log: Option<String>,
}

impl MissingFiles {
    fn at(rt: &HostRuntime, path: &str) -> Result<Self, AllocError> {
        let alloc = rt.alloc();
        let database = match fs::canonicalize(rt, path) {
            Ok(real) => String::from_str(alloc, real.as_str())?,
            Err(_) => String::from_str(alloc, path)?,
        };
        let log = format!(in alloc; "{database}-wal")?;
        Ok(MissingFiles {
            database: if_missing(rt, database),
            log: if_missing(rt, log),
        })
    }

    // Removes the files that were made since and have no page. The database has to be locked.
    fn remove_empty(&self, rt: &HostRuntime) {
        if let Some(log) = &self.log {
            remove_if_shorter(rt, log.as_str(), SHORTEST_LOG);
            if let Some(database) = &self.database
                && is_missing(rt, log.as_str())
            {
                remove_if_shorter(rt, database.as_str(), 1);
                // A process that opened the file before it was removed finds it locked, and then
                // opens the path again.
                thread::sleep(rt, Duration::from_millis(PAUSE));
            }
        }
    }
}

// Closes a database that could not be opened.
fn give_up<D: Disk + Drop>(rt: &HostRuntime, missing: &MissingFiles, left: Option<Leftover<D>>) {
    if left.is_some() {
        missing.remove_empty(rt);
    }
}

// Closes a database that is not the one of a store.
fn close_refused<D: Disk + Drop>(
    rt: &HostRuntime,
    missing: &MissingFiles,
    _conn: Connection<FileStore<D>>,
) {
    missing.remove_empty(rt);
}

fn open_once(
    rt: &HostRuntime,
    path: &str,
    missing: &MissingFiles,
) -> Result<Connection<FileStore<File>>, Error>
    ensures opened { IfOk result (λ conn. HasCleanDisk (file_state conn) → IsOpened conn) }
{
    match Connection::open_from(rt, path, false, Unknown) {
        Ok(conn) => Ok(conn),
        Err((error, left)) => {
            give_up(rt, missing, left);
            Err(error)
        }
    }
}

// Returns whether the file has one byte that no unfinished creation of a database writes. SQLite
// takes each file of one byte for such a creation.
fn is_other_byte(rt: &HostRuntime, path: &str) -> bool {
    match fs::metadata(rt, path) {
        Ok(found) if found.is_file() && found.len() == 1 => match fs::read(rt, path) {
            Ok(bytes) => bytes.as_slice().first() != Some(&0),
            Err(_) => false,
        },
        _ => false,
    }
}

fn open_unlocked(
    rt: &HostRuntime,
    path: &str,
    milliseconds: u64,
    missing: &MissingFiles,
) -> Result<Connection<FileStore<File>>, Error>
    ensures opened { IfOk result (λ conn. HasCleanDisk (file_state conn) → IsOpened conn) }
{
    if missing.log.is_some() && is_other_byte(rt, path) {
        return Err(Error::SqliteFailure(ErrorCode::NotADatabase));
    }
    for _ in 0..milliseconds / PAUSE {
        match open_once(rt, path, missing) {
            Err(Error::SqliteFailure(ErrorCode::DatabaseBusy)) => {
                thread::sleep(rt, Duration::from_millis(PAUSE));
            }
            Ok(conn) => return Ok(conn),
            Err(cause) => return Err(cause),
        }
    }
    open_once(rt, path, missing)
}

/// Opens the database file at a path, and creates it if there is none. While another process has it
/// open, tries again every 10 ms for so many milliseconds. Fails with `Sqlite` if the file is still
/// locked, is no database or cannot be opened, and with `Memory` if memory runs out.
pub fn open_database(
    rt: &HostRuntime,
    path: &str,
    milliseconds: u64,
) -> Result<Connection<FileStore<File>>, OpenError>
    // If the disk returned what was written to it, the connection is open.
    ensures opened { IfOk result (λ conn. HasCleanDisk (file_state conn) → IsOpened conn) }
    // An error is that of SQLite.
    ensures error { IfErr result (λ e. (cause : Error) × (e ≡ sqlite_error cause)) }
{
    let missing = match MissingFiles::at(rt, path) {
        Ok(missing) => missing,
        Err(_) => return Err(OpenError::from(NO_MEMORY)),
    };
    match open_unlocked(rt, path, milliseconds, &missing) {
        Ok(conn) => Ok(conn),
        Err(cause) => Err(OpenError::from(cause)),
    }
}

// Opens the store of a database.
fn open_on<D: Disk + Drop>(
    alloc: Global,
    conn: Connection<FileStore<D>>,
) -> Result<Mirrored<SqliteLog<FileStore<D>>>, (OpenError, Connection<FileStore<D>>)>
    ensures ok { (HasCleanDisk (file_state conn) → IsOpened conn)
        → IfOk result (λ store. IsStoreInFile store.log.conn store.backend) }
    ensures error { (HasCleanDisk (file_state conn) → IsOpened conn)
        → IfErr result (λ e. FailsAsStore D.Disk e.0) }
{
    match open_store(alloc, conn) {
        Ok(store) => Ok(store),
        Err(error) => Err(error),
    }
}

/// Opens the store in the database file at a path, and creates both if there is no file. Waits as
/// `open_database` does, and fails as that and `open_store` do. After an error there is no new file
/// beside the database, except a partial new one on a full disk.
pub fn open_store_file(
    rt: &HostRuntime,
    path: &str,
    milliseconds: u64,
) -> Result<Mirrored<SqliteLog<FileStore<File>>>, OpenError>
    // The store has the entries of a database that was opened.
    ensures ok { IfOk result (λ store. IsStoreInFile store.log.conn store.backend) }
    // An error is that of SQLite, or of opening the store in a database that was opened.
    ensures error { IfErr result (λ e. ((cause : Error) × (e ≡ sqlite_error cause))
        ⊎ FailsAsStore ⟦<File as Disk>⟧ e) }
{
    let missing = match MissingFiles::at(rt, path) {
        Ok(missing) => missing,
        Err(_) => return Err(OpenError::from(NO_MEMORY)),
    };
    let conn = match open_unlocked(rt, path, milliseconds, &missing) {
        Ok(conn) => conn,
        Err(cause) => return Err(OpenError::from(cause)),
    };
    match open_on(rt.alloc(), conn) {
        Ok(store) => Ok(store),
        Err((error, conn)) => {
            close_refused(rt, &missing, conn);
            Err(error)
        }
    }
}
