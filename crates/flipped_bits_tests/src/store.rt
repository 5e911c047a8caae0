//! A store with a few files, over database files in memory.
ghost use Rattle.std.specs.Prelude.{IsTrue, IfOk};
ghost use Rattle.sqlite_disk.specs.Memory.{memory_is_usable};

use jj_backend::backend::{Backend, BackendError, FileId};
use jj_mirror::digests::file_digest;
use jj_mirror::mirrored::Mirrored;
use jj_paths::repo_path::RepoPath;
use jj_sqlite::error::OpenError;
use jj_sqlite::sqlite_log::SqliteLog;
use jj_sqlite::store::{close_store, open_store};
use sqlite::{Connection, FileStore, Options};
use sqlite_disk::{Disk, Files, Memory};
use std::alloc::{AllocError, AllocFailed, Global};
use std::io;
use thiserror::Error;

// The contents of the files, in the order in which they are written.
pub(crate) static CONTENTS: [&str; 2] = ["one", "two"];

// The salts of the write-ahead log follow from it.
const SEED: u64 = 7;

// An error of the program itself.
#[derive(Debug, Drop, Error)]
pub(crate) enum Fault {
    #[error("{0}")]
    Open(OpenError),
    #[error("{0}")]
    Store(BackendError),
    #[error("out of memory")]
    Memory,
    #[error("the output cannot be written")]
    Output,
}

impl From<AllocError> for Fault {
    fn from(_error: AllocError) -> Self {
        Fault::Memory
    }
}

impl<T: Drop> From<AllocFailed<T>> for Fault {
    fn from(_error: AllocFailed<T>) -> Self {
        Fault::Memory
    }
}

impl From<io::Error> for Fault {
    fn from(_error: io::Error) -> Self {
        Fault::Output
    }
}

impl From<OpenError> for Fault {
    fn from(error: OpenError) -> Self {
        Fault::Open(error)
    }
}

impl From<BackendError> for Fault {
    fn from(error: BackendError) -> Self {
        Fault::Store(error)
    }
}

type Store = Mirrored<SqliteLog<FileStore<Memory>>>;

// The bytes of the files of a database.
#[derive(Drop)]
pub(crate) struct SavedFiles {
    pub(crate) log: Vec<u8>,
    pub(crate) database: Vec<u8>,
}

fn file_of(alloc: Global, bytes: &[u8]) -> Result<Memory, OpenError>
    ensures { IfOk result (λ file. IsTrue (memory_is_usable file)) }
{
    let mut file = Memory::new(alloc);
    match file.write_at(0, bytes) {
        Ok(()) => Ok(file),
        Err(_) => Err(OpenError::Memory),
    }
}

// Opens the store in a database with these files.
pub(crate) fn open(alloc: Global, log: &[u8], database: &[u8]) -> Result<Store, OpenError> {
    let files = Files {
        log: file_of(alloc, log)?,
        db: file_of(alloc, database)?,
    };
    let conn = match Connection::open_files(alloc, files, Options::new(SEED)) {
        Ok(conn) => conn,
        Err((error, _)) => return Err(OpenError::from(error)),
    };
    match open_store(alloc, conn) {
        Ok(store) => Ok(store),
        Err((error, _)) => Err(error),
    }
}

fn write_contents(alloc: Global, store: &mut Store) -> Result<(), Fault> {
    for contents in CONTENTS.iter() {
        let _id = store.write_file(alloc, RepoPath::root(), contents.as_bytes())?;
    }
    Ok(())
}

fn saved(alloc: Global, files: &Files<Memory>) -> Result<SavedFiles, Fault> {
    Ok(SavedFiles {
        log: files.log.bytes().to_vec(alloc)?,
        database: files.db.bytes().to_vec(alloc)?,
    })
}

// The files of a store that was closed.
pub(crate) fn closed_files(alloc: Global) -> Result<SavedFiles, Fault> {
    let mut store = open(alloc, &[], &[])?;
    write_contents(alloc, &mut store)?;
    let files = close_store(store)?;
    saved(alloc, &files)
}

// The files of a store that was opened without objects, and whose writer was killed.
pub(crate) fn killed_files(alloc: Global) -> Result<SavedFiles, Fault> {
    let files = close_store(open(alloc, &[], &[])?)?;
    let empty = saved(alloc, &files)?;
    let mut store = open(alloc, &empty.log, &empty.database)?;
    write_contents(alloc, &mut store)?;
    let (_, log) = store.into_parts();
    let files = log.into_connection().into_store().close();
    saved(alloc, &files)
}

fn has_file(alloc: Global, store: &Store, contents: &[u8]) -> Result<bool, Fault> {
    let id = FileId::from_bytes(alloc, &file_digest(contents))?;
    match store.read_file(alloc, RepoPath::root(), &id) {
        Ok(found) => Ok(found.as_slice() == contents),
        Err(BackendError::ObjectNotFound { .. }) => Ok(false),
        Err(error) => Err(Fault::Store(error)),
    }
}

// The number of files, or `None` if those that are stored are not the first.
pub(crate) fn stored_count(alloc: Global, store: &Store) -> Result<Option<usize>, Fault> {
    let mut count = 0;
    for (index, contents) in CONTENTS.iter().enumerate() {
        if has_file(alloc, store, contents.as_bytes())? {
            if count != index {
                return Ok(None);
            }
            count = index + 1;
        }
    }
    Ok(Some(count))
}
