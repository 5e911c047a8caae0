//! Temporary files that are renamed over their final path once they are whole.
ghost use Rattle.std.specs.Prelude.{◌≡◌, ◌↔◌, ◌++◌, IsTrue, IfOk, IsErrAnd, MatchResult, OnErr, OnOk, Result, codes, decimal, string_bytes};
ghost use Rattle.std.specs.Path.{path_join};
ghost use Rattle.std.specs.Io.{WritesAtMost};
ghost use Rattle.std.specs.declared.io.ErrorKind.TheVariants.{AlreadyExists};
ghost use Rattle.std.specs.IoError.{error_kind};
ghost use Rattle.jj_files.specs.PathErrors.{IsAtPath};
ghost use Rattle.jj_temp_files.specs.TempNames.{CreatesTempFile, IsTaken, next_number, numbered_path};
ghost use Rattle.jj_temp_files.specs.Persisting.{PersistsFile, RenamesFile, RemovesFile, SyncsAndRenames, UnlinksFile};

use crate::FileAccess;
use itoa::Buffer;
use jj_files::file_util::{IoResultExt, PathError};
use std::alloc::{AllocError, Global};
use std::io;
use std::io::ErrorKind;
use std::marker::Model;
use std::path::PathBuf;

// How many names that are taken `new_in` passes over.
const MAX_TAKEN_NAMES: u32 = 1 << 16;

/// Numbers for the names of temporary files, which count up from the first one. Names that are
/// taken, as by a process that was killed, are passed over, so any first number is right; a random
/// one finds a free name at once.
#[derive(Debug, Drop)]
pub struct TempNames {
    next: u64,
}

impl Model for TempNames {
    ghost use Rattle.std.specs.Prelude.{ℕ};

    ghost Value = { ℕ };

    ghost view = { λ names. names.next };
}

impl TempNames {
    /// Starts with a number.
    pub fn new(first: u64) -> TempNames
        ensures { result ≡ first }
    {
        TempNames { next: first }
    }

    // Returns the path below `dir` with the next number.
    fn next_path(&mut self, alloc: Global, dir: &str) -> Result<String, AllocError>
        ensures path { IfOk result (λ path. string_bytes path ≡ numbered_path dir.now self.old) }
        ensures next { OnOk result (self.new ≡ next_number self.old) }
        ensures unchanged { OnErr result (self.new ≡ self.old) }
    {
        let number = self.next;
        let path = path_of_number(alloc, dir, number)?;
        self.next = number.wrapping_add(1);
        Ok(path)
    }
}

fn path_of_number(alloc: Global, dir: &str, number: u64) -> Result<String, AllocError>
    ensures { IfOk result (λ path. string_bytes path ≡ numbered_path dir.now number) }
{
    let name = numbered_name(alloc, number)?;
    let mut path = PathBuf::from_str(alloc, dir)?;
    path.push(name.as_str())?;
    Ok(path.into_string())
}

fn numbered_name(alloc: Global, number: u64) -> Result<String, AllocError>
    ensures { IfOk result (λ name. string_bytes name ≡ codes ".tmp" ++ decimal number) }
{
    let mut buffer = Buffer::new();
    let mut name = String::from_str(alloc, ".tmp")?;
    name.push_str(buffer.format(number))?;
    Ok(name)
}

/// An open file at a temporary path. It has to be persisted or closed: it is not dropped, so no
/// temporary file is forgotten.
#[derive(Debug)]
pub struct NamedTempFile<F> {
    file: F,
    path: String,
}

impl<F: Drop> NamedTempFile<F> {
    /// Creates a file in a directory, open for reading and writing. Passes over names that are
    /// taken, at most 65,536. An error contains the path of the file that could not be created.
    pub fn new_in<A: FileAccess<File = F>>(
        alloc: Global,
        files: &mut A,
        dir: &str,
        names: &mut TempNames,
    ) -> Result<NamedTempFile<F>, PathError>
        // Names that are taken were passed over, and then the file was created at the next one, or
        // the error of that is returned with its path.
        ensures { CreatesTempFile A.may_create dir.now names.old files.old result
            names.new files.new }
    {
        for _count in 0..MAX_TAKEN_NAMES {
            let path = names.next_path(alloc, dir)?;
            let created = files.create_new(path.as_str());
            if !is_taken(&created) {
                return at_path(path, created);
            }
        }
        let path = names.next_path(alloc, dir)?;
        let created = files.create_new(path.as_str());
        at_path(path, created)
    }

    /// Returns the temporary path.
    pub fn path(&self) -> &str
        ensures { result.now ≡ string_bytes self.now.path }
    {
        self.path.as_str()
    }

    /// Returns the open file.
    pub fn as_file(&self) -> &F
        ensures { result.now ≡ self.now.file }
    {
        &self.file
    }

    /// Writes a prefix of `piece` to the end of the file, and returns its length.
    pub fn write<A: FileAccess<File = F>>(
        &mut self,
        files: &mut A,
        piece: &[u8],
    ) -> io::Result<usize>
        ensures bound { WritesAtMost result piece.now }
        ensures written { A.may_write files.old self.old.file piece.now result
            files.new self.new.file }
        ensures path { self.new.path ≡ self.old.path }
    {
        files.write(&mut self.file, piece)
    }

    /// Renames the file over `new_path`, and returns it open. Its data is not synced first. If
    /// renaming fails, removes the file and returns the error with `new_path`.
    pub fn persist<A: FileAccess<File = F>>(
        self,
        alloc: Global,
        files: &mut A,
        new_path: &str,
    ) -> Result<F, PathError>
        ensures { RenamesFile A.may_rename A.may_remove self new_path.now
            files.old result files.new }
    {
        let NamedTempFile { file, path } = self;
        let renamed = files.rename(path.as_str(), new_path);
        if renamed.is_err() {
            let _ = files.remove_file(path.as_str());
        }
        renamed.context(alloc, new_path)?;
        Ok(file)
    }

    /// Closes the file and removes it. An error contains the temporary path.
    pub fn close<A: FileAccess<File = F>>(
        self,
        alloc: Global,
        files: &mut A,
    ) -> Result<(), PathError>
        // Removing the temporary path was tried once, and an error is returned with it.
        ensures { RemovesFile A.may_remove (string_bytes self.path) files.old result files.new }
    {
        let NamedTempFile { file, path } = self;
        drop(file);
        files
            .remove_file(path.as_str())
            .context(alloc, path.as_str())
    }

    /// Removes the temporary path, and returns the file open: it is gone once it is closed. An
    /// error contains the temporary path.
    pub fn unlink<A: FileAccess<File = F>>(
        self,
        alloc: Global,
        files: &mut A,
    ) -> Result<F, PathError>
        // Removing the temporary path was tried once; the open file is returned, or the error with
        // the path.
        ensures { UnlinksFile A.may_remove self files.old result files.new }
    {
        let NamedTempFile { file, path } = self;
        files
            .remove_file(path.as_str())
            .context(alloc, path.as_str())?;
        Ok(file)
    }
}

fn is_taken<F>(created: &io::Result<F>) -> bool
    ensures { IsTrue result ↔ IsTaken created.now }
{
    match created {
        Ok(_) => false,
        Err(error) => error.kind() == ErrorKind::AlreadyExists,
    }
}

fn at_path<F: Drop>(path: String, created: io::Result<F>) -> Result<NamedTempFile<F>, PathError>
    ensures { MatchResult created
        (λ file. result ≡ Ok (record { file = file; path = path }))
        (λ error. IsErrAnd result (IsAtPath (string_bytes path) error)) }
{
    match created {
        Ok(file) => Ok(NamedTempFile { file, path }),
        Err(source) => Err(PathError::Invalid { path, source }),
    }
}

/// Writes the data of a temporary file to its device, renames it over `new_path`, and returns it
/// open: after a crash, `new_path` has its old content or all of the new one. If one of the two
/// calls fails, removes the temporary file and returns the error with `new_path`.
pub fn persist_temp_file<A: FileAccess>(
    alloc: Global,
    files: &mut A,
    temp_file: NamedTempFile<A::File>,
    new_path: &str,
) -> Result<A::File, PathError>
    // The data was synced and then the path renamed; if one of these failed, removing the temporary
    // file was tried, and the error is returned with the new path.
    ensures { PersistsFile A.may_sync A.may_rename A.may_remove temp_file new_path.now
        files.old result files.new }
{
    let NamedTempFile { file, path } = temp_file;
    let persisted = sync_and_rename(files, &file, path.as_str(), new_path);
    if persisted.is_err() {
        let _ = files.remove_file(path.as_str());
    }
    persisted.context(alloc, new_path)?;
    Ok(file)
}

fn sync_and_rename<A: FileAccess>(
    files: &mut A,
    file: &A::File,
    from: &str,
    to: &str,
) -> io::Result<()>
    ensures { SyncsAndRenames A.may_sync A.may_rename file.now from.now to.now
        files.old result files.new }
{
    files.sync_data(file)?;
    files.rename(from, to)
}

/// `persist_temp_file` for a path that is determined by the content. A file that is there already
/// has this content, and is replaced.
pub fn persist_content_addressed_temp_file<A: FileAccess>(
    alloc: Global,
    files: &mut A,
    temp_file: NamedTempFile<A::File>,
    new_path: &str,
) -> Result<A::File, PathError>
    // The data was synced and then the path renamed; if one of these failed, removing the temporary
    // file was tried, and the error is returned with the new path.
    ensures { PersistsFile A.may_sync A.may_rename A.may_remove temp_file new_path.now
        files.old result files.new }
{
    persist_temp_file(alloc, files, temp_file, new_path)
}
