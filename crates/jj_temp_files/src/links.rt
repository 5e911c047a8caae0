//! Symbolic links, and checks of a file system.
ghost use Rattle.std.specs.Prelude.{◌≡◌, true, Result, Ok};
ghost use Rattle.jj_temp_files.specs.Checks.{LinksAt, KeepsExecutableBit, TestsExecutableBit};

use crate::{FileAccess, NamedTempFile, TempNames};
use jj_files::file_util::{IoResultExt, PathError};
use std::alloc::Global;
use std::io;
use std::io::ErrorKind;

// The permission bits of a mode, without the type of the file.
const PERMISSION_BITS: u32 = 0o7777;

// The owner may run the file.
const OWNER_EXECUTES: u32 = 0o100;

/// Creates a symbolic link at `link` that leads to the directory `original`. An error contains
/// `link`.
pub fn symlink_dir<A: FileAccess>(
    alloc: Global,
    files: &mut A,
    original: &str,
    link: &str,
) -> Result<(), PathError>
    // Creating the link was tried once, and an error is returned with `link`.
    ensures { LinksAt A.may_link original.now link.now files.old result files.new }
{
    files.symlink(original, link).context(alloc, link)
}

/// Creates a symbolic link at `link` that leads to the file `original`. An error contains `link`.
pub fn symlink_file<A: FileAccess>(
    alloc: Global,
    files: &mut A,
    original: &str,
    link: &str,
) -> Result<(), PathError>
    // Creating the link was tried once, and an error is returned with `link`.
    ensures { LinksAt A.may_link original.now link.now files.old result files.new }
{
    files.symlink(original, link).context(alloc, link)
}

/// Returns whether a process may create symbolic links: always, on Unix.
pub fn check_symlink_support() -> io::Result<bool>
    ensures { result ≡ Ok true }
{
    Ok(true)
}

/// Returns whether files in a directory keep their executable bit: flips that of a new file and
/// reads it back. Returns false where permission is denied, or where the bit did not change. The
/// new file is removed before it is tested, so that no file remains. An error contains the
/// path of the new file, or `dir`.
pub fn check_executable_bit_support<A: FileAccess>(
    alloc: Global,
    files: &mut A,
    dir: &str,
    names: &mut TempNames,
) -> Result<bool, PathError>
    ensures { TestsExecutableBit A.may_create A.may_remove A.may_stat A.may_set_mode dir.now
        names.old files.old result names.new files.new }
{
    let temp_file = NamedTempFile::new_in(alloc, files, dir, names)?;
    let file = temp_file.unlink(alloc, files)?;
    keeps_executable_bit(files, &file).context(alloc, dir)
}

fn keeps_executable_bit<A: FileAccess>(files: &mut A, file: &A::File) -> io::Result<bool>
    ensures { KeepsExecutableBit A.may_stat A.may_set_mode file.now files.old result files.new }
{
    let old_mode = files.status(file)?.mode & PERMISSION_BITS;
    let new_mode = old_mode ^ OWNER_EXECUTES;
    match files.set_mode(file, new_mode) {
        Err(error) if error.kind() == ErrorKind::PermissionDenied => return Ok(false),
        changed => changed?,
    }
    Ok(files.status(file)?.mode & PERMISSION_BITS == new_mode)
}
