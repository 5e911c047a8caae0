//! Files that a crash leaves as they were or whole, over a file system whose outcomes of a crash
//! are known.
ghost use Rattle.std.specs.Prelude.{◌≡◌, ◌≢◌, ◌⊎◌, ◌≤◌, ◌++◌, ℕ, List, [], Option, Some, None, Result, Ok, Err, OnOk, OnErr, IfOk, IfErr, MatchResult, drop, length, string_bytes};
ghost use Rattle.std.specs.declared.io.Error.{Error};
ghost use Rattle.jj_temp_files.specs.TempNames.{CreatesTempFile, IsNumberedPath};
ghost use Rattle.jj_temp_files.specs.Persisting.{PersistsFile};
ghost use Rattle.jj_temp_files.specs.WriteErrors.{FailsToFill, FailsToWrite, IsWriteFileError, WritesPieces};
ghost use Rattle.jj_temp_files.specs.Crashes.{Changes, Untouched, LeavesOldOr, AddsWritten, IsWholeOrAbsent, IsEmptyTempFile, ReplacesFile};

use crate::{FileAccess, NamedTempFile, TempNames, persist_temp_file};
use jj_files::file_util::{IoResultExt, PathError};
use std::alloc::Global;
use std::io;
use std::io::ErrorKind;

/// The files and the outcomes of a crash, as laws on the relations of the calls. `Some` is a file
/// with these bytes, `None` is no file. Renaming is one step, and a file whose data was synced is
/// whole, as POSIX has it of `rename` and `fdatasync`.
pub trait CrashSafe: FileAccess {
    /// The file at a path.
    ghost contents: { Self → List ℕ → Option (List ℕ) };

    /// The outcomes at a path of a crash at this moment.
    ghost may_leave: { Self → List ℕ → Option (List ℕ) → Type 0 };

    /// The moment, as a number that does not decrease.
    ghost moment: { Self → ℕ };

    /// The outcomes at a path of a crash at some moment from that one on, during a call or between
    /// two.
    ghost left_since: { Self → ℕ → List ℕ → Option (List ℕ) → Type 0 };

    /// The path at which an open file was created.
    ghost created_at: { Self.File → List ℕ };

    /// The bytes written to an open file since it was created.
    ghost written: { Self.File → List ℕ };

    /// Since this moment there is no other.
    ghost only_now: { (files : Self) (path : List ℕ) (left : Option (List ℕ))
        → left_since files (moment files) path left → may_leave files path left };

    /// A created file is empty, and nothing changes at other paths.
    ghost creates: { (old new : Self) (path : List ℕ) (created : Result Self.File Error)
        → Self.may_create old path created new
        → IfOk created (λ file. (created_at file ≡ path) × (written file ≡ [])
        × (contents new path ≡ Some []))
        × ((other : List ℕ) → other ≢ path
        → Untouched moment left_since contents old new other) };

    /// A write appends a prefix of the piece, also to the file at the path where it was created,
    /// if that is still there, and changes nothing at other paths.
    ghost writes: { (old new : Self) (file next : Self.File) (piece : List ℕ)
        (result : Result ℕ Error) → Self.may_write old file piece result new next
        → (created_at next ≡ created_at file)
        × AddsWritten (written file) piece result (written next)
        × (contents old (created_at file) ≡ Some (written file)
        → OnOk result (contents new (created_at file) ≡ Some (written next)))
        × ((other : List ℕ) → other ≢ created_at file
        → Untouched moment left_since contents old new other) };

    /// A file whose data was synced is whole, or gone if its directory entry was not written.
    ghost syncs: { (old new : Self) (file : Self.File) (result : Result (Unit {0}) Error)
        → Self.may_sync old file result new
        → ((other : List ℕ) → Untouched moment left_since contents old new other)
        × OnOk result ((left : Option (List ℕ)) → may_leave new (created_at file) left
        → IsWholeOrAbsent (written file) left) };

    /// Renaming leaves at the new path the old file, or the one that is renamed, and that one if it
    /// succeeds. It changes nothing at other paths.
    ghost renames: { (old new : Self) (from to : List ℕ) (result : Result (Unit {0}) Error)
        → Self.may_rename old from to result new
        → Changes moment left_since old new to
        (λ left. (left ≢ None) × may_leave old from left)
        × MatchResult result (λ done. contents new to ≡ contents old from)
        (λ error. (contents new to ≡ contents old to) ⊎ (contents new to ≡ contents old from))
        × ((other : List ℕ) → other ≢ from → other ≢ to
        → Untouched moment left_since contents old new other) };

    /// Removing changes nothing at other paths.
    ghost removes: { (old new : Self) (path : List ℕ) (result : Result (Unit {0}) Error)
        → Self.may_remove old path result new
        → (other : List ℕ) → other ≢ path
        → Untouched moment left_since contents old new other };
}

// Creates an empty temporary file. Nothing changes at paths that no temporary file has.
fn create_empty<A: CrashSafe>(
    alloc: Global,
    files: &mut A,
    dir: &str,
    names: &mut TempNames,
) -> Result<NamedTempFile<A::File>, PathError>
    ensures created { IfOk result (λ temp. IsNumberedPath dir.now (string_bytes temp.path)
        × IsEmptyTempFile A.created_at A.written A.contents files.new temp) }
    ensures others { (other : List ℕ) → ¬ (IsNumberedPath dir.now other)
        → Untouched A.moment A.left_since A.contents files.old files.new other }
    ensures calls { CreatesTempFile A.may_create dir.now names.old files.old result
        names.new files.new }
{
    NamedTempFile::new_in(alloc, files, dir, names)
}

// Writes all bytes to the end of the file. A write that returns 0 is an error.
fn write_all<A: CrashSafe>(
    files: &mut A,
    temp_file: &mut NamedTempFile<A::File>,
    bytes: &[u8],
) -> io::Result<()>
    ensures written { OnOk result
        (A.written temp_file.new.file ≡ A.written temp_file.old.file ++ bytes.now) }
    ensures created { A.created_at temp_file.new.file ≡ A.created_at temp_file.old.file }
    ensures path { temp_file.new.path ≡ temp_file.old.path }
    ensures contents { A.contents files.old (A.created_at temp_file.old.file)
        ≡ Some (A.written temp_file.old.file)
        → OnOk result (A.contents files.new (A.created_at temp_file.old.file)
        ≡ Some (A.written temp_file.new.file)) }
    ensures others { (other : List ℕ) → other ≢ A.created_at temp_file.old.file
        → Untouched A.moment A.left_since A.contents files.old files.new other }
    ensures all { OnOk result (WritesPieces A.may_write files.old temp_file.old.file bytes.now
        files.new temp_file.new.file []) }
    ensures failed { IfErr result (λ error. FailsToWrite A.may_write files.old temp_file.old.file
        bytes.now error files.new temp_file.new.file) }
{
    let mut rest = bytes;
    while !rest.is_empty() {
        let count = temp_file.write(files, rest)?;
        if count == 0 {
            return Err(io::Error::from(ErrorKind::WriteZero));
        }
        rest = suffix_from(rest, count);
    }
    Ok(())
}

fn suffix_from(bytes: &[u8], start: usize) -> &[u8]
    requires { start ≤ length bytes.now }
    ensures { result.now ≡ drop start bytes.now }
{
    &bytes[start..]
}

// Persists a whole file.
fn persist_whole<A: CrashSafe>(
    alloc: Global,
    files: &mut A,
    temp_file: NamedTempFile<A::File>,
    path: &str,
) -> Result<(), PathError>
    ensures crash { A.created_at temp_file.file ≡ string_bytes temp_file.path
        → path.now ≢ string_bytes temp_file.path
        → Changes A.moment A.left_since files.old files.new path.now
        (λ left. left ≡ Some (A.written temp_file.file)) }
    ensures contents { path.now ≢ string_bytes temp_file.path
        → ReplacesFile (A.contents files.old path.now)
        (A.contents files.old (string_bytes temp_file.path)) result
        (A.contents files.new path.now) }
    ensures others { (other : List ℕ) → other ≢ path.now → other ≢ string_bytes temp_file.path
        → Untouched A.moment A.left_since A.contents files.old files.new other }
    ensures failed { IfErr result (λ fault. PersistsFile A.may_sync A.may_rename A.may_remove
        temp_file path.now files.old (Err fault) files.new) }
{
    match persist_temp_file(alloc, files, temp_file, path) {
        Ok(_file) => Ok(()),
        Err(error) => Err(error),
    }
}

// Writes the bytes to an empty temporary file, and persists it.
fn fill_and_persist<A: CrashSafe>(
    alloc: Global,
    files: &mut A,
    mut temp_file: NamedTempFile<A::File>,
    path: &str,
    bytes: &[u8],
) -> Result<(), PathError>
    ensures crash { IsEmptyTempFile A.created_at A.written A.contents files.old temp_file
        → path.now ≢ string_bytes temp_file.path
        → Changes A.moment A.left_since files.old files.new path.now
        (λ left. left ≡ Some bytes.now) }
    ensures contents { IsEmptyTempFile A.created_at A.written A.contents files.old temp_file
        → path.now ≢ string_bytes temp_file.path
        → ReplacesFile (A.contents files.old path.now) (Some bytes.now) result
        (A.contents files.new path.now) }
    ensures others { IsEmptyTempFile A.created_at A.written A.contents files.old temp_file
        → (other : List ℕ) → other ≢ path.now → other ≢ string_bytes temp_file.path
        → Untouched A.moment A.left_since A.contents files.old files.new other }
    ensures failed { IfErr result (λ fault. FailsToFill A.may_write A.may_sync A.may_rename
        A.may_remove temp_file path.now bytes.now files.old fault files.new) }
{
    match write_all(files, &mut temp_file, bytes) {
        Ok(()) => persist_whole(alloc, files, temp_file, path),
        Err(error) => {
            let _ = temp_file.close(alloc, files);
            Err(error).context(alloc, path)
        }
    }
}

/// Writes a file whole: to a temporary file in `dir`, whose data is synced and which is renamed
/// over `path`. Then `path` has the bytes; after an error, or a crash at any moment, it has its
/// content from before, or all of `bytes`. `dir` has to be on the file system of `path`, and `path`
/// must not be the name of a temporary file.
pub fn write_file<A: CrashSafe>(
    alloc: Global,
    files: &mut A,
    dir: &str,
    names: &mut TempNames,
    path: &str,
    bytes: &[u8],
) -> Result<(), PathError>
    // After a crash at any moment of the call, the path has what a crash before might have left, or
    // all bytes.
    ensures any_moment { ¬ (IsNumberedPath dir.now path.now)
        → LeavesOldOr A.moment A.left_since (A.may_leave files.old path.now)
        files.old files.new path.now bytes.now }
    // If the call succeeds, the path has all bytes; if it fails, these or the file from before.
    ensures contents { ¬ (IsNumberedPath dir.now path.now)
        → ReplacesFile (A.contents files.old path.now) (Some bytes.now) result
        (A.contents files.new path.now) }
    // Nothing changes at other paths, now or by a crash, but where a temporary file may be.
    ensures others { (other : List ℕ) → other ≢ path.now → ¬ (IsNumberedPath dir.now other)
        → Untouched A.moment A.left_since A.contents files.old files.new other }
    // An error is that of creating a temporary file, with its path, or of writing, syncing or
    // renaming it, with `path`.
    ensures failed { IfErr result (λ fault. IsWriteFileError A.may_create A.may_write A.may_sync
        A.may_rename A.may_remove dir.now names.old path.now bytes.now
        files.old fault names.new files.new) }
{
    match create_empty(alloc, files, dir, names) {
        Ok(temp_file) => fill_and_persist(alloc, files, temp_file, path, bytes),
        Err(error) => Err(error),
    }
}
