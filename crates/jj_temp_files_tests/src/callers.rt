//! Object files, which are absent or whole, and files that are one.
ghost use Rattle.std.specs.Prelude.{◌≡◌, ◌↔◌, IfErr, IfOk, IsTrue, Ok, OnOk, Some, length};
ghost use Rattle.jj_temp_files.specs.TempNames.{IsNumberedPath};
ghost use Rattle.jj_temp_files_tests.specs.Disk.{contents_of, LeftAfter, LeftNow};
ghost use Rattle.jj_temp_files_tests.specs.Links.{HasFlippedBit, IsAtLink};
ghost use Rattle.jj_temp_files_tests.specs.SameFiles.{ComparesStatuses};
ghost use Rattle.jj_temp_files_tests.specs.Objects.{IsAbsentOrWhole, IsAtPathOrTemp, StaysAbsentOrWhole};

use crate::memory_disk::MemoryDisk;
use jj_files::file_util::PathError;
use jj_temp_files::{
    CrashSafe, FileAccess, FileIdentity, TempNames, check_executable_bit_support, symlink_dir,
    symlink_file, write_file,
};
use std::alloc::Global;
use std::io;

/// Writes an object to the path that its content determines. If the object's file was absent or
/// whole before, it is absent or whole after a crash at any moment; it is there after the call. An
/// error contains the path of the object or of a temporary file.
pub fn store_object<A: CrashSafe>(
    alloc: Global,
    files: &mut A,
    dir: &str,
    names: &mut TempNames,
    path: &str,
    object: &[u8],
) -> Result<(), PathError>
    ensures crash { ¬ (IsNumberedPath dir.now path.now)
        → IsAbsentOrWhole A.may_leave files.old path.now object.now
        → StaysAbsentOrWhole A.moment A.left_since files.old files.new path.now object.now }
    ensures stored { ¬ (IsNumberedPath dir.now path.now)
        → OnOk result (A.contents files.new path.now ≡ Some object.now) }
    ensures error { IfErr result (IsAtPathOrTemp dir.now path.now) }
{
    write_file(alloc, files, dir, names, path, object)
}

/// `store_object` in memory, where each outcome of a crash is known.
pub fn store_in_memory(
    alloc: Global,
    disk: &mut MemoryDisk,
    dir: &str,
    names: &mut TempNames,
    path: &str,
    object: &[u8],
) -> Result<(), PathError>
    ensures crash { ¬ (IsNumberedPath dir.now path.now)
        → IsAbsentOrWhole LeftNow disk.old.edits.items path.now object.now
        → StaysAbsentOrWhole length LeftAfter disk.old.edits.items disk.new.edits.items
        path.now object.now }
    ensures stored { ¬ (IsNumberedPath dir.now path.now)
        → OnOk result (contents_of disk.new.edits.items path.now ≡ Some object.now) }
    ensures error { IfErr result (IsAtPathOrTemp dir.now path.now) }
{
    store_object(alloc, disk, dir, names, path, object)
}

/// Returns whether two open files are one: whether they have one device and one number there.
pub fn are_one_file<A: FileAccess>(files: &A, first: &A::File, second: &A::File) -> io::Result<bool>
    ensures { IfOk result (ComparesStatuses (A.may_stat files.now first.now)
        (A.may_stat files.now second.now)) }
{
    let first = FileIdentity::from_file(files, first)?;
    let second = FileIdentity::from_file(files, second)?;
    Ok(are_equal(&first, &second))
}

fn are_equal(first: &FileIdentity, second: &FileIdentity) -> bool
    ensures { IsTrue result ↔ (first.now ≡ second.now) }
{
    first == second
}

/// Creates a link to a directory, and then one to a file. An error contains the link that was not
/// created, and ends it.
pub fn link_both<A: FileAccess>(
    alloc: Global,
    files: &mut A,
    dir: &str,
    dir_link: &str,
    file: &str,
    file_link: &str,
) -> Result<(), PathError>
    ensures linked { OnOk result ((between : A)
        × A.may_link files.old dir.now dir_link.now (Ok tt) between
        × A.may_link between file.now file_link.now (Ok tt) files.new) }
    ensures error { IfErr result (IsAtLink dir_link.now file_link.now) }
{
    symlink_dir(alloc, files, dir, dir_link)?;
    symlink_file(alloc, files, file, file_link)
}

/// Returns whether scripts in a directory can be marked as executable. They can only if the flipped
/// bit of a file was read back.
pub fn keeps_scripts<A: FileAccess>(
    alloc: Global,
    files: &mut A,
    dir: &str,
    names: &mut TempNames,
) -> Result<bool, PathError>
    ensures { IfOk result (λ kept. IsTrue kept
        → HasFlippedBit A.may_stat A.may_set_mode files.new) }
{
    check_executable_bit_support(alloc, files, dir, names)
}
