//! Callers that restate the contracts of `jj_temp_files`; the mutations are edits of their bodies.
#![tactic(auto)]

ghost use Rattle.std.specs.Prelude.{IfErr, Some};
ghost use Rattle.jj_temp_files.specs.Crashes.{LeavesOldOr, ReplacesFile};
ghost use Rattle.jj_temp_files.specs.Persisting.{PersistsFile};
ghost use Rattle.jj_temp_files.specs.TempNames.{IsNumberedPath};
ghost use Rattle.jj_temp_files.specs.WriteErrors.{IsWriteFileError};

use jj_files::file_util::PathError;
use jj_temp_files::{CrashSafe, FileAccess, NamedTempFile, TempNames};
use std::alloc::Global;

/// `persist_temp_file`.
pub fn persist_temp_file<A: FileAccess>(
    alloc: Global,
    files: &mut A,
    temp_file: NamedTempFile<A::File>,
    new_path: &str,
) -> Result<A::File, PathError>
    ensures { PersistsFile A.may_sync A.may_rename A.may_remove temp_file new_path.now
        files.old result files.new }
{
    jj_temp_files::persist_temp_file(alloc, files, temp_file, new_path)
}

/// `write_file`.
pub fn write_file<A: CrashSafe>(
    alloc: Global,
    files: &mut A,
    dir: &str,
    names: &mut TempNames,
    path: &str,
    bytes: &[u8],
) -> Result<(), PathError>
    ensures any_moment { ¬ (IsNumberedPath dir.now path.now)
        → LeavesOldOr A.moment A.left_since (A.may_leave files.old path.now)
        files.old files.new path.now bytes.now }
    ensures contents { ¬ (IsNumberedPath dir.now path.now)
        → ReplacesFile (A.contents files.old path.now) (Some bytes.now) result
        (A.contents files.new path.now) }
    ensures failed { IfErr result (λ fault. IsWriteFileError A.may_create A.may_write A.may_sync
        A.may_rename A.may_remove dir.now names.old path.now bytes.now
        files.old fault names.new files.new) }
{
    jj_temp_files::write_file(alloc, files, dir, names, path, bytes)
}
