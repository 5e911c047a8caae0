//! Callers of directory operations and of lexical path operations, proved from the contracts of
//! these.
ghost use Rattle.std.specs.Prelude.{IfErr, IfOk, OnOk, string_bytes};
ghost use Rattle.jj_paths_tests.specs.EmptyDirs.{ChangesOnlyIn, IsDirError, IsEmptied, TellsEmpty};
ghost use Rattle.jj_paths_tests.specs.Ways.{IsWay};

use jj_files::file_util::{
    DirAccess, PathError, create_or_reuse_dir, is_empty_dir, normalize_path, relative_path,
    remove_dir_contents,
};
use std::alloc::{AllocError, Global};

/// Makes a directory that is empty: creates it, or removes the entries of the one that is there.
/// Returns whether it is empty then. Changes nothing else.
pub fn make_empty_dir<D: DirAccess>(
    alloc: Global,
    dirs: &mut D,
    path: &str,
) -> Result<bool, PathError>
    ensures emptied { OnOk result (IsEmptied D.is_directory D.may_create D.may_remove D.may_list
        path.now dirs.old dirs.new) }
    ensures empty { IfOk result (TellsEmpty D.is_directory D.may_list path.now dirs.new) }
    ensures changes { ChangesOnlyIn D.may_create D.may_remove path.now dirs.old dirs.new }
    // An error has the path of the directory or of an entry in it.
    ensures error { IfErr result (IsDirError path.now) }
{
    create_or_reuse_dir(alloc, dirs, path)?;
    remove_dir_contents(alloc, dirs, path)?;
    is_empty_dir(alloc, dirs, path)
}

/// Returns the way from a directory to a path, without following symbolic links. It is made of the
/// strings only: `.` and `..` in them are resolved first.
pub fn way_to(alloc: Global, dir: &str, path: &str) -> Result<String, AllocError>
    ensures { IfOk result (λ way. IsWay dir.now path.now (string_bytes way)) }
{
    let from = normalize_path(alloc, dir)?;
    let to = normalize_path(alloc, path)?;
    relative_path(alloc, from.as_str(), to.as_str())
}
