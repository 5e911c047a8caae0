//! Creating, emptying and testing directories, over a trait of file system calls.
ghost use Rattle.std.specs.Prelude.{◌≡◌, ℕ, Bool, List, IfOk, IfErr, Result, map, string_bytes};
ghost use Rattle.std.specs.Result.{result_map_both};
ghost use Rattle.std.specs.Path.{path_join};
ghost use Rattle.std.specs.declared.io.Error.{Error};
ghost use Rattle.jj_files.specs.Directories.{CreatesOrReuses, EmptiesDir, IsEmptyDir, IsListError};
ghost use Rattle.jj_files.specs.declared.file_util.errors.PathError.{PathError};

use super::{IoResultExt, PathError};
use std::alloc::{AllocError, Global};
use std::io;
use std::path::PathBuf;

/// The file system calls that the functions of this module use. Their contracts are relations,
/// which an implementation chooses.
pub trait DirAccess {
    /// Whether there is a directory at a path.
    ghost is_directory: { Self → List ℕ → Bool };

    /// The possible results of creating a directory, and the state after each.
    ghost may_create: { Self → List ℕ → Result (Unit {0}) Error → Self → Type 0 };

    /// The possible results of removing a file, and the state after each.
    ghost may_remove: { Self → List ℕ → Result (Unit {0}) Error → Self → Type 0 };

    /// The possible results of listing a directory.
    ghost may_list: { Self → List ℕ → Result (List (List ℕ)) PathError → Type 0 };

    /// Creates a directory. Its parent must exist.
    fn create_dir(&mut self, path: &str) -> io::Result<()>
        ensures { may_create self.old path.now result self.new };

    /// Removes a file.
    fn remove_file(&mut self, path: &str) -> io::Result<()>
        ensures { may_remove self.old path.now result self.new };

    /// Returns whether there is a directory at the path, and false if this cannot be determined.
    fn is_dir(&self, path: &str) -> bool
        ensures { result ≡ is_directory self.now path.now };

    /// Lists the names of the entries of a directory. An error contains `path`.
    fn list(&self, alloc: Global, path: &str) -> Result<Vec<String>, PathError>
        ensures listed { may_list self.now path.now
            (result_map_both (λ names. map string_bytes names.items) (λ e. e) result) }
        ensures fault { IfErr result (IsListError path.now) };
}

/// Creates a directory, unless there is one already. Returns the error of `create_dir` if there is
/// no directory afterwards.
pub fn create_or_reuse_dir<D: DirAccess>(
    alloc: Global,
    dirs: &mut D,
    path: &str,
) -> Result<(), PathError>
    ensures { CreatesOrReuses D.is_directory D.may_create path.now dirs.old result dirs.new }
{
    let created = dirs.create_dir(path);
    if created.is_err() && dirs.is_dir(path) {
        return Ok(());
    }
    created.context(alloc, path)
}

/// Removes all entries of a directory, which must be files. Returns the first error, and leaves the
/// remaining entries.
pub fn remove_dir_contents<D: DirAccess>(
    alloc: Global,
    dirs: &mut D,
    path: &str,
) -> Result<(), PathError>
    ensures { EmptiesDir D.may_list D.may_remove path.now dirs.old result dirs.new }
{
    let names = dirs.list(alloc, path)?;
    for name in &names {
        let entry = entry_path(alloc, path, name.as_str())?;
        dirs.remove_file(entry.as_str())
            .context(alloc, entry.as_str())?;
    }
    Ok(())
}

/// Returns whether the path is a directory without entries. Returns an error if listing it fails.
pub fn is_empty_dir<D: DirAccess>(alloc: Global, dirs: &D, path: &str) -> Result<bool, PathError>
    ensures { IsEmptyDir D.is_directory D.may_list path.now dirs.now result }
{
    if !dirs.is_dir(path) {
        return Ok(false);
    }
    let names = dirs.list(alloc, path)?;
    Ok(names.is_empty())
}

fn entry_path(alloc: Global, dir: &str, name: &str) -> Result<String, AllocError>
    ensures { IfOk result (λ path. string_bytes path ≡ path_join dir.now name.now) }
{
    let mut path = PathBuf::from_str(alloc, dir)?;
    path.push(name)?;
    Ok(path.into_string())
}
