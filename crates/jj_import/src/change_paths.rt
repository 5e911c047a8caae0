//! The paths of a commit's changes.
ghost use Rattle.std.specs.Prelude.{◌≡◌, IfOk};
ghost use Rattle.jj_paths.specs.Paths.{components};

use crate::error::ImportError;
use jj_fast_import::command::Change;
use jj_paths::repo_path::{InvalidNewRepoPathError, RepoPath, RepoPathBuf, RepoPathTree};
use std::alloc::Global;

fn path_error(alloc: Global, field: &'static str, bytes: &[u8]) -> ImportError {
    match String::from_utf8_lossy(alloc, bytes) {
        Ok(path) => ImportError::InvalidPath { field, path },
        Err(_) => ImportError::Memory,
    }
}

// Whether a component is `.` or `..`.
fn has_dots(path: RepoPath<'_>) -> bool {
    for name in path.components() {
        if matches!(name.as_internal_str(), "." | "..") {
            return true;
        }
    }
    false
}

// Returns the path of a change. Fails with `InvalidPath`, or with `Memory` if memory runs out.
pub(crate) fn path_of(
    alloc: Global,
    field: &'static str,
    bytes: &[u8],
) -> Result<RepoPathBuf, ImportError>
    ensures { IfOk result (λ path. path ≡ components bytes.now) }
{
    let Ok(text) = str::from_utf8(bytes) else {
        return Err(path_error(alloc, field, bytes));
    };
    match RepoPath::from_internal_string(alloc, text) {
        Ok(path) => {
            if has_dots(path) {
                return Err(path_error(alloc, field, bytes));
            }
            let path = path.to_owned(alloc)?;
            Ok(path)
        }
        Err(InvalidNewRepoPathError::Memory) => Err(ImportError::Memory),
        Err(_) => Err(path_error(alloc, field, bytes)),
    }
}

// Returns the path of a file, which is not the root.
pub(crate) fn file_path_of(
    alloc: Global,
    field: &'static str,
    bytes: &[u8],
) -> Result<RepoPathBuf, ImportError>
    ensures { IfOk result (λ path. path ≡ components bytes.now) }
{
    let path = path_of(alloc, field, bytes)?;
    if path.as_path().is_root() {
        return Err(path_error(alloc, field, bytes));
    }
    Ok(path)
}

// Fails with `FileAndDirectory` if the commit has files at a path and at one below it.
pub(crate) fn check_files(alloc: Global, changes: &[Change]) -> Result<(), ImportError> {
    let mut files = RepoPathTree::default(alloc);
    for change in changes {
        if let Change::Modify { path, .. } = change {
            let path = file_path_of(alloc, "M", path)?;
            files.set(path.as_path(), true)?;
        }
    }
    for change in changes {
        if let Change::Modify { path, .. } = change {
            let path = file_path_of(alloc, "M", path)?;
            if let Some(node) = files.get(path.as_path())
                && node.has_children()
            {
                let path = path.into_internal_string();
                return Err(ImportError::FileAndDirectory { path });
            }
        }
    }
    Ok(())
}
