//! Trees from rows of paths and values, and files as lines of them.
use jj_backend::backend::{
    Backend, BackendError, BackendResult, CommitId, CopyId, FileId, SymlinkId, TreeId, TreeValue,
};
use jj_files::file_util::{SourceError, SourceKind};
use jj_ids::object_id::ObjectId;
use jj_paths::repo_path::RepoPathBuf;
use jj_tree_builder::tree_builder::TreeBuilder;
use jj_trees::memory_backend::MemoryBackend;
use std::alloc::{AllocError, Global};

/// A path and a value: an id with `*` before that of an executable file, `@` before that of a
/// symbolic link, and `#` before that of a submodule.
pub type Row = (&'static str, &'static str);

fn bad_path(alloc: Global) -> BackendError {
    match String::from_str(alloc, "not a path") {
        Ok(message) => BackendError::Other(SourceError {
            kind: SourceKind::Data,
            message,
        }),
        Err(_) => BackendError::Memory,
    }
}

/// Creates a path; fails if the string is not a path.
pub fn path_of(alloc: Global, text: &str) -> BackendResult<RepoPathBuf> {
    match RepoPathBuf::from_internal_string(String::from_str(alloc, text)?) {
        Ok(path) => Ok(path),
        Err(_) => Err(bad_path(alloc)),
    }
}

fn file_of(alloc: Global, id: &[u8], executable: bool) -> Result<TreeValue, AllocError> {
    Ok(TreeValue::File {
        id: FileId::from_bytes(alloc, id)?,
        executable,
        copy_id: CopyId::placeholder(alloc),
    })
}

fn value_of(alloc: Global, text: &[u8]) -> Result<TreeValue, AllocError> {
    match text {
        [b'*', id @ ..] => file_of(alloc, id, true),
        [b'@', id @ ..] => Ok(TreeValue::Symlink(SymlinkId::from_bytes(alloc, id)?)),
        [b'#', id @ ..] => Ok(TreeValue::GitSubmodule(CommitId::from_bytes(alloc, id)?)),
        id => file_of(alloc, id, false),
    }
}

/// Writes the tree of the rows.
pub fn write_tree(
    alloc: Global,
    backend: &mut MemoryBackend,
    rows: &[Row],
) -> BackendResult<TreeId> {
    let mut builder = TreeBuilder::new(alloc, backend.empty_tree_id().clone()?);
    for (path, value) in rows {
        builder.set(path_of(alloc, path)?, value_of(alloc, value.as_bytes())?)?;
    }
    builder.write_tree(alloc, backend)
}

fn push_id(output: &mut String, sigil: &str, id: &[u8]) -> Result<(), AllocError> {
    output.push_str(sigil)?;
    for byte in id {
        output.push(char::from(*byte))?;
    }
    Ok(())
}

/// Appends a value as in a row.
pub fn push_value(output: &mut String, value: &TreeValue) -> Result<(), AllocError> {
    match value {
        TreeValue::File {
            id,
            executable: false,
            ..
        } => push_id(output, "", id.as_bytes()),
        TreeValue::File { id, .. } => push_id(output, "*", id.as_bytes()),
        TreeValue::Symlink(id) => push_id(output, "@", id.as_bytes()),
        TreeValue::GitSubmodule(id) => push_id(output, "#", id.as_bytes()),
        TreeValue::Tree(_) => output.push_str("directory"),
    }
}

/// Returns a line of a path and a value for each file.
pub fn lines_of(alloc: Global, files: &[(RepoPathBuf, TreeValue)]) -> Result<String, AllocError> {
    let mut output = String::new(alloc);
    for (path, value) in files {
        output.push_str(path.as_path().as_internal_file_string())?;
        output.push(' ')?;
        push_value(&mut output, value)?;
        output.push('\n')?;
    }
    Ok(output)
}
