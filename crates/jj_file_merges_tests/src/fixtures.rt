//! Files with contents, trees of them, and trees as lines.
use jj_backend::backend::{
    Backend, BackendError, BackendResult, CopyId, SymlinkId, TreeId, TreeValue,
};
use jj_content_merges::files::{FileMergeHunkLevel, MergeOptions};
use jj_files::file_util::{SourceError, SourceKind};
use jj_ids::object_id::ObjectId;
use jj_merges::conflict_labels::ConflictLabels;
use jj_merges::merge::{Diff, Merge, SameChange};
use jj_paths::repo_path::{RepoPath, RepoPathBuf};
use jj_tree_builder::tree_builder::TreeBuilder;
use jj_trees::memory_backend::MemoryBackend;
use std::alloc::{AllocError, Global};

pub const LINES: MergeOptions = MergeOptions {
    hunk_level: FileMergeHunkLevel::Line,
    same_change: SameChange::Accept,
};

/// A path and a content. `*` before it marks an executable file, `@` a symbolic link, and `-` an
/// absent file.
pub type Row = (&'static str, &'static str);

fn bad_path(alloc: Global) -> BackendError {
    match String::from_str(alloc, "not a path") {
        Ok(message) => BackendError::Other(SourceError {
            kind: SourceKind::Data,
            message,
        }),
        Err(_) => BackendError::Memory,
    }
}

/// Creates a path; fails if the string is not a path.
pub fn path_of(alloc: Global, text: &str) -> BackendResult<RepoPathBuf> {
    match RepoPathBuf::from_internal_string(String::from_str(alloc, text)?) {
        Ok(path) => Ok(path),
        Err(_) => Err(bad_path(alloc)),
    }
}

fn write_file(
    alloc: Global,
    backend: &mut MemoryBackend,
    content: &[u8],
    executable: bool,
) -> BackendResult<Option<TreeValue>> {
    let id = backend.write_file(alloc, RepoPath::root(), content)?;
    Ok(Some(TreeValue::File {
        id,
        executable,
        copy_id: CopyId::placeholder(alloc),
    }))
}

/// Writes the file of a content.
pub fn write_value(
    alloc: Global,
    backend: &mut MemoryBackend,
    text: &str,
) -> BackendResult<Option<TreeValue>> {
    match text.as_bytes() {
        [b'-'] => Ok(None),
        [b'*', content @ ..] => write_file(alloc, backend, content, true),
        [b'@', target @ ..] => Ok(Some(TreeValue::Symlink(SymlinkId::from_bytes(alloc, target)?))),
        content => write_file(alloc, backend, content, false),
    }
}

/// Writes the tree of the rows.
pub fn write_tree(
    alloc: Global,
    backend: &mut MemoryBackend,
    rows: &[Row],
) -> BackendResult<TreeId> {
    let mut builder = TreeBuilder::new(alloc, backend.empty_tree_id().clone()?);
    for (path, text) in rows {
        if let Some(value) = write_value(alloc, backend, text)? {
            builder.set(path_of(alloc, path)?, value)?;
        }
    }
    builder.write_tree(alloc, backend)
}

/// Returns the merge of two sides with a base.
pub fn three<T: Drop>(alloc: Global, left: T, base: T, right: T) -> Result<Merge<T>, AllocError> {
    let mut diffs = Vec::new(alloc);
    diffs.push(Diff::new(base, right))?;
    Merge::from_diffs(alloc, left, diffs)
}

/// Returns the labels of the files of a merge as Git names them.
pub fn labels(alloc: Global) -> Result<ConflictLabels, AllocError> {
    let left = String::from_str(alloc, "left")?;
    let base = String::from_str(alloc, "base")?;
    let right = String::from_str(alloc, "right")?;
    Ok(ConflictLabels::from_merge(three(alloc, left, base, right)?))
}

/// Appends a value as in a row, with the content of a file.
pub fn push_value<B: Backend>(
    alloc: Global,
    output: &mut String,
    backend: &B,
    value: &Option<TreeValue>,
) -> BackendResult<()> {
    match value {
        Some(TreeValue::File { id, executable, .. }) => {
            if *executable {
                output.push('*')?;
            }
            push_bytes(output, &backend.read_file(alloc, RepoPath::root(), id)?)?;
        }
        Some(TreeValue::Symlink(id)) => {
            output.push('@')?;
            push_bytes(output, id.as_bytes())?;
        }
        Some(_) => output.push('?')?,
        None => output.push('-')?,
    }
    Ok(())
}

/// Appends ASCII bytes.
pub fn push_bytes(output: &mut String, bytes: &[u8]) -> Result<(), AllocError> {
    for byte in bytes {
        output.push(char::from(*byte))?;
    }
    Ok(())
}
