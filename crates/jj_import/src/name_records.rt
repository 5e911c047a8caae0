//! Writing of records of names.
use crate::error::ImportError;
use crate::names::{CHANGE_ID, GIT_IDS, REFS};
use jj_backend::backend::{
    Backend, ChangeId, CommitId, CopyId, NoSigner, TreeId, TreeValue, make_root_commit,
};
use jj_ids::object_id::ObjectId;
use jj_paths::repo_path::RepoPathBuf;
use jj_tree_builder::tree_builder::TreeBuilder;
use std::alloc::{AllocError, Global};
use std::collections::BTreeMap;

fn push_line(out: &mut Vec<u8>, first: &str, second: &str) -> Result<(), AllocError> {
    out.extend_from_slice(first.as_bytes())?;
    out.push(b' ')?;
    out.extend_from_slice(second.as_bytes())?;
    out.push(b'\n')?;
    Ok(())
}

// Returns the file `refs`: lines `COMMIT REF`, in ascending order of the refs.
pub(crate) fn refs_text(
    alloc: Global,
    refs: &BTreeMap<String, CommitId>,
) -> Result<Vec<u8>, AllocError> {
    let mut out = Vec::new(alloc);
    for (name, id) in refs.iter() {
        push_line(&mut out, id.hex(alloc)?.as_str(), name.as_str())?;
    }
    Ok(out)
}

// Returns the file `git-ids`: lines `GIT_ID COMMIT` for these ids of Git.
pub(crate) fn git_ids_text(
    alloc: Global,
    git_ids: &[String],
    commits: &BTreeMap<String, CommitId>,
) -> Result<Vec<u8>, AllocError> {
    let mut out = Vec::new(alloc);
    for git_id in git_ids {
        if let Some(id) = commits.get(git_id.as_str()) {
            push_line(&mut out, git_id.as_str(), id.hex(alloc)?.as_str())?;
        }
    }
    Ok(out)
}

// Writes a file, and sets it at the root of a tree.
fn set_file<B: Backend>(
    alloc: Global,
    backend: &mut B,
    builder: &mut TreeBuilder,
    name: &'static str,
    contents: &[u8],
) -> Result<(), ImportError> {
    let Ok(path) = RepoPathBuf::from_internal_string(String::from_str(alloc, name)?) else {
        return Err(ImportError::Memory);
    };
    let id = backend.write_file(alloc, path.as_path(), contents)?;
    let value = TreeValue::File {
        id,
        executable: false,
        copy_id: CopyId::placeholder(alloc),
    };
    builder.set(path, value)?;
    Ok(())
}

// Writes the tree of a record.
fn write_files<B: Backend>(
    alloc: Global,
    backend: &mut B,
    refs: &[u8],
    git_ids: &[u8],
) -> Result<TreeId, ImportError> {
    let empty = backend.empty_tree_id().clone()?;
    let mut builder = TreeBuilder::new(alloc, empty);
    set_file(alloc, backend, &mut builder, REFS, refs)?;
    set_file(alloc, backend, &mut builder, GIT_IDS, git_ids)?;
    Ok(builder.write_tree(alloc, backend)?)
}

// Writes a record of names after the last one, or after the root commit.
pub(crate) fn write_record<B: Backend>(
    alloc: Global,
    backend: &mut B,
    last: Option<&CommitId>,
    refs: &[u8],
    git_ids: &[u8],
) -> Result<CommitId, ImportError> {
    let parent = match last {
        Some(last) => last.clone()?,
        None => backend.root_commit_id().clone()?,
    };
    let tree = write_files(alloc, backend, refs, git_ids)?;
    let mut record = make_root_commit(alloc, ChangeId::from_bytes(alloc, CHANGE_ID)?, tree);
    record.parents.push(parent)?;
    let (id, _) = backend.write_commit(alloc, record, None::<&mut NoSigner>)?;
    Ok(id)
}
