//! Tests whether an object is stored under its digest, or a different object is.
ghost use Rattle.std.specs.Prelude.{◌≡◌, ◌≢◌, ◌⊎◌, IsTrue, false, Option, Some, None};
ghost use Rattle.std.specs.Prelude.{IfOk, IfErr, OnOk};
ghost use Rattle.std.specs.Bool.{Decides};
ghost use Rattle.jj_backend.specs.Errors.{IsOtherOf};
ghost use Rattle.jj_backend.specs.Objects.{IsFree, IsRead};
ghost use Rattle.jj_trees.specs.MemoryObjects.{IsStoreError, objects_of};

use jj_backend::backend::{
    Backend, BackendError, BackendResult, Commit, CommitId, CopyHistory, CopyId, FileId, SymlinkId,
    Tree, TreeId,
};
use jj_files::file_util::{SourceError, SourceKind};
use jj_ids::object_id::ObjectId;
use jj_paths::repo_path::RepoPath;
use jj_trees::memory_backend::MemoryBackend;
use std::alloc::Global;

fn taken_error(alloc: Global) -> BackendError
    ensures { IsOtherOf SourceKind.Other result ⊎ (result ≡ BackendError.Memory) }
{
    match String::from_str(alloc, "a different object has the digest") {
        Ok(message) => BackendError::Other(SourceError {
            kind: SourceKind::Other,
            message,
        }),
        Err(_) => BackendError::Memory,
    }
}

// Returns whether the file is stored under this digest. Fails with `Other` if a different one is.
pub(crate) fn has_file(
    alloc: Global,
    backend: &MemoryBackend,
    digest: &[u8],
    contents: &[u8],
) -> BackendResult<bool>
    ensures free { OnOk result (IsFree (objects_of backend.now).files digest.now contents.now) }
    ensures found { IfOk result (λ has. IsTrue has
        → (objects_of backend.now).files digest.now ≡ Some contents.now) }
    ensures absent { IfOk result (λ has. has ≡ false
        → (objects_of backend.now).files digest.now ≡ None) }
    ensures error { IfErr result (IsStoreError backend.now.files digest.now contents.now) }
{
    let id = FileId::from_bytes(alloc, digest)?;
    match backend.read_file(alloc, RepoPath::root(), &id) {
        Ok(found) => {
            if found.as_slice() == contents {
                Ok(true)
            } else {
                Err(taken_error(alloc))
            }
        }
        Err(BackendError::ObjectNotFound { .. }) => Ok(false),
        Err(error) => Err(error),
    }
}

// Returns whether the link is stored under this digest. Fails with `Other` if a different one is.
pub(crate) fn has_symlink(
    alloc: Global,
    backend: &MemoryBackend,
    digest: &[u8],
    target: &str,
) -> BackendResult<bool>
    ensures free { OnOk result (IsFree (objects_of backend.now).symlinks digest.now target.now) }
    ensures found { IfOk result (λ has. IsTrue has
        → (objects_of backend.now).symlinks digest.now ≡ Some target.now) }
    ensures absent { IfOk result (λ has. has ≡ false
        → (objects_of backend.now).symlinks digest.now ≡ None) }
    ensures error { IfErr result (IsStoreError backend.now.symlinks digest.now target.now) }
{
    let id = SymlinkId::from_bytes(alloc, digest)?;
    match backend.read_symlink(alloc, RepoPath::root(), &id) {
        Ok(found) => {
            if found.as_str() == target {
                Ok(true)
            } else {
                Err(taken_error(alloc))
            }
        }
        Err(BackendError::ObjectNotFound { .. }) => Ok(false),
        Err(error) => Err(error),
    }
}

// Returns whether the value was read. Fails with `Other` if a different one was, and with the error
// of the read unless that is `ObjectNotFound`.
fn was_read<V: PartialEq + Drop>(
    alloc: Global,
    read: BackendResult<V>,
    value: &V,
) -> BackendResult<bool>
    requires { (v w : V) → Decides (V.eq v w) (v ≡ w) }
    ensures free { (found : Option V) → IsRead (λ e. e ≡ BackendError.Memory) found (λ v. v) read
        → OnOk result ((found ≡ None) ⊎ (found ≡ Some value.now)) }
    ensures found { (found : Option V) → IsRead (λ e. e ≡ BackendError.Memory) found (λ v. v) read
        → IfOk result (λ has. IsTrue has → found ≡ Some value.now) }
    ensures absent { (found : Option V) → IsRead (λ e. e ≡ BackendError.Memory) found (λ v. v) read
        → IfOk result (λ has. has ≡ false → found ≡ None) }
    ensures error { (found : Option V) → IsRead (λ e. e ≡ BackendError.Memory) found (λ v. v) read
        → IfErr result (λ e. (e ≡ BackendError.Memory) ⊎ (IsOtherOf SourceKind.Other e
        × ((other : V) × (found ≡ Some other) × (other ≢ value.now)))) }
{
    match read {
        Ok(found) => {
            if found == *value {
                Ok(true)
            } else {
                Err(taken_error(alloc))
            }
        }
        Err(BackendError::ObjectNotFound { .. }) => Ok(false),
        Err(error) => Err(error),
    }
}

// Returns whether the copy history is stored under this digest. Fails with `Other` if a different
// one is.
pub(crate) fn has_copy(
    alloc: Global,
    backend: &MemoryBackend,
    digest: &[u8],
    copy: &CopyHistory,
) -> BackendResult<bool>
    ensures free { OnOk result (IsFree (objects_of backend.now).copies digest.now copy.now) }
    ensures found { IfOk result (λ has. IsTrue has
        → (objects_of backend.now).copies digest.now ≡ Some copy.now) }
    ensures absent { IfOk result (λ has. has ≡ false
        → (objects_of backend.now).copies digest.now ≡ None) }
    ensures error { IfErr result (IsStoreError backend.now.copies digest.now copy.now) }
{
    let id = CopyId::from_bytes(alloc, digest)?;
    was_read(alloc, backend.read_copy(alloc, &id), copy)
}

// Returns whether the tree is stored under this digest. Fails with `Other` if a different one is.
pub(crate) fn has_tree(
    alloc: Global,
    backend: &MemoryBackend,
    digest: &[u8],
    tree: &Tree,
) -> BackendResult<bool>
    ensures free { OnOk result (IsFree (objects_of backend.now).trees digest.now tree.now) }
    ensures found { IfOk result (λ has. IsTrue has
        → (objects_of backend.now).trees digest.now ≡ Some tree.now) }
    ensures absent { IfOk result (λ has. has ≡ false
        → (objects_of backend.now).trees digest.now ≡ None) }
    ensures error { IfErr result (IsStoreError backend.now.trees digest.now tree.now) }
{
    let id = TreeId::from_bytes(alloc, digest)?;
    was_read(alloc, backend.read_tree(alloc, RepoPath::root(), &id), tree)
}

// Returns whether the commit is stored under this digest. Fails with `Other` if a different one is.
pub(crate) fn has_commit(
    alloc: Global,
    backend: &MemoryBackend,
    digest: &[u8],
    commit: &Commit,
) -> BackendResult<bool>
    ensures free { OnOk result (IsFree (objects_of backend.now).commits digest.now commit.now) }
    ensures found { IfOk result (λ has. IsTrue has
        → (objects_of backend.now).commits digest.now ≡ Some commit.now) }
    ensures absent { IfOk result (λ has. has ≡ false
        → (objects_of backend.now).commits digest.now ≡ None) }
    ensures error { IfErr result (IsStoreError backend.now.commits digest.now commit.now) }
{
    let id = CommitId::from_bytes(alloc, digest)?;
    was_read(alloc, backend.read_commit(alloc, &id), commit)
}
