//! Callers of the in-memory backend of `jj_trees`.
ghost use Rattle.std.specs.Prelude.{◌≡◌, ◌≢◌, ◌⊎◌, [], Some, IfErr, IfOk};
ghost use Rattle.jj_backend.specs.Contents.{bytes_content};
ghost use Rattle.jj_backend.specs.Errors.{IsOtherOf};
ghost use Rattle.jj_backend.specs.Objects.{AddsFile, AddsTree, FailsToSign, IsSigned};
ghost use Rattle.jj_files.specs.declared.file_util.errors.SourceKind.TheVariants.{Other as OtherKind};
ghost use Rattle.jj_trees.specs.MemoryObjects.{IsStoreError, object_id, objects_of};

use jj_backend::backend::{
    Backend, BackendError, BackendResult, Commit, FileId, SigningFn, Tree, TreeId,
};
use jj_content::content_hash::content_of;
use jj_paths::repo_path::RepoPath;
use jj_trees::memory_backend;
use jj_trees::memory_backend::MemoryBackend;
use std::alloc::Global;

/// `Backend::write_file` of `MemoryBackend`.
pub fn write_file(
    alloc: Global,
    backend: &mut MemoryBackend,
    contents: &[u8],
) -> BackendResult<FileId>
    ensures ok { IfOk result (λ id.
        AddsFile (objects_of backend.old) (objects_of backend.new) id contents.now) }
    ensures error { IfErr result (IsStoreError backend.old.files
        (object_id backend.old.id_length (bytes_content contents.now)) contents.now) }
{
    backend.write_file(alloc, RepoPath::root(), contents)
}

/// `Backend::write_tree` of `MemoryBackend`.
pub fn write_tree(
    alloc: Global,
    backend: &mut MemoryBackend,
    contents: &Tree,
) -> BackendResult<TreeId>
    ensures { IfOk result (λ id.
        AddsTree (objects_of backend.old) (objects_of backend.new) id contents.now) }
{
    let written = backend.write_tree(alloc, RepoPath::root(), contents);
    written
}

/// `sign_commit`.
pub fn sign_commit<S: SigningFn>(
    alloc: Global,
    commit: Commit,
    signer: &mut S,
) -> BackendResult<Commit>
    ensures signed { IfOk result (IsSigned S.may_sign (Some signer.old) commit) }
    ensures error { IfErr result (λ e. (e ≡ BackendError.Memory)
        ⊎ (IsOtherOf OtherKind e × (commit.parents ≡ []))
        ⊎ ((commit.parents ≢ []) × FailsToSign S.may_sign (Some signer.old) commit e)) }
{
    memory_backend::sign_commit(alloc, commit, signer)
}
