//! Proved callers of the in-memory backend: IDs, signatures, and reads that find nothing.
ghost use Rattle.std.specs.Prelude.{◌≡◌, [], IfErr, IfOk, IsErr, IsSome, MatchOption, None, Some, string_bytes};
ghost use Rattle.jj_content.specs.Hex.{hex};
ghost use Rattle.jj_backend.specs.Objects.{unsigned_content};
ghost use Rattle.jj_trees.specs.MemoryObjects.{objects_of};

use jj_backend::backend::{Backend, BackendError, BackendResult, Commit, SigningFn, Tree, TreeId};
use jj_backend::signing::SignResult;
use jj_paths::repo_path::RepoPath;
use jj_trees::memory_backend::MemoryBackend;
use std::alloc::Global;

/// Returns the ID in hex, as the error names it, if the backend has no tree with it.
pub fn missing_tree(
    alloc: Global,
    backend: &MemoryBackend,
    id: &TreeId,
) -> BackendResult<Option<String>>
    ensures missing { IfOk result (λ missing. MatchOption missing
        (IsSome ((objects_of backend.now).trees id.now))
        (λ name. ((objects_of backend.now).trees id.now ≡ None)
        × (string_bytes name ≡ hex id.now))) }
    ensures error { IfErr result (λ e. e ≡ BackendError.Memory) }
{
    match backend.read_tree(alloc, RepoPath::root(), id) {
        Ok(_tree) => Ok(None),
        Err(BackendError::ObjectNotFound { hash, .. }) => Ok(Some(hash)),
        Err(error) => Err(error),
    }
}

/// Writes a tree to two backends. It has one ID if their IDs have one length.
pub fn write_to_both(
    alloc: Global,
    first: &mut MemoryBackend,
    second: &mut MemoryBackend,
    tree: &Tree,
) -> BackendResult<(TreeId, TreeId)>
    ensures { first.old.id_length ≡ second.old.id_length
        → IfOk result (λ ids. ids.0 ≡ ids.1) }
{
    let id = first.write_tree(alloc, RepoPath::root(), tree)?;
    let other = second.write_tree(alloc, RepoPath::root(), tree)?;
    Ok((id, other))
}

/// A signer whose signatures are the signed bytes. It counts its calls.
#[derive(Drop)]
pub struct EchoSigner {
    pub calls: u64,
}

impl SigningFn for EchoSigner {
    ghost may_sign = { λ _ bytes result. IfOk result (λ sig. sig ≡ bytes) };

    fn sign(&mut self, alloc: Global, data: &[u8]) -> SignResult<Vec<u8>> {
        self.calls = self.calls.saturating_add(1);
        Ok(Vec::from_slice(alloc, data)?)
    }
}

/// Writes a commit with a signature of its content, and returns the stored one. Without parents
/// there is an error, and the signer is not called.
pub fn write_signed(
    alloc: Global,
    backend: &mut MemoryBackend,
    commit: Commit,
    signer: &mut EchoSigner,
) -> BackendResult<Commit>
    ensures signed { IfOk result (λ stored. stored ≡ record commit {
      secure_sig = Some (record {
        signed_data = unsigned_content commit;
        sig = unsigned_content commit;
      });
    }) }
    ensures refused { commit.parents ≡ [] → IsErr result }
    ensures not_called { commit.parents ≡ [] → signer.new ≡ signer.old }
{
    let (_id, stored) = backend.write_commit(alloc, commit, Some(signer))?;
    Ok(stored)
}
