//! Signatures of commits that are written.
ghost use Rattle.std.specs.Prelude.{◌≡◌, ◌≢◌, ◌⊎◌, [], true, Some, IfOk, IfErr, OnOk};
ghost use Rattle.jj_backend.specs.Errors.{IsOtherOf};
ghost use Rattle.jj_backend.specs.Objects.{FailsToSign, IsConvertedError, IsSigned};

use super::object_maps::other_error;
use jj_backend::backend::{BackendError, BackendResult, Commit, SecureSig, SigningFn};
use jj_backend::signing::SignError;
use jj_content::content_hash::content_of;
use jj_files::file_util::{SourceError, SourceKind};
use std::alloc::Global;

// Converts an error of a signer into one of the backend.
fn convert_sign_error(alloc: Global, error: SignError) -> BackendError
    ensures { (result ≡ BackendError.Memory) ⊎ IsConvertedError error result }
{
    match error {
        SignError::Backend(source) => BackendError::Other(source),
        SignError::InvalidSignatureFormat => match String::from_str(alloc, "invalid signature") {
            Ok(message) => BackendError::Other(SourceError {
                kind: SourceKind::Data,
                message,
            }),
            Err(_) => BackendError::Memory,
        },
        SignError::Memory => BackendError::Memory,
    }
}

/// Returns the error of writing a commit without parents.
pub fn no_parents_error(alloc: Global) -> BackendError
    ensures { IsOtherOf SourceKind.Other result ⊎ (result ≡ BackendError.Memory) }
{
    other_error(alloc, "a commit needs a parent")
}

/// Replaces the signature of a commit by one of its content. Fails with `Other` for a commit
/// without parents, before it calls the signer, and with the signer's error.
pub fn sign_commit<S: SigningFn>(
    alloc: Global,
    mut commit: Commit,
    signer: &mut S,
) -> BackendResult<Commit>
    ensures signed { IfOk result (IsSigned S.may_sign (Some signer.old) commit) }
    ensures parents { OnOk result (commit.parents ≢ []) }
    ensures not_called { commit.parents ≡ [] → signer.new ≡ signer.old }
    ensures error { IfErr result (λ e. (e ≡ BackendError.Memory)
        ⊎ (IsOtherOf SourceKind.Other e × (commit.parents ≡ []))
        ⊎ ((commit.parents ≢ []) × FailsToSign S.may_sign (Some signer.old) commit e)) }
{
    if commit.parents.is_empty() {
        return Err(no_parents_error(alloc));
    }
    commit.secure_sig = None;
    let signed_data = content_of(alloc, &commit)?;
    match signer.sign(alloc, &signed_data) {
        Ok(sig) => {
            commit.secure_sig = Some(SecureSig { signed_data, sig });
            Ok(commit)
        }
        Err(error) => Err(convert_sign_error(alloc, error)),
    }
}
