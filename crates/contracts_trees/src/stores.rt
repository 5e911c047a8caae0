//! Callers of `jj_stores`.
ghost use Rattle.std.specs.Prelude.{◌≡◌, ◌⊎◌, Some, Err, IsNone, MatchResult, OnOk, bytes_eq};
ghost use Rattle.std.specs.Map.{lookup};
ghost use Rattle.jj_content.specs.Content.{Absorbs};
ghost use Rattle.jj_stores.specs.FirstDecisive.{IsFirstDecisive, IsVerified, backends};
ghost use Rattle.jj_stores.specs.JoinSteps.{YieldsRow};
ghost use Rattle.jj_stores.specs.Signer.{cache_entries, capacity_of};
ghost use Rattle.jj_stores.specs.Views.{view_content};

use jj_content::content_hash::{ContentHash, DigestUpdate};
use jj_ids::object_id::CommitId;
use jj_ids::ref_name::RefName;
use jj_stores::op_store::{LocalRemoteRefTarget, MergeJoinRefViews, View};
use jj_stores::signing::{SignError, SignResult, Signer, SigningBackend, Verification};
use std::alloc::{AllocError, Global};
use std::collections::BTreeMap;

/// `Iterator::next` of `MergeJoinRefViews`.
pub fn next_row<'a>(
    join: &mut MergeJoinRefViews<'a>,
) -> Option<Result<(RefName<'a>, LocalRemoteRefTarget<'a>), AllocError>>
    ensures { YieldsRow join.old result join.new }
{
    join.next()
}

/// `ContentHash::hash` of `View`.
pub fn hash_view<D: DigestUpdate>(
    alloc: Global,
    view: &View,
    state: &mut D,
) -> Result<(), AllocError>
    ensures { OnOk result (Absorbs D.absorbed state.old state.new (view_content view.now)) }
{
    view.hash(alloc, state)
}

/// `Signer::verify`, of a commit that is not cached.
pub fn verify(
    signer: &mut Signer,
    commit_id: &CommitId,
    data: &[u8],
    signature: &[u8],
) -> SignResult<Verification>
    requires { IsNone (lookup (bytes_eq commit_id.now) (cache_entries signer.old)) }
    ensures { MatchResult result
        (λ r. IsVerified
        (λ b. (⟦<dyn SigningBackend as SigningBackend>⟧ b.vtable).reads b.value signature.now)
        (λ b. (⟦<dyn SigningBackend as SigningBackend>⟧ b.vtable).may_verify b.value «data».now
        signature.now)
        (backends signer.old.main signer.old.others.items) commit_id.now
        (capacity_of signer.old) r (cache_entries signer.old) (cache_entries signer.new))
        (λ e. (e ≡ SignError.Memory) ⊎ IsFirstDecisive
        (λ b. (⟦<dyn SigningBackend as SigningBackend>⟧ b.vtable).reads b.value signature.now)
        (λ b. (⟦<dyn SigningBackend as SigningBackend>⟧ b.vtable).may_verify b.value «data».now
        signature.now)
        (backends signer.old.main signer.old.others.items) (Some (Err e))) }
{
    signer.verify(commit_id, data, signature)
}
