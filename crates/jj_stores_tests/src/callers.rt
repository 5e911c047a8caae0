//! Proved callers of signers, stores, views and joins.
ghost use Rattle.std.specs.Prelude.{◌≡◌, ◌≤◌, ◌∷◌, [], ◌⊎◌, ℕ, true, false, List, Some, None, IsErr, IsNone, IsSome, IsSomeAnd, MatchOption, OnErr, IfOk, IfErr, length, map};
ghost use Rattle.std.specs.List.{list_any};
ghost use Rattle.std.specs.Map.{lookup};
ghost use Rattle.std.specs.Str.{bytes_eq};
ghost use Rattle.jj_stores.specs.FirstDecisive.{backends};
ghost use Rattle.jj_stores.specs.FlatRefs.{IsFlattened, symbol_ref_of};
ghost use Rattle.jj_stores.specs.JoinSteps.{row_of};
ghost use Rattle.jj_stores.specs.OperationLaws.{operation_eq};
ghost use Rattle.jj_stores.specs.OpStores.{IsKeptOperation, is_newer, is_not_found};
ghost use Rattle.jj_stores.specs.Signer.{cache_entries, capacity_of};
ghost use Rattle.jj_stores.specs.Verdict.{Verdict, is_unknown};
ghost use Rattle.jj_stores.specs.ViewJoins.{IsViewJoin};
ghost use Rattle.jj_stores.specs.ViewLaws.{view_eq};
ghost use Rattle.jj_stores_tests.specs.OnlyMatches.{IsOnlyMatch};

use crate::memory_op_store::MemoryOpStore;
use jj_backend::backend::MillisSinceEpoch;
use jj_ids::object_id::{CommitId, HexPrefix, OperationId, PrefixResolution, ViewId};
use jj_ids::ref_name::{RefName, RemoteRefSymbol};
use jj_stores::op_store::{
    LocalRemoteRefTarget, OpStore, OpStoreError, OpStoreResult, Operation, RemoteRef, View,
    flatten_remote_refs, merge_join_ref_views,
};
use jj_stores::signing::{SignError, SignResult, Signer, SigningBackend, Verification};
use std::alloc::{AllocError, Global};
use std::collections::HashSet;
use std::slice;

/// Verifies a cached commit: the result is the cached verification, for any data and signature.
pub fn verify_again(
    signer: &mut Signer,
    commit_id: &CommitId,
    known: &Verification,
) -> Result<Verification, SignError>
    requires { lookup (bytes_eq commit_id.now) (cache_entries signer.old) ≡ Some known.now }
    ensures { IfOk result (λ found. found ≡ known.now) }
{
    signer.verify(commit_id, b"", b"")
}

/// Verifies a commit with one backend and an empty cache: `Good` or `Bad` comes from the backend.
pub fn verify_first(
    alloc: Global,
    backend: Box<dyn SigningBackend>,
    commit_id: &CommitId,
    data: &[u8],
    signature: &[u8],
) -> SignResult<Verification>
    ensures { IfOk result (λ found. is_unknown found.status ≡ false
        → may_verify backend «data».now signature.now (Ok found)) }
{
    let mut signer = Signer::new(alloc, Some(backend), Vec::new(alloc))?;
    let found = signer.verify(commit_id, data, signature)?;
    Ok(found)
}

/// Verifies a commit that is not cached. The cache is unchanged after an error, and after `Unknown`
/// if a backend can read the signature; it never exceeds its capacity.
pub fn verify_uncached(
    signer: &mut Signer,
    commit_id: &CommitId,
    data: &[u8],
    signature: &[u8],
) -> SignResult<Verification>
    requires { IsNone (lookup (bytes_eq commit_id.now) (cache_entries signer.old)) }
    ensures unknown { IfOk result (λ found. is_unknown found.status ≡ true
        → list_any (λ b. (⟦<dyn SigningBackend as SigningBackend>⟧ b.vtable).reads
        b.value signature.now) (backends signer.old.main signer.old.others.items) ≡ true
        → cache_entries signer.new ≡ cache_entries signer.old) }
    ensures error { OnErr result (cache_entries signer.new ≡ cache_entries signer.old) }
    ensures within_capacity { length (cache_entries signer.new) ≤ capacity_of signer.new }
{
    signer.verify(commit_id, data, signature)
}

/// Signs data with the default key of a backend: the signature is one that the backend returns.
pub fn sign_with(
    alloc: Global,
    backend: Box<dyn SigningBackend>,
    data: &[u8],
) -> SignResult<Vec<u8>>
    ensures { IfOk result (λ signature. may_sign backend «data».now None (Ok signature.items)) }
{
    let signer = Signer::new(alloc, Some(backend), Vec::new(alloc))?;
    let signature = signer.sign(data, None)?;
    Ok(signature)
}

/// Writes a view and reads it back: the result equals the view, and an error is one that the store
/// may fail with.
pub fn written_view<S: OpStore>(alloc: Global, store: &mut S, view: &View) -> OpStoreResult<View>
    ensures view { IfOk result (λ read. view_eq read view.now ≡ true) }
    ensures error { IfErr result (λ e. S.may_fail store.old e ⊎ S.may_fail store.new e) }
{
    let id = store.write_view(alloc, view)?;
    store.read_view(alloc, &id)
}

/// Writes a view to a new in-memory store and reads it back: it is never missing.
pub fn view_in_memory(alloc: Global, root: CommitId, view: &View) -> OpStoreResult<View>
    ensures view { IfOk result (λ read. view_eq read view.now ≡ true) }
    ensures error { IfErr result (λ e. is_not_found e ≡ false) }
{
    let mut store = MemoryOpStore::new(alloc, root)?;
    written_view(alloc, &mut store, view)
}

/// Stores an operation and a child of it, deletes all that the child does not reach, and reads the
/// parent back: it equals the one stored, and an error is one that the store may fail with.
pub fn parent_after_gc<S: OpStore>(
    alloc: Global,
    store: &mut S,
    parent: &Operation,
    mut child: Operation,
    keep_newer: MillisSinceEpoch,
) -> OpStoreResult<Operation>
    ensures parent { IfOk result (λ read. operation_eq read parent.now ≡ true) }
    ensures error { IfErr result (λ e. (e ≡ OpStoreError.Memory) ⊎ ((at : S) × S.may_fail at e)) }
{
    let parent_id = store.write_operation(alloc, parent)?;
    child.parents.push(parent_id.clone()?)?;
    let id = store.write_operation(alloc, &child)?;
    store.gc(alloc, slice::from_ref(&id), keep_newer)?;
    store.read_operation(alloc, &parent_id)
}

/// Stores a view and an operation that has it, deletes all that the operation does not reach, and
/// reads the view back: it equals the one stored, and an error is one that the store may fail with.
pub fn view_after_gc<S: OpStore>(
    alloc: Global,
    store: &mut S,
    view: &View,
    mut operation: Operation,
    keep_newer: MillisSinceEpoch,
) -> OpStoreResult<View>
    ensures view { IfOk result (λ read. view_eq read view.now ≡ true) }
    ensures error { IfErr result (λ e. (e ≡ OpStoreError.Memory) ⊎ ((at : S) × S.may_fail at e)) }
{
    let view_id = store.write_view(alloc, view)?;
    operation.view_id = view_id.clone()?;
    let id = store.write_operation(alloc, &operation)?;
    store.gc(alloc, slice::from_ref(&id), keep_newer)?;
    store.read_view(alloc, &view_id)
}

/// Stores a view and an operation that has it in a new in-memory store, deletes all that the
/// operation does not reach, and reads the view back: it is never missing.
pub fn view_kept_in_memory(
    alloc: Global,
    root: CommitId,
    view: &View,
    operation: Operation,
    keep_newer: MillisSinceEpoch,
) -> OpStoreResult<View>
    ensures view { IfOk result (λ read. view_eq read view.now ≡ true) }
    ensures error { IfErr result (λ e. is_not_found e ≡ false) }
{
    let mut store = MemoryOpStore::new(alloc, root)?;
    view_after_gc(alloc, &mut store, view, operation, keep_newer)
}

/// Deletes all that the root operation does not reach, and reads a view that was written after
/// `keep_newer`: it stays.
pub fn newer_view_after_gc<S: OpStore>(
    alloc: Global,
    store: &mut S,
    id: &ViewId,
    keep_newer: MillisSinceEpoch,
) -> OpStoreResult<View>
    requires newer { is_newer (S.view_times store.old) keep_newer id.now ≡ true }
    requires stored { IsSome (S.views store.old id.now) }
    ensures view { IfOk result (λ read.
        IsSomeAnd (S.views store.old id.now) (λ stored. view_eq read stored ≡ true)) }
    ensures error { IfErr result (λ e. (at : S) × S.may_fail at e) }
{
    store.gc(alloc, &[], keep_newer)?;
    store.read_view(alloc, id)
}

/// Deletes all that the root operation does not reach, and reads an operation that it does not
/// reach and that was not written after `keep_newer`: it is gone.
pub fn read_collected<S: OpStore>(
    alloc: Global,
    store: &mut S,
    id: &OperationId,
    keep_newer: MillisSinceEpoch,
) -> OpStoreResult<Operation>
    requires { ¬ IsKeptOperation (S.operations store.old)
        ((S.fixed store.old).root_operation_id ∷ []) (S.operation_times store.old) keep_newer
        id.now }
    ensures { IsErr result }
{
    store.gc(alloc, &[], keep_newer)?;
    store.read_operation(alloc, id)
}

/// Reads the operation whose id is the only one that the prefix matches. `None` means that it
/// matches no id or several, and an error is one that the store may fail with.
pub fn find_operation<S: OpStore>(
    alloc: Global,
    store: &S,
    prefix: &HexPrefix,
) -> OpStoreResult<Option<Operation>>
    ensures found { IfOk result (λ found. MatchOption found
        ((id : List ℕ) → ¬ IsOnlyMatch (S.operations store.now) prefix.now id)
        (λ read. (id : List ℕ) × IsOnlyMatch (S.operations store.now) prefix.now id
        × IsSomeAnd (S.operations store.now id) (λ stored. operation_eq read stored ≡ true))) }
    ensures error { IfErr result (S.may_fail store.now) }
{
    match store.resolve_operation_id_prefix(alloc, prefix)? {
        PrefixResolution::SingleMatch(id) => {
            let operation = store.read_operation(alloc, &id)?;
            Ok(Some(operation))
        }
        PrefixResolution::NoMatch => Ok(None),
        PrefixResolution::AmbiguousMatch => Ok(None),
    }
}

/// Returns the heads of a new repository: only its root commit.
pub fn root_heads(alloc: Global, root: CommitId) -> Result<HashSet<CommitId>, AllocError>
    ensures { IfOk result (λ heads. heads.keys ≡ root ∷ []) }
{
    let view = View::make_root(alloc, root)?;
    Ok(view.head_ids)
}

/// Joins the local and remote bookmarks of a view: one row for each name, in ascending order, with
/// its remotes in ascending order.
pub fn joined_bookmarks<'a>(
    alloc: Global,
    view: &'a View,
) -> Result<Vec<(RefName<'a>, LocalRemoteRefTarget<'a>)>, AllocError>
    ensures { IfOk result (λ rows. IsViewJoin view.now.local_bookmarks.entries
        (map (λ remote. (remote.0, remote.1.bookmarks.entries)) view.now.remote_views.entries)
        (map row_of rows.items)) }
{
    let mut rows = Vec::new(alloc);
    let remotes = &view.remote_views;
    for row in merge_join_ref_views(alloc, &view.local_bookmarks, remotes, |v| &v.bookmarks)? {
        rows.push(row?)?;
    }
    Ok(rows)
}

/// Returns the tags of all remotes of a view, ordered by tag name and then by remote.
pub fn remote_tags<'a>(
    alloc: Global,
    view: &'a View,
) -> Result<Vec<(RemoteRefSymbol<'a>, &'a RemoteRef)>, AllocError>
    ensures { IfOk result (λ tags. IsFlattened
        (map (λ remote. (remote.0, remote.1.tags.entries)) view.now.remote_views.entries)
        (map symbol_ref_of tags.items)) }
{
    let mut tags = Vec::new(alloc);
    for tag in flatten_remote_refs(alloc, &view.remote_views, |v| &v.tags)? {
        tags.push(tag)?;
    }
    Ok(tags)
}
