//! Round trips at each kind of record: the decoded value equals the encoded one, or memory ran out.
ghost use Rattle.std.specs.Str.{bytes_eq};
ghost use Rattle.std.specs.Cmp.Lexicographic.{pointwise};
ghost use Rattle.jj_backend.specs.Records.{timestamp_eq, signature_eq, secure_sig_eq, copy_history_eq, commit_eq};
ghost use Rattle.jj_backend.specs.TreeLaws.{tree_eq};
ghost use Rattle.jj_decode.specs.Decoding.{DecodesTo};
ghost use Rattle.jj_paths.specs.Orders.{path_eq};
ghost use Rattle.jj_stores.specs.RefTargetLaws.{remote_ref_eq};
ghost use Rattle.jj_stores.specs.ViewLaws.{remote_view_eq, view_eq};
ghost use Rattle.jj_stores.specs.OperationLaws.{range_eq, metadata_eq, operation_eq};

use jj_backend::backend::{
    Commit, CommitId, CopyHistory, MillisSinceEpoch, SecureSig, Signature, Timestamp, Tree, TreeId,
    TreeValue,
};
use jj_content::content_hash::content_of;
use jj_decode::decode::decode_content;
use jj_decode::error::DecodeError;
use jj_ids::ref_name::RefNameBuf;
use jj_merges::merge::Merge;
use jj_paths::repo_path::{RepoPathBuf, RepoPathComponentBuf};
use jj_stores::op_store::{
    Operation, OperationMetadata, RemoteRef, RemoteRefState, RemoteView, TimestampRange, View,
};
use std::alloc::Global;

/// Encodes and decodes an id.
pub fn decode_id(alloc: Global, id: &CommitId) -> Result<CommitId, DecodeError>
    ensures { DecodesTo (bytes_eq id.now) result }
{
    let bytes = content_of(alloc, id)?;
    decode_content(alloc, &bytes)
}

/// Encodes and decodes a name.
pub fn decode_name(alloc: Global, name: &RefNameBuf) -> Result<RefNameBuf, DecodeError>
    ensures { DecodesTo (bytes_eq name.now) result }
{
    let bytes = content_of(alloc, name)?;
    decode_content(alloc, &bytes)
}

/// Encodes and decodes a path component.
pub fn decode_component(
    alloc: Global,
    name: &RepoPathComponentBuf,
) -> Result<RepoPathComponentBuf, DecodeError>
    ensures { DecodesTo (bytes_eq name.now) result }
{
    let bytes = content_of(alloc, name)?;
    decode_content(alloc, &bytes)
}

/// Encodes and decodes a path.
pub fn decode_path(alloc: Global, path: &RepoPathBuf) -> Result<RepoPathBuf, DecodeError>
    ensures { DecodesTo (path_eq path.now) result }
{
    let bytes = content_of(alloc, path)?;
    decode_content(alloc, &bytes)
}

/// Encodes and decodes a merge.
pub fn decode_merge(alloc: Global, merge: &Merge<TreeId>) -> Result<Merge<TreeId>, DecodeError>
    ensures { DecodesTo (pointwise bytes_eq merge.now) result }
{
    let bytes = content_of(alloc, merge)?;
    decode_content(alloc, &bytes)
}

/// Encodes and decodes the milliseconds of a timestamp.
pub fn decode_millis(
    alloc: Global,
    millis: &MillisSinceEpoch,
) -> Result<MillisSinceEpoch, DecodeError>
    ensures { DecodesTo (⟦<MillisSinceEpoch as PartialEq>⟧.eq millis.now) result }
{
    let bytes = content_of(alloc, millis)?;
    decode_content(alloc, &bytes)
}

/// Encodes and decodes a timestamp.
pub fn decode_timestamp(alloc: Global, time: &Timestamp) -> Result<Timestamp, DecodeError>
    ensures { DecodesTo (timestamp_eq time.now) result }
{
    let bytes = content_of(alloc, time)?;
    decode_content(alloc, &bytes)
}

/// Encodes and decodes the signature of an author.
pub fn decode_signature(alloc: Global, signature: &Signature) -> Result<Signature, DecodeError>
    ensures { DecodesTo (signature_eq signature.now) result }
{
    let bytes = content_of(alloc, signature)?;
    decode_content(alloc, &bytes)
}

/// Encodes and decodes a cryptographic signature.
pub fn decode_secure_sig(alloc: Global, sig: &SecureSig) -> Result<SecureSig, DecodeError>
    ensures { DecodesTo (secure_sig_eq sig.now) result }
{
    let bytes = content_of(alloc, sig)?;
    decode_content(alloc, &bytes)
}

/// Encodes and decodes the value of a tree entry.
pub fn decode_tree_value(alloc: Global, value: &TreeValue) -> Result<TreeValue, DecodeError>
    ensures { DecodesTo (⟦<TreeValue as PartialEq>⟧.eq value.now) result }
{
    let bytes = content_of(alloc, value)?;
    decode_content(alloc, &bytes)
}

/// Encodes and decodes a tree.
pub fn decode_tree(alloc: Global, tree: &Tree) -> Result<Tree, DecodeError>
    ensures { DecodesTo (tree_eq tree.now) result }
{
    let bytes = content_of(alloc, tree)?;
    decode_content(alloc, &bytes)
}

/// Encodes and decodes a copy history.
pub fn decode_history(alloc: Global, history: &CopyHistory) -> Result<CopyHistory, DecodeError>
    ensures { DecodesTo (copy_history_eq history.now) result }
{
    let bytes = content_of(alloc, history)?;
    decode_content(alloc, &bytes)
}

/// Encodes and decodes a commit.
pub fn decode_commit(alloc: Global, commit: &Commit) -> Result<Commit, DecodeError>
    ensures { DecodesTo (commit_eq commit.now) result }
{
    let bytes = content_of(alloc, commit)?;
    decode_content(alloc, &bytes)
}

/// Encodes and decodes whether a remote ref is tracked.
pub fn decode_state(alloc: Global, state: &RemoteRefState) -> Result<RemoteRefState, DecodeError>
    ensures { DecodesTo (⟦<RemoteRefState as PartialEq>⟧.eq state.now) result }
{
    let bytes = content_of(alloc, state)?;
    decode_content(alloc, &bytes)
}

/// Encodes and decodes a remote ref.
pub fn decode_remote_ref(alloc: Global, remote: &RemoteRef) -> Result<RemoteRef, DecodeError>
    ensures { DecodesTo (remote_ref_eq remote.now) result }
{
    let bytes = content_of(alloc, remote)?;
    decode_content(alloc, &bytes)
}

/// Encodes and decodes the refs of a remote.
pub fn decode_remote_view(alloc: Global, view: &RemoteView) -> Result<RemoteView, DecodeError>
    ensures { DecodesTo (remote_view_eq view.now) result }
{
    let bytes = content_of(alloc, view)?;
    decode_content(alloc, &bytes)
}

/// Encodes and decodes a view.
pub fn decode_view(alloc: Global, view: &View) -> Result<View, DecodeError>
    ensures { DecodesTo (view_eq view.now) result }
{
    let bytes = content_of(alloc, view)?;
    decode_content(alloc, &bytes)
}

/// Encodes and decodes the time range of an operation.
pub fn decode_range(alloc: Global, range: &TimestampRange) -> Result<TimestampRange, DecodeError>
    ensures { DecodesTo (range_eq range.now) result }
{
    let bytes = content_of(alloc, range)?;
    decode_content(alloc, &bytes)
}

/// Encodes and decodes the metadata of an operation.
pub fn decode_metadata(
    alloc: Global,
    metadata: &OperationMetadata,
) -> Result<OperationMetadata, DecodeError>
    ensures { DecodesTo (metadata_eq metadata.now) result }
{
    let bytes = content_of(alloc, metadata)?;
    decode_content(alloc, &bytes)
}

/// Encodes and decodes an operation.
pub fn decode_operation(alloc: Global, operation: &Operation) -> Result<Operation, DecodeError>
    ensures { DecodesTo (operation_eq operation.now) result }
{
    let bytes = content_of(alloc, operation)?;
    decode_content(alloc, &bytes)
}
