//! Decoding of refs, views and operations.
ghost use Rattle.std.specs.Prelude.{◌≡◌, ℕ, ◌<◌, ◌≤◌, List, length, ◌++◌, IfOk, IfErr};
ghost use Rattle.jj_decode.specs.Contents.{AreContents};
ghost use Rattle.jj_decode.specs.Decoding.{IsContentAt, IsMalformedAt};
ghost use Rattle.jj_decode.specs.ViewContents.{StateContents, state_contents, RemoteRefContents, remote_ref_contents, RemoteViewContents, remote_view_contents, ViewContents, view_contents};
ghost use Rattle.jj_decode.specs.OperationContents.{RangeContents, range_contents, MetadataContents, metadata_contents, OperationContents, operation_contents};
ghost use Rattle.jj_decode.specs.Errors.{NoErrors, VariantErrors};

use crate::error::DecodeError;
use crate::read_content::{ReadContent, read_both};
use jj_backend::backend::{CommitId, Timestamp};
use jj_ids::object_id::{OperationId, ViewId};
use jj_ids::ref_name::{GitRefNameBuf, RefNameBuf, RemoteNameBuf, WorkspaceNameBuf};
use jj_stores::op_store::{
    Operation, OperationMetadata, RefTarget, RemoteRef, RemoteRefState, RemoteView, TimestampRange,
    View,
};
use std::alloc::Global;
use std::collections::{BTreeMap, HashSet};

impl ReadContent for RemoteRefState {
    ghost is_content = { StateContents };

    ghost errors = { VariantErrors 2 (λ _. NoErrors) };

    ghost contents = { state_contents };

    fn read(alloc: Global, bytes: &[u8], start: usize) -> Result<(Self, usize), DecodeError> {
        let (tag, end) = u32::read(alloc, bytes, start)?;
        match tag {
            0 => Ok((RemoteRefState::New, end)),
            1 => Ok((RemoteRefState::Tracked, end)),
            _ => Err(DecodeError::unknown_tag(start)),
        }
    }
}

impl ReadContent for RemoteRef {
    ghost is_content = { RemoteRefContents };

    ghost errors = { ⟦<(RefTarget, RemoteRefState) as ReadContent>⟧.errors };

    ghost contents = { remote_ref_contents };

    fn read(alloc: Global, bytes: &[u8], start: usize) -> Result<(Self, usize), DecodeError> {
        let ((target, state), end) = read_both(alloc, bytes, start)?;
        Ok((RemoteRef { target, state }, end))
    }
}

impl ReadContent for RemoteView {
    ghost is_content = { RemoteViewContents };

    ghost errors = { ⟦<(BTreeMap<RefNameBuf, RemoteRef>, BTreeMap<RefNameBuf, RemoteRef>)
        as ReadContent>⟧.errors };

    ghost contents = { remote_view_contents };

    fn read(alloc: Global, bytes: &[u8], start: usize) -> Result<(Self, usize), DecodeError> {
        let ((bookmarks, tags), end) = read_both(alloc, bytes, start)?;
        Ok((RemoteView { bookmarks, tags }, end))
    }
}

impl ReadContent for View {
    ghost is_content = { ViewContents };

    ghost errors = { ⟦<((HashSet<CommitId>,
        (BTreeMap<RefNameBuf, RefTarget>, BTreeMap<RefNameBuf, RefTarget>)),
        ((BTreeMap<RemoteNameBuf, RemoteView>, BTreeMap<GitRefNameBuf, RefTarget>),
        (BTreeMap<WorkspaceNameBuf, RefTarget>, BTreeMap<WorkspaceNameBuf, CommitId>)))
        as ReadContent>⟧.errors };

    ghost contents = { view_contents };

    fn read(alloc: Global, bytes: &[u8], start: usize) -> Result<(Self, usize), DecodeError> {
        let ((local, (remote, git)), end) = read_both(alloc, bytes, start)?;
        let (head_ids, (local_bookmarks, local_tags)) = local;
        let (remote_views, git_refs) = remote;
        let (git_heads, wc_commit_ids) = git;
        let view = View {
            head_ids,
            local_bookmarks,
            local_tags,
            remote_views,
            git_refs,
            git_heads,
            wc_commit_ids,
        };
        Ok((view, end))
    }
}

impl ReadContent for TimestampRange {
    ghost is_content = { RangeContents };

    ghost errors = { ⟦<(Timestamp, Timestamp) as ReadContent>⟧.errors };

    ghost contents = { range_contents };

    fn read(alloc: Global, bytes: &[u8], start: usize) -> Result<(Self, usize), DecodeError> {
        let ((first, last), end) = read_both(alloc, bytes, start)?;
        let range = TimestampRange {
            start: first,
            end: last,
        };
        Ok((range, end))
    }
}

impl ReadContent for OperationMetadata {
    ghost is_content = { MetadataContents };

    ghost errors = { ⟦<((TimestampRange, String), ((String, String),
        (bool, (Option<WorkspaceNameBuf>, BTreeMap<String, String>)))) as ReadContent>⟧.errors };

    ghost contents = { metadata_contents };

    fn read(alloc: Global, bytes: &[u8], start: usize) -> Result<(Self, usize), DecodeError> {
        let ((event, (agent, context)), end) = read_both(alloc, bytes, start)?;
        let (time, description) = event;
        let (hostname, username) = agent;
        let (is_snapshot, (workspace_name, attributes)) = context;
        let metadata = OperationMetadata {
            time,
            description,
            hostname,
            username,
            is_snapshot,
            workspace_name,
            attributes,
        };
        Ok((metadata, end))
    }
}

impl ReadContent for Operation {
    ghost is_content = { OperationContents };

    ghost errors = { ⟦<((ViewId, Vec<OperationId>),
        (OperationMetadata, Option<BTreeMap<CommitId, Vec<CommitId>>>)) as ReadContent>⟧.errors };

    ghost contents = { operation_contents };

    fn read(alloc: Global, bytes: &[u8], start: usize) -> Result<(Self, usize), DecodeError> {
        let ((links, details), end) = read_both(alloc, bytes, start)?;
        let (view_id, parents) = links;
        let (metadata, commit_predecessors) = details;
        let operation = Operation {
            view_id,
            parents,
            metadata,
            commit_predecessors,
        };
        Ok((operation, end))
    }
}
