//! Operations on a repository and their metadata.
ghost use Rattle.std.specs.Prelude.{◌≡◌, true};
ghost use Rattle.jj_stores.specs.Operations.{IsRootOperation};
ghost use Rattle.jj_stores.specs.OperationLaws.{metadata_eq, operation_eq};

use super::{OperationId, ViewId};
use jj_backend::backend::{CommitId, MillisSinceEpoch, Timestamp};
use jj_ids::ref_name::WorkspaceNameBuf;
use std::alloc::{AllocError, Global};
use std::collections::BTreeMap;

/// The start and the end of an operation.
#[derive(Clone, Copy, Debug, PartialEq, Eq)]
pub struct TimestampRange {
    pub start: Timestamp,
    pub end: Timestamp,
}

/// The metadata of an operation: its time range, description, host, user and workspace, whether it
/// is a working-copy snapshot, and further attributes.
#[derive(Debug, PartialEq, Eq, Drop)]
pub struct OperationMetadata {
    pub time: TimestampRange,
    pub description: String,
    pub hostname: String,
    pub username: String,
    pub is_snapshot: bool,
    pub workspace_name: Option<WorkspaceNameBuf>,
    pub attributes: BTreeMap<String, String>,
}

/// Clones the metadata; the clone equals it.
impl Clone for OperationMetadata {
    ghost is_clone = { λ metadata c. metadata_eq c metadata ≡ true };

    fn clone(&self) -> Result<Self, AllocError> {
        Ok(OperationMetadata {
            time: self.time,
            description: self.description.clone()?,
            hostname: self.hostname.clone()?,
            username: self.username.clone()?,
            is_snapshot: self.is_snapshot,
            workspace_name: self.workspace_name.clone()?,
            attributes: self.attributes.clone()?,
        })
    }
}

/// An operation on a repository: the view that results from it, its parent operations, its
/// metadata, and the predecessors of the commits that it created, if recorded.
#[derive(Debug, PartialEq, Eq, Drop)]
pub struct Operation {
    pub view_id: ViewId,
    pub parents: Vec<OperationId>,
    pub metadata: OperationMetadata,
    pub commit_predecessors: Option<BTreeMap<CommitId, Vec<CommitId>>>,
}

/// Clones the operation; the clone equals it.
impl Clone for Operation {
    ghost is_clone = { λ operation c. operation_eq c operation ≡ true };

    fn clone(&self) -> Result<Self, AllocError> {
        Ok(Operation {
            view_id: self.view_id.clone()?,
            parents: self.parents.clone()?,
            metadata: self.metadata.clone()?,
            commit_predecessors: self.commit_predecessors.clone()?,
        })
    }
}

impl Operation {
    /// Creates the root operation, the ancestor of all other operations, at the Unix epoch.
    pub fn make_root(alloc: Global, root_view_id: ViewId) -> Self
        ensures { IsRootOperation root_view_id result }
    {
        let beginning = Timestamp {
            timestamp: MillisSinceEpoch(0),
            tz_offset: 0,
        };
        let metadata = OperationMetadata {
            time: TimestampRange {
                start: beginning,
                end: beginning,
            },
            description: String::new(alloc),
            hostname: String::new(alloc),
            username: String::new(alloc),
            is_snapshot: false,
            workspace_name: None,
            attributes: BTreeMap::new(alloc),
        };
        Operation {
            view_id: root_view_id,
            parents: Vec::new(alloc),
            metadata,
            commit_predecessors: Some(BTreeMap::new(alloc)),
        }
    }
}

/// The data from which a store creates its root operation.
#[derive(Debug, Drop)]
pub struct RootOperationData {
    pub root_commit_id: CommitId,
}

impl Clone for RootOperationData {
    ghost is_clone = { λ root c. c ≡ root };

    fn clone(&self) -> Result<Self, AllocError> {
        Ok(RootOperationData {
            root_commit_id: self.root_commit_id.clone()?,
        })
    }
}
