//! Views and operations of a repository, and the interface of the stores that persist them.
mod content;
mod copies;
mod errors;
mod interface;
mod operation;
mod ref_target;
mod remaining_refs;
mod remaining_remotes;
mod view;
mod view_joins;

pub use errors::{OpStoreError, OpStoreResult};
pub use interface::OpStore;
pub use jj_ids::object_id::{OperationId, ViewId};
pub use operation::{Operation, OperationMetadata, RootOperationData, TimestampRange};
pub use ref_target::{RefTarget, RefTargetOptionExt, RemoteRef, RemoteRefState};
pub use view::{RemoteView, View};
pub use view_joins::{
    FlattenRemoteRefs, LocalRemoteRefTarget, MergeJoinRefViews, flatten_remote_refs,
    merge_join_ref_views,
};
