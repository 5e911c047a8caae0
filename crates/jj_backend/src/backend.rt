//! The objects of a repository (commits, trees, copy histories) and the backend interface.
mod commit;
mod content;
mod copies;
mod descriptions;
mod errors;
mod file_parts;
mod interface;
mod merged_parts;
mod merged_tree_value;
mod orders;
mod signature;
mod timestamp;
mod tree;
mod tree_value;

pub use commit::{Commit, make_root_commit};
pub use copies::{CopyHistory, CopyRecord, RelatedCopy};
pub use errors::{BackendError, BackendInitError, BackendLoadError, BackendResult};
pub use interface::{Backend, NoSigner, SigningFn};
pub use jj_ids::object_id::{ChangeId, CommitId, CopyId, FileId, SymlinkId, TreeId};
pub use merged_tree_value::{
    AsTreeValue, MergedTreeVal, MergedTreeValue, MergedTreeValueExt, are_trees_or_absent,
    borrow_tree_value,
};
pub use signature::{SecureSig, Signature};
pub use timestamp::{MillisSinceEpoch, Timestamp, TimestampOutOfRange};
pub use tree::{DuplicateEntryError, Tree, TreeEntriesNonRecursiveIterator, TreeEntry, TreeNames};
pub use tree_value::TreeValue;
