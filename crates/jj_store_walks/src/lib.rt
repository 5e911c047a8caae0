//! Walks over the commits of a store: ancestors, heads, merge bases, a topological order and a
//! log. A commit is read when a walk reaches it, and each read may fail.
#![tactic(auto)]

mod ancestry;
mod bases;
mod grouped;
mod heads;
mod ids;
mod order;
mod read_commit;
mod readable;
mod reads;

pub use crate::ancestry::ancestors;
pub use crate::bases::merge_bases;
pub use crate::grouped::grouped_history;
pub use crate::heads::head_commits;
pub use crate::ids::history_ids;
pub use crate::order::{HistoryError, history_order};
pub use crate::read_commit::ReadCommit;
pub use crate::readable::{ReadableAncestors, readable_ancestors};
