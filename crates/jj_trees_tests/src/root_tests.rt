//! Test of the first commit of a backend.
use crate::callers::first_commit_in_memory;
use jj_backend::backend::{BackendResult, ChangeId, Tree};
use jj_content_tests::retry::holds;
use jj_ids::object_id::ObjectId;
use std::alloc::Global;

fn is_below_root(alloc: Global) -> BackendResult<bool> {
    let change = ChangeId::from_bytes(alloc, &[7; 16])?;
    let read = first_commit_in_memory(alloc, change, &Tree::default(alloc))?;
    match read.parents.as_slice() {
        [parent] => Ok(parent.as_bytes() == [0; 64].as_slice()),
        _ => Ok(false),
    }
}

#[test]
fn first_commits_are_below_root(rt: HostRuntime) {
    assert!(rt; holds(&rt, is_below_root));
}
