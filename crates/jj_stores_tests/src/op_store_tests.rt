//! Tests of the store in memory: prefixes of operation ids, and garbage collection.
use crate::callers::{find_operation, parent_after_gc, view_after_gc};
use crate::memory_op_store::MemoryOpStore;
use jj_backend::backend::MillisSinceEpoch;
use jj_content_tests::retry::holds;
use jj_ids::object_id::{CommitId, HexPrefix, ObjectId, OperationId, PrefixResolution, ViewId};
use jj_stores::op_store::{OpStore, OpStoreError, OpStoreResult, Operation, View};
use std::alloc::Global;

// The id of the operation with the view 03: the BLAKE2b digest of the content of `root-operation`
// in the conformance table, by another implementation of BLAKE2b.
const FIRST_ID: &str =
    "c471bd5c091e3ba5798d0b972a1d113cd703bfd1e29dcf5abc6496c8f4e8e289e305ee83537087ced092a6ceeef052dfe29d4c5a778c9ba2c8ff76e1de86e828";

// The id of the root operation.
const ROOT_ID: &str =
    "00000000000000000000000000000000000000000000000000000000000000000000000000000000000000000000000000000000000000000000000000000000";

fn new_store(alloc: Global) -> OpStoreResult<MemoryOpStore> {
    Ok(MemoryOpStore::new(alloc, CommitId::from_bytes(alloc, &[1])?)?)
}

fn operation_with_view(alloc: Global, view: u8) -> OpStoreResult<Operation> {
    Ok(Operation::make_root(alloc, ViewId::from_bytes(alloc, &[view])?))
}

// The id that a prefix resolves to, else the kind of its resolution.
fn resolved(alloc: Global, store: &MemoryOpStore, prefix: &'static str) -> OpStoreResult<String> {
    let Some(prefix) = HexPrefix::try_from_hex(alloc, prefix)? else {
        return Ok(String::from_str(alloc, "not hex")?);
    };
    match store.resolve_operation_id_prefix(alloc, &prefix)? {
        PrefixResolution::SingleMatch(id) => Ok(id.hex(alloc)?),
        PrefixResolution::NoMatch => Ok(String::from_str(alloc, "none")?),
        PrefixResolution::AmbiguousMatch => Ok(String::from_str(alloc, "several")?),
    }
}

fn finds(alloc: Global, store: &MemoryOpStore, prefix: &'static str) -> OpStoreResult<bool> {
    let Some(prefix) = HexPrefix::try_from_hex(alloc, prefix)? else {
        return Ok(false);
    };
    let expected = operation_with_view(alloc, 3)?;
    match find_operation(alloc, store, &prefix)? {
        Some(operation) => Ok(operation == expected),
        None => Ok(false),
    }
}

fn resolves_prefixes_in(alloc: Global, store: &mut MemoryOpStore) -> OpStoreResult<bool> {
    let initial = resolved(alloc, store, "")?;
    store.write_operation(alloc, &operation_with_view(alloc, 3)?)?;
    for (prefix, expected) in [
        ("", "several"),
        ("0", ROOT_ID),
        ("c", FIRST_ID),
        (FIRST_ID, FIRST_ID),
        ("c5", "none"),
    ] {
        if resolved(alloc, store, prefix)?.as_str() != expected {
            return Ok(false);
        }
    }
    let is_found = finds(alloc, store, "c471b")? && !finds(alloc, store, "")?;
    Ok(is_found && initial.as_str() == ROOT_ID)
}

fn keeps_parent_in(alloc: Global, store: &mut MemoryOpStore) -> OpStoreResult<bool> {
    let parent = operation_with_view(alloc, 3)?;
    let child = operation_with_view(alloc, 4)?;
    let read = parent_after_gc(alloc, store, &parent, child, MillisSinceEpoch(0))?;
    Ok(read == parent)
}

fn keeps_view_in(alloc: Global, store: &mut MemoryOpStore) -> OpStoreResult<bool> {
    let view = View::make_root(alloc, CommitId::from_bytes(alloc, &[2])?)?;
    let operation = operation_with_view(alloc, 4)?;
    let read = view_after_gc(alloc, store, &view, operation, MillisSinceEpoch(0))?;
    Ok(read == view)
}

fn is_missing(alloc: Global, store: &MemoryOpStore, id: &OperationId) -> OpStoreResult<bool> {
    match store.read_operation(alloc, id) {
        Ok(_) => Ok(false),
        Err(OpStoreError::ObjectNotFound { .. }) => Ok(true),
        Err(error) => Err(error),
    }
}

fn is_view_missing(alloc: Global, store: &MemoryOpStore, id: &ViewId) -> OpStoreResult<bool> {
    match store.read_view(alloc, id) {
        Ok(_) => Ok(false),
        Err(OpStoreError::ObjectNotFound { .. }) => Ok(true),
        Err(error) => Err(error),
    }
}

// Of two operations that nothing reaches, the newer one stays until its time is too old.
fn collects_operations_in(alloc: Global, store: &mut MemoryOpStore) -> OpStoreResult<bool> {
    let old = store.write_operation(alloc, &operation_with_view(alloc, 3)?)?;
    store.set_time(MillisSinceEpoch(5));
    let new = store.write_operation(alloc, &operation_with_view(alloc, 4)?)?;
    store.gc(alloc, &[], MillisSinceEpoch(4))?;
    let is_kept = is_missing(alloc, store, &old)? && !is_missing(alloc, store, &new)?;
    store.gc(alloc, &[], MillisSinceEpoch(5))?;
    let root = OperationId::try_from_hex(alloc, ROOT_ID)?;
    match root {
        Some(root) => {
            let root_is_missing = is_missing(alloc, store, &root)?;
            Ok(is_kept && is_missing(alloc, store, &new)? && !root_is_missing)
        }
        None => Ok(false),
    }
}

// The view of the root operation stays, and one of no operation does not.
fn collects_views_in(alloc: Global, store: &mut MemoryOpStore) -> OpStoreResult<bool> {
    let view = View::make_root(alloc, CommitId::from_bytes(alloc, &[2])?)?;
    let id = store.write_view(alloc, &view)?;
    store.gc(alloc, &[], MillisSinceEpoch(0))?;
    let root = ViewId::try_from_hex(alloc, ROOT_ID)?;
    match root {
        Some(root) => {
            Ok(is_view_missing(alloc, store, &id)? && !is_view_missing(alloc, store, &root)?)
        }
        None => Ok(false),
    }
}

fn resolves_prefixes(alloc: Global) -> OpStoreResult<bool> {
    let mut store = new_store(alloc)?;
    resolves_prefixes_in(alloc, &mut store)
}

fn keeps_reachable(alloc: Global) -> OpStoreResult<bool> {
    let mut store = new_store(alloc)?;
    Ok(keeps_parent_in(alloc, &mut store)? && keeps_view_in(alloc, &mut store)?)
}

fn collects_operations(alloc: Global) -> OpStoreResult<bool> {
    let mut store = new_store(alloc)?;
    collects_operations_in(alloc, &mut store)
}

fn collects_views(alloc: Global) -> OpStoreResult<bool> {
    let mut store = new_store(alloc)?;
    collects_views_in(alloc, &mut store)
}

#[test]
fn prefixes_resolve(rt: HostRuntime) {
    assert!(rt; holds(&rt, resolves_prefixes));
}

#[test]
fn gc_keeps_reachable(rt: HostRuntime) {
    assert!(rt; holds(&rt, keeps_reachable));
}

#[test]
fn gc_deletes_old_operations(rt: HostRuntime) {
    assert!(rt; holds(&rt, collects_operations));
}

#[test]
fn gc_deletes_views(rt: HostRuntime) {
    assert!(rt; holds(&rt, collects_views));
}
