//! Tests of replaying: a tree is read back, and a changed byte is found.
use jj_backend::backend::{Backend, TreeId};
use jj_content::content_hash::content_of;
use jj_content_tests::retry::holds;
use jj_mirror::digests::{digest, file_digest};
use jj_mirror::error::ReplayError;
use jj_mirror::object_log::{LogEntry, ObjectKind};
use jj_mirror::replay::replay;
use jj_paths::repo_path::RepoPath;
use std::alloc::{AllocError, Global};

// The content of a tree with one entry: "f" is the tree whose id is the byte 7.
const TREE: [u8; 30] = [
    1, 0, 0, 0, 0, 0, 0, 0, 1, 0, 0, 0, 0, 0, 0, 0, b'f', 2, 0, 0, 0, 1, 0, 0, 0, 0, 0, 0, 0, 7,
];

fn entry(alloc: Global, kind: ObjectKind, id: &[u8], bytes: &[u8]) -> Result<LogEntry, AllocError> {
    Ok(LogEntry {
        kind,
        id: Vec::from_slice(alloc, id)?,
        bytes: Vec::from_slice(alloc, bytes)?,
    })
}

fn replays_tree(alloc: Global) -> Result<bool, ReplayError> {
    let id = digest(&TREE);
    let logged = entry(alloc, ObjectKind::Tree, &id, &TREE)?;
    let backend = replay(alloc, &[logged])?;
    let id = TreeId::from_bytes(alloc, &id)?;
    let tree = backend.read_tree(alloc, RepoPath::root(), &id)?;
    Ok(content_of(alloc, &tree)?.as_slice() == TREE.as_slice())
}

// The error of a log of one entry.
fn error_of(
    alloc: Global,
    kind: ObjectKind,
    id: &[u8],
    bytes: &[u8],
) -> Result<Option<ReplayError>, ReplayError> {
    let logged = entry(alloc, kind, id, bytes)?;
    match replay(alloc, &[logged]) {
        Ok(_) => Ok(None),
        Err(ReplayError::Memory) => Err(ReplayError::Memory),
        Err(error) => Ok(Some(error)),
    }
}

fn finds_changed_byte(alloc: Global) -> Result<bool, ReplayError> {
    let expected = file_digest(b"abc");
    match error_of(alloc, ObjectKind::File, &expected, b"abd")? {
        Some(ReplayError::WrongObject { kind, id }) => {
            Ok(kind == ObjectKind::File && id.as_slice() == expected.as_slice())
        }
        _ => Ok(false),
    }
}

#[test]
fn trees_are_read_back(rt: HostRuntime) {
    assert!(rt; holds(&rt, replays_tree));
}

#[test]
fn changed_bytes_are_found(rt: HostRuntime) {
    assert!(rt; holds(&rt, finds_changed_byte));
}
