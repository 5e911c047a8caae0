//! Tests of clones and comparisons of copy records, copy histories and signatures.
use crate::records;
use jj_backend::backend::{CommitId, CopyRecord, FileId};
use jj_content_tests::retry::holds;
use jj_paths::repo_path::RepoPathBuf;
use std::alloc::{AllocError, Global};

fn record(alloc: Global) -> Result<CopyRecord, AllocError> {
    Ok(CopyRecord {
        target: RepoPathBuf::root(alloc),
        target_commit: CommitId::from_bytes(alloc, &[1])?,
        source: RepoPathBuf::root(alloc),
        source_file: FileId::from_bytes(alloc, &[2])?,
        source_commit: CommitId::from_bytes(alloc, &[3])?,
    })
}

fn record_is_copied(alloc: Global) -> Result<bool, AllocError> {
    let record = record(alloc)?;
    Ok(record.clone()? == record)
}

fn history_is_copied(alloc: Global) -> Result<bool, AllocError> {
    let history = records::history(alloc)?;
    Ok(history.clone()? == history)
}

fn sig_is_copied(alloc: Global) -> Result<bool, AllocError> {
    let sig = records::sig(alloc)?;
    Ok(sig.clone()? == sig)
}

#[test]
fn copies_are_equal(rt: HostRuntime) {
    assert!(rt; holds(&rt, record_is_copied));
    assert!(rt; holds(&rt, history_is_copied));
    assert!(rt; holds(&rt, sig_is_copied));
}

fn records_differ(alloc: Global) -> Result<bool, AllocError> {
    let mut other = record(alloc)?;
    other.source_commit = CommitId::from_bytes(alloc, &[4])?;
    Ok(other != record(alloc)?)
}

fn histories_differ(alloc: Global) -> Result<bool, AllocError> {
    let mut other = records::history(alloc)?;
    other.salt = [8].to_vec(alloc)?;
    Ok(other > records::history(alloc)?)
}

fn signatures_differ(alloc: Global) -> Result<bool, AllocError> {
    let mut other = records::sig(alloc)?;
    other.sig = [4].to_vec(alloc)?;
    Ok(other != records::sig(alloc)?)
}

#[test]
fn the_last_part_counts(rt: HostRuntime) {
    assert!(rt; holds(&rt, records_differ));
    assert!(rt; holds(&rt, histories_differ));
    assert!(rt; holds(&rt, signatures_differ));
}
