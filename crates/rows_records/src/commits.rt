//! Requests on commits, signatures and copy histories: their content bytes and JSON.
use crate::arguments::{id, ids, merge_of, time};
use crate::recorded::{put_content, put_record};
use jj_backend::backend::{
    ChangeId, Commit, CopyHistory, SecureSig, Signature, TreeId, make_root_commit,
};
use jj_merges::merge::{Diff, Merge};
use jj_paths::repo_path::RepoPathBuf;
use rows::request::{Fields, Request};
use rows::row_error::{RowError, agree, needs};
use rows::values::Values;
use std::alloc::Global;

// NAME EMAIL MILLIS OFFSET
fn signature_of(alloc: Global, fields: &Fields) -> Result<Signature, RowError> {
    let timestamp = time(fields, 2);
    let name = fields.owned(0)?;
    Ok(Signature {
        name,
        email: fields.owned(1)?,
        timestamp,
    })
}

// `signature NAME EMAIL MILLIS OFFSET`: content, JSON
fn signature(alloc: Global, request: &Request, values: &mut Values) -> Result<(), RowError> {
    let signature = signature_of(alloc, request.group(0))?;
    put_record(alloc, values, &signature);
    Ok(())
}

// DATA SIGNATURE, or nothing
fn sig_of(alloc: Global, fields: &Fields) -> Result<Option<SecureSig>, RowError> {
    if fields.is_empty() {
        return Ok(None);
    }
    let signed_data = Vec::from_slice(alloc, fields.bytes(0))?;
    let sig = Vec::from_slice(alloc, fields.bytes(1))?;
    Ok(Some(SecureSig { signed_data, sig }))
}

// `secure-sig DATA SIGNATURE`: content of the option
fn secure_sig(alloc: Global, request: &Request, values: &mut Values) -> Result<(), RowError> {
    let sig = sig_of(alloc, request.group(0))?;
    put_content(alloc, values, &sig);
    Ok(())
}

// `root-commit CHANGE TREE`: content, JSON
fn root_commit(alloc: Global, request: &Request, values: &mut Values) -> Result<(), RowError> {
    let fields = request.group(0);
    let change = id(alloc, fields, 0)?;
    let commit = make_root_commit(alloc, change, id(alloc, fields, 1)?);
    put_record(alloc, values, &commit);
    Ok(())
}

fn trees_of(alloc: Global, fields: &Fields) -> Result<Merge<TreeId>, RowError> {
    let trees: Vec<TreeId> = ids(alloc, fields)?;
    let [first, rest @ ..] = trees.as_slice() else {
        return Err(RowError::Precondition("an odd number of terms"));
    };
    needs(rest.len() % 2 == 0, "an odd number of terms")?;
    let mut diffs = Vec::new(alloc);
    for pair in rest.chunks(2) {
        if let [before, after] = pair {
            let before = before.clone()?;
            diffs.push(Diff::new(before, after.clone()?))?;
        }
    }
    Ok(Merge::from_diffs(alloc, first.clone()?, diffs)?)
}

fn set_origin(alloc: Global, request: &Request, commit: &mut Commit) -> Result<(), RowError> {
    commit.parents = ids(alloc, request.group(0))?;
    commit.predecessors = ids(alloc, request.group(1))?;
    commit.root_tree = trees_of(alloc, request.group(2))?;
    Ok(())
}

fn set_message(alloc: Global, request: &Request, commit: &mut Commit) -> Result<(), RowError> {
    commit.conflict_labels = merge_of(request.group(3).strings(0)?)?;
    commit.description = request.group(4).owned(1)?;
    Ok(())
}

fn set_signers(alloc: Global, request: &Request, commit: &mut Commit) -> Result<(), RowError> {
    commit.author = signature_of(alloc, request.group(5))?;
    commit.committer = signature_of(alloc, request.group(6))?;
    commit.secure_sig = sig_of(alloc, request.group(7))?;
    Ok(())
}

// PARENT .. | PREDECESSOR .. | TREE .. | LABEL .. | CHANGE DESCRIPTION | AUTHOR | COMMITTER | SIG
fn commit_of(alloc: Global, request: &Request) -> Result<Commit, RowError> {
    let change = id(alloc, request.group(4), 0)?;
    let mut commit = make_root_commit(alloc, change, TreeId::new(Vec::new(alloc)));
    set_origin(alloc, request, &mut commit)?;
    set_message(alloc, request, &mut commit)?;
    set_signers(alloc, request, &mut commit)?;
    Ok(commit)
}

fn agree_with_clone(commit: &Commit) -> Result<(), RowError> {
    let clone = commit.clone()?;
    agree(clone == *commit, "clone of a commit")
}

// `commit COMMIT`: content, JSON
fn commit(alloc: Global, request: &Request, values: &mut Values) -> Result<(), RowError> {
    let commit = commit_of(alloc, request)?;
    put_record(alloc, values, &commit);
    agree_with_clone(&commit)
}

// `commit-is-root COMMIT`: whether it is the root commit of the change `00` and the tree `ee`
fn is_root(alloc: Global, request: &Request, values: &mut Values) -> Result<(), RowError> {
    let commit = commit_of(alloc, request)?;
    values.flag(commit == root_of_rows(alloc)?);
    Ok(())
}

fn root_of_rows(alloc: Global) -> Result<Commit, RowError> {
    let change = ChangeId::from_bytes(alloc, b"\0")?;
    let tree = TreeId::from_bytes(alloc, b"\xee")?;
    Ok(make_root_commit(alloc, change, tree))
}

// PATH SALT | PARENT ..
fn history_of(alloc: Global, request: &Request) -> Result<CopyHistory, RowError> {
    let path = request.group(0).owned(0)?;
    let Ok(current_path) = RepoPathBuf::from_internal_string(path) else {
        return Err(RowError::Unreadable("path"));
    };
    let salt = Vec::from_slice(alloc, request.group(0).bytes(1))?;
    Ok(CopyHistory {
        current_path,
        parents: ids(alloc, request.group(1))?,
        salt,
    })
}

// `copy-history PATH SALT | PARENT ..`: content
fn copy_history(alloc: Global, request: &Request, values: &mut Values) -> Result<(), RowError> {
    let history = history_of(alloc, request)?;
    put_content(alloc, values, &history);
    Ok(())
}

/// Runs the request of this name. Returns `false` if this module has no such request.
pub fn call(alloc: Global, name: &str, request: &Request, values: &mut Values) -> bool {
    let called = match name {
        "signature" => signature(alloc, request, values),
        "secure-sig" => secure_sig(alloc, request, values),
        "root-commit" => root_commit(alloc, request, values),
        "commit" => commit(alloc, request, values),
        "commit-is-root" => is_root(alloc, request, values),
        "copy-history" => copy_history(alloc, request, values),
        _ => return false,
    };
    values.record(called);
    true
}
