//! Requests on the targets of refs: ids of an odd number of terms, a term `-` where it is absent.
use jj_backend::backend::CommitId;
use jj_stores::op_store::{RefTarget, RefTargetOptionExt, RemoteRef, RemoteRefState};
use rows::request::{Fields, Request};
use rows::row_error::{RowError, agree};
use rows::values::Values;
use rows_records::arguments::{merge_of, parse_id};
use rows_records::recorded::{put_content, put_record};
use std::alloc::Global;

fn term_of(alloc: Global, term: &str) -> Result<Option<CommitId>, RowError> {
    if term == "-" {
        return Ok(None);
    }
    Ok(Some(parse_id(alloc, term)?))
}

/// Parses a target, with a space between its terms.
pub fn target_of(alloc: Global, target: &str) -> Result<RefTarget, RowError> {
    let mut terms = Vec::new(alloc);
    for term in target.split(' ') {
        terms.push(term_of(alloc, term)?)?;
    }
    merge_of(terms)
}

/// Parses the state and the target of a ref at a remote.
pub fn remote_ref_of(alloc: Global, state: &str, target: &str) -> Result<RemoteRef, RowError> {
    let state = match state {
        "new" => RemoteRefState::New,
        "tracked" => RemoteRefState::Tracked,
        _ => return Err(RowError::Unreadable("state")),
    };
    Ok(RemoteRef {
        target: target_of(alloc, target)?,
        state,
    })
}

// `ref-target TARGET`: content, JSON, whether it is absent, and its only commit.
fn target(alloc: Global, request: &Request, values: &mut Values) -> Result<(), RowError> {
    let target = target_of(alloc, request.group(0).string(0))?;
    put_record(alloc, values, &target);
    values.flag(target.is_absent());
    values.debug(&target.as_normal());
    Ok(())
}

fn put_remote_ref(alloc: Global, remote: &RemoteRef, values: &mut Values) {
    put_content(alloc, values, remote);
    values.flag(remote.is_absent());
    values.flag(remote.is_present());
    values.flag(remote.is_tracked());
    values.debug(&remote.tracked_target());
}

// `remote-ref STATE TARGET`: content, whether it is absent, present and tracked, and the target if
// it is tracked.
fn remote_ref(alloc: Global, request: &Request, values: &mut Values) -> Result<(), RowError> {
    let fields = request.group(0);
    let remote = remote_ref_of(alloc, fields.string(0), fields.string(1))?;
    put_remote_ref(alloc, &remote, values);
    agree(remote.clone(alloc)? == remote, "clone of a remote ref")
}

// `remote-ref-absent`: the same of a ref that no remote has.
fn absent(alloc: Global, values: &mut Values) -> Result<(), RowError> {
    put_remote_ref(alloc, &RemoteRef::absent(alloc), values);
    Ok(())
}

// `ref-flatten TARGET` or `ref-flatten`: an optional target without the option.
fn flatten(alloc: Global, request: &Request, values: &mut Values) -> Result<(), RowError> {
    let fields = request.group(0);
    let target = if fields.is_empty() {
        None
    } else {
        Some(target_of(alloc, fields.string(0))?)
    };
    values.debug(&RefTargetOptionExt::flatten(target.as_ref(), alloc));
    values.debug(&RefTargetOptionExt::flatten(target, alloc));
    Ok(())
}

fn optional_ref_of(alloc: Global, fields: &Fields) -> Result<Option<RemoteRef>, RowError> {
    if fields.is_empty() {
        return Ok(None);
    }
    Ok(Some(remote_ref_of(alloc, fields.string(0), fields.string(1))?))
}

// `remote-ref-flatten STATE TARGET` or `remote-ref-flatten`: the same of a ref at a remote.
fn flatten_remote(alloc: Global, request: &Request, values: &mut Values) -> Result<(), RowError> {
    let remote = optional_ref_of(alloc, request.group(0))?;
    values.debug(&RefTargetOptionExt::flatten(remote.as_ref(), alloc));
    values.debug(&RefTargetOptionExt::flatten(remote, alloc));
    Ok(())
}

/// Runs the request of this name. Returns `false` if this module has no such request.
pub fn call(alloc: Global, name: &str, request: &Request, values: &mut Values) -> bool {
    let called = match name {
        "ref-target" => target(alloc, request, values),
        "remote-ref" => remote_ref(alloc, request, values),
        "remote-ref-absent" => absent(alloc, values),
        "ref-flatten" => flatten(alloc, request, values),
        "remote-ref-flatten" => flatten_remote(alloc, request, values),
        _ => return false,
    };
    values.record(called);
    true
}
