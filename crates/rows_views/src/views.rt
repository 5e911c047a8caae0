//! Requests on views. A view is the root view of a commit with parts, each a group: `head COMMIT`,
//! `bookmark NAME TARGET`, `tag NAME TARGET`, `git-ref NAME TARGET`, `git-head WORKSPACE TARGET`,
//! `working-copy WORKSPACE COMMIT`, and `remote REMOTE REF ..`. A ref of a remote is one field:
//! `bookmark` or `tag`, a name, a state and a target, with spaces between them.
use crate::refs::{remote_ref_of, target_of};
use jj_ids::ref_name::NameBuf;
use jj_stores::op_store::{RefTarget, RemoteView, View};
use rows::request::{Fields, Request};
use rows::row_error::{RowError, agree};
use rows::values::Values;
use rows_records::arguments::id;
use rows_records::recorded::put_content;
use std::alloc::Global;
use std::collections::BTreeMap;

fn put_target<K>(
    alloc: Global,
    fields: &Fields,
    targets: &mut BTreeMap<NameBuf<K>, RefTarget>,
) -> Result<(), RowError> {
    let target = target_of(alloc, fields.string(2))?;
    let name = NameBuf::from_text(alloc, fields.string(1))?;
    targets.insert(name, target)?;
    Ok(())
}

fn split(field: &str) -> Result<(&str, &str), RowError> {
    match field.split_once(' ') {
        Some(parts) => Ok(parts),
        None => Err(RowError::Unreadable("ref of a remote")),
    }
}

// Adds a ref such as `bookmark NAME STATE TARGET`.
fn add_ref(alloc: Global, field: &str, remote: &mut RemoteView) -> Result<(), RowError> {
    let (kind, rest) = split(field)?;
    let (name, rest) = split(rest)?;
    let (state, target) = split(rest)?;
    let remote_ref = remote_ref_of(alloc, state, target)?;
    let name = NameBuf::from_text(alloc, name)?;
    match kind {
        "bookmark" => remote.bookmarks.insert(name, remote_ref)?,
        "tag" => remote.tags.insert(name, remote_ref)?,
        _ => return Err(RowError::Unreadable("kind of ref")),
    };
    Ok(())
}

// Parses the refs of a remote from index `start` on.
fn remote_of(alloc: Global, fields: &Fields, start: usize) -> Result<RemoteView, RowError> {
    let mut remote = RemoteView::default(alloc);
    for index in start..fields.len() {
        add_ref(alloc, fields.string(index), &mut remote)?;
    }
    Ok(remote)
}

fn add_remote(alloc: Global, fields: &Fields, view: &mut View) -> Result<(), RowError> {
    let remote = remote_of(alloc, fields, 2)?;
    let name = NameBuf::from_text(alloc, fields.string(1))?;
    view.remote_views.insert(name, remote)?;
    Ok(())
}

fn add_head(alloc: Global, fields: &Fields, view: &mut View) -> Result<(), RowError> {
    view.head_ids.insert(id(alloc, fields, 1)?)?;
    Ok(())
}

fn add_working_copy(alloc: Global, fields: &Fields, view: &mut View) -> Result<(), RowError> {
    let commit = id(alloc, fields, 2)?;
    let name = NameBuf::from_text(alloc, fields.string(1))?;
    view.wc_commit_ids.insert(name, commit)?;
    Ok(())
}

fn add_part(alloc: Global, fields: &Fields, view: &mut View) -> Result<(), RowError> {
    match fields.string(0) {
        "head" => add_head(alloc, fields, view),
        "bookmark" => put_target(alloc, fields, &mut view.local_bookmarks),
        "tag" => put_target(alloc, fields, &mut view.local_tags),
        "git-ref" => put_target(alloc, fields, &mut view.git_refs),
        "git-head" => put_target(alloc, fields, &mut view.git_heads),
        "working-copy" => add_working_copy(alloc, fields, view),
        "remote" => add_remote(alloc, fields, view),
        _ => Err(RowError::Unreadable("part of a view")),
    }
}

fn root_of(alloc: Global, request: &Request) -> Result<View, RowError> {
    Ok(View::make_root(alloc, id(alloc, request.group(0), 0)?)?)
}

/// Parses a view: the commit of its root view, and its parts.
pub fn view_of(alloc: Global, request: &Request) -> Result<View, RowError> {
    let mut view = root_of(alloc, request)?;
    for fields in request.groups().iter().skip(1) {
        add_part(alloc, fields, &mut view)?;
    }
    Ok(view)
}

fn agree_with_clone(alloc: Global, view: &View) -> Result<(), RowError> {
    let clone = view.clone(alloc)?;
    agree(clone == *view, "clone of a view")
}

// `view VIEW`: content.
fn view(alloc: Global, request: &Request, values: &mut Values) -> Result<(), RowError> {
    let view = view_of(alloc, request)?;
    put_content(alloc, values, &view);
    agree_with_clone(alloc, &view)
}

// `view-is-root VIEW`: whether it is the root view of its commit.
fn is_root(alloc: Global, request: &Request, values: &mut Values) -> Result<(), RowError> {
    let view = view_of(alloc, request)?;
    values.flag(view == root_of(alloc, request)?);
    Ok(())
}

// `remote-view REF ..`: content of the view of a remote.
fn remote_view(alloc: Global, request: &Request, values: &mut Values) -> Result<(), RowError> {
    let remote = remote_of(alloc, request.group(0), 0)?;
    put_content(alloc, values, &remote);
    let clone = remote.clone(alloc)?;
    agree(clone == remote, "clone of the view of a remote")
}

/// Runs the request of this name. Returns `false` if this module has no such request.
pub fn call(alloc: Global, name: &str, request: &Request, values: &mut Values) -> bool {
    let called = match name {
        "view" => view(alloc, request, values),
        "view-is-root" => is_root(alloc, request, values),
        "remote-view" => remote_view(alloc, request, values),
        _ => return false,
    };
    values.record(called);
    true
}
