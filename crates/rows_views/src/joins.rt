//! Requests on refs of a view, here and at its remotes.
use crate::views::view_of;
use jj_ids::ref_name::{RefName, RemoteName};
use jj_stores::op_store::{
    LocalRemoteRefTarget, RemoteRef, View, flatten_remote_refs, merge_join_ref_views,
};
use rows::request::Request;
use rows::row_error::{RowError, agree};
use rows::values::Values;
use std::alloc::Global;

fn put_refs(refs: &[(RemoteName<'_>, &RemoteRef)], values: &mut Values) {
    for (remote, remote_ref) in refs {
        values.string(remote.as_str());
        values.debug(&remote_ref.target);
    }
}

fn put_row(name: RefName<'_>, row: &LocalRemoteRefTarget<'_>, values: &mut Values) {
    values.string(name.as_str());
    values.debug(&row.local_target);
    put_refs(row.remote_refs.as_slice(), values);
    values.word("|");
}

fn agree_with_clone(row: &LocalRemoteRefTarget<'_>) -> Result<(), RowError> {
    let clone = row.clone()?;
    agree(clone == *row, "clone of a row of a join")
}

fn put_bookmarks(alloc: Global, view: &View, values: &mut Values) -> Result<(), RowError> {
    let remotes = &view.remote_views;
    for row in merge_join_ref_views(alloc, &view.local_bookmarks, remotes, |v| &v.bookmarks)? {
        let (name, row) = row?;
        put_row(name, &row, values);
        agree_with_clone(&row)?;
    }
    Ok(())
}

fn put_tags(alloc: Global, view: &View, values: &mut Values) -> Result<(), RowError> {
    let remotes = &view.remote_views;
    for row in merge_join_ref_views(alloc, &view.local_tags, remotes, |v| &v.tags)? {
        let (name, row) = row?;
        put_row(name, &row, values);
    }
    Ok(())
}

// `view-bookmarks VIEW`: each name, its target here, each remote with its target, and `|`.
fn bookmarks(alloc: Global, request: &Request, values: &mut Values) -> Result<(), RowError> {
    let view = view_of(alloc, request)?;
    put_bookmarks(alloc, &view, values)
}

// `view-tags VIEW`: the same of tags.
fn tags(alloc: Global, request: &Request, values: &mut Values) -> Result<(), RowError> {
    let view = view_of(alloc, request)?;
    put_tags(alloc, &view, values)
}

fn put_flat(alloc: Global, view: &View, values: &mut Values) -> Result<(), RowError> {
    for (symbol, remote_ref) in flatten_remote_refs(alloc, &view.remote_views, |v| &v.bookmarks)? {
        values.display(&symbol);
        values.debug(&remote_ref.target);
    }
    Ok(())
}

// `view-remote-bookmarks VIEW`: each symbol of all remotes, with its target.
fn remote_bookmarks(alloc: Global, request: &Request, values: &mut Values) -> Result<(), RowError> {
    let view = view_of(alloc, request)?;
    put_flat(alloc, &view, values)
}

/// Runs the request of this name. Returns `false` if this module has no such request.
pub fn call(alloc: Global, name: &str, request: &Request, values: &mut Values) -> bool {
    let called = match name {
        "view-bookmarks" => bookmarks(alloc, request, values),
        "view-tags" => tags(alloc, request, values),
        "view-remote-bookmarks" => remote_bookmarks(alloc, request, values),
        _ => return false,
    };
    values.record(called);
    true
}
