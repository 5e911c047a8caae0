//! Requests on rendered conflicts.
use jj_conflicts::conflicts::{
    ConflictMarkerStyle, choose_materialized_conflict_marker_len, materialize, parse_conflict,
    parse_hunks,
};
use jj_merges::conflict_labels::ConflictLabels;
use jj_merges::merge::Merge;
use rows::request::{Fields, Request};
use rows::row_error::{RowError, needs};
use rows::values::Values;
use smallvec::SmallVec;
use std::alloc::{AllocError, Global};

fn style_of(fields: &Fields) -> ConflictMarkerStyle {
    match fields.string(0) {
        "diff" => ConflictMarkerStyle::Diff,
        "snapshot" => ConflictMarkerStyle::Snapshot,
        _ => ConflictMarkerStyle::Git,
    }
}

fn terms_of(alloc: Global, group: &Fields) -> Result<Vec<Vec<u8>>, AllocError> {
    let mut terms = Vec::new(alloc);
    for term in 0..group.len() {
        terms.push(Vec::from_slice(alloc, group.bytes(term))?)?;
    }
    Ok(terms)
}

fn hunk_of(alloc: Global, group: &Fields) -> Result<Merge<Vec<u8>>, RowError> {
    let terms = terms_of(alloc, group)?;
    needs(terms.len() % 2 == 1, "an odd number of terms")?;
    Ok(Merge::from_vec(SmallVec::from_vec(terms)))
}

// The terms of each group but the first two.
fn hunks_of(alloc: Global, groups: &[Fields]) -> Result<Vec<Merge<Vec<u8>>>, RowError> {
    let mut hunks = Vec::new(alloc);
    for index in 2..groups.len() {
        hunks.push(hunk_of(alloc, &groups[index])?)?;
    }
    Ok(hunks)
}

// `render STYLE | LABEL.. | TERM.. | ..`: the length of markers and the result.
fn render(alloc: Global, request: &Request, values: &mut Values) -> Result<(), RowError> {
    let labels = request.group(1).strings(0)?;
    needs(
        labels.is_empty() || labels.len() % 2 == 1,
        "an odd number of labels",
    )?;
    let labels = ConflictLabels::from_vec(SmallVec::from_vec(labels));
    let hunks = hunks_of(alloc, request.groups())?;
    let len = choose_materialized_conflict_marker_len(&hunks);
    values.index(len);
    let style = style_of(request.group(0));
    values.bytes(&materialize(alloc, &hunks, &labels, style, len)?);
    Ok(())
}

// `parse-conflict SIDES LEN TEXT`: the terms of each hunk, or none.
fn parse(alloc: Global, request: &Request, values: &mut Values) -> Result<(), RowError> {
    let fields = request.group(0);
    let (sides, len, text) = (fields.index(0), fields.index(1), fields.bytes(2));
    values.flag(parse_conflict(alloc, text, sides, len)?.is_some());
    for hunk in &parse_hunks(alloc, text, sides, len)? {
        values.word("|");
        for term in hunk.as_slice() {
            values.bytes(term);
        }
    }
    Ok(())
}

/// Runs the request of this name. Returns `false` if there is none.
pub fn call(alloc: Global, name: &str, request: &Request, values: &mut Values) -> bool {
    let called = match name {
        "render" => render(alloc, request, values),
        "parse-conflict" => parse(alloc, request, values),
        _ => return false,
    };
    values.record(called);
    true
}
