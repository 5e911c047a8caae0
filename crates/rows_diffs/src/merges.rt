//! Requests on merges of contents.
use crate::diffs::texts;
use jj_content_merges::files::{
    FileMergeHunkLevel, MergeOptions, MergeResult, merge_hunks, try_merge,
};
use jj_merges::merge::{Merge, SameChange};
use rows::request::{Fields, Request};
use rows::row_error::{RowError, needs};
use rows::values::Values;
use smallvec::SmallVec;
use std::alloc::Global;

// Reads `lines` or `words`, and `keep` or `accept`.
fn options_of(fields: &Fields) -> MergeOptions {
    let hunk_level = match fields.string(0) {
        "words" => FileMergeHunkLevel::Word,
        _ => FileMergeHunkLevel::Line,
    };
    let same_change = match fields.string(1) {
        "keep" => SameChange::Keep,
        _ => SameChange::Accept,
    };
    MergeOptions {
        hunk_level,
        same_change,
    }
}

// `merge-text LEVEL SAME-CHANGE TERM..`: `resolved` and the result, or the terms of each hunk.
fn merge_texts(alloc: Global, request: &Request, values: &mut Values) -> Result<(), RowError> {
    let fields = request.group(0);
    let terms = texts(alloc, fields, 2)?;
    needs(terms.len() % 2 == 1, "an odd number of terms")?;
    let inputs = Merge::from_vec(SmallVec::from_vec(terms));
    let options = options_of(fields);
    match merge_hunks(alloc, &inputs, &options)? {
        MergeResult::Resolved(bytes) => {
            values.word("resolved");
            values.bytes(&bytes);
        }
        MergeResult::Conflict(hunks) => {
            for hunk in &hunks {
                values.word("|");
                for term in hunk.as_slice() {
                    values.bytes(term);
                }
            }
        }
    }
    values.flag(try_merge(alloc, &inputs, &options)?.is_some());
    Ok(())
}

/// Runs the request of this name. Returns `false` if there is none.
pub fn call(alloc: Global, name: &str, request: &Request, values: &mut Values) -> bool {
    let called = match name {
        "merge-text" => merge_texts(alloc, request, values),
        _ => return false,
    };
    values.record(called);
    true
}
