//! Files whose conflicts are rendered between markers.
ghost use Rattle.std.specs.Prelude.{◌≡◌, length, IfErr, IfOk};
ghost use Rattle.std.specs.List.{AllZip};
ghost use Rattle.std.specs.Option.{option_map};
ghost use Rattle.jj_merges.specs.Merge.{IsOdd};
ghost use Rattle.jj_content_merges.specs.Hunks.{merge_contents};
ghost use Rattle.jj_file_merges.specs.Markings.{IsMarkedContent, IsMarkedMerge, IsMarkingError};
ghost use Rattle.jj_file_merges.specs.Markings.{IsTermContent, IsTermError, IsTermsError};
ghost use Rattle.jj_file_merges.specs.Markings.{has_executable_side, is_executable};

use crate::resolving::content_terms;
use jj_backend::backend::{Backend, BackendResult, FileId, MergedTreeValueExt, TreeValue};
use jj_conflicts::conflicts::{
    ConflictMarkerStyle, choose_materialized_conflict_marker_len, materialize,
};
use jj_content_merges::files::{MergeOptions, MergeResult, merge_hunks};
use jj_merges::conflict_labels::ConflictLabels;
use jj_merges::merge::Merge;
use jj_paths::repo_path::RepoPath;
use std::alloc::{AllocError, Global};

// Returns the content of a file; that of an absent one is empty.
fn term_content<B: Backend>(
    alloc: Global,
    backend: &B,
    path: RepoPath<'_>,
    id: &Option<FileId>,
) -> BackendResult<Vec<u8>>
    ensures content { IfOk result (λ content.
        IsTermContent (B.objects backend.now).files id.now content.items) }
    ensures error { IfErr result
        (IsTermError (B.objects backend.now).files (B.may_fail backend.now) id.now) }
{
    match id {
        Some(id) => backend.read_file(alloc, path, id),
        None => Ok(Vec::new(alloc)),
    }
}

fn term_contents<B: Backend>(
    alloc: Global,
    backend: &B,
    path: RepoPath<'_>,
    ids: &[Option<FileId>],
) -> BackendResult<Vec<Vec<u8>>>
    ensures contents { IfOk result (λ contents. AllZip
        (IsTermContent (B.objects backend.now).files) ids.now (merge_contents contents.items)) }
    ensures each { IfOk result (λ contents. length contents.items ≡ length ids.now) }
    ensures error { IfErr result
        (IsTermsError (B.objects backend.now).files (B.may_fail backend.now) ids.now) }
{
    let mut contents = Vec::with_capacity(alloc, ids.len())?;
    for id in ids {
        let content = term_content(alloc, backend, path, id)?;
        contents.push(content)?;
    }
    Ok(contents)
}

// Merges contents, and renders the conflicts that are left.
fn marked_content(
    alloc: Global,
    contents: &[Vec<u8>],
    labels: &ConflictLabels,
    options: &MergeOptions,
    style: ConflictMarkerStyle,
) -> Result<Vec<u8>, AllocError>
    requires { IsOdd (length contents.now) }
    ensures { IfOk result (λ content. IsMarkedMerge options.now.hunk_level
        options.now.same_change style labels.now (merge_contents contents.now) content.items) }
{
    let terms = content_terms(alloc, contents)?;
    match merge_hunks(alloc, &terms, options)? {
        MergeResult::Resolved(content) => Ok(content),
        MergeResult::Conflict(hunks) => {
            let marker_len = choose_materialized_conflict_marker_len(&hunks);
            materialize(alloc, &hunks, labels, style, marker_len)
        }
    }
}

/// Returns the content of a file for the values at a path: the hunks of the merge of their
/// contents, with each conflict between markers. An absent value has no content.
///
/// Returns `None` if a value is no file. Fails with the error of a read.
pub fn materialize_file_conflict<B: Backend>(
    alloc: Global,
    backend: &B,
    path: RepoPath<'_>,
    values: &Merge<Option<TreeValue>>,
    labels: &ConflictLabels,
    options: &MergeOptions,
    style: ConflictMarkerStyle,
) -> BackendResult<Option<Vec<u8>>>
    // The content is that of the merged hunks, rendered in the style with a marker length that
    // occurs in none of them. `None` means that a value is no file.
    ensures content { IfOk result (λ content. IsMarkedContent (B.objects backend.now).files
        options.now.hunk_level options.now.same_change style values.now labels.now
        (option_map (λ text. text.items) content)) }
    // An error but `Memory` is that of a read of one of the files, `ObjectNotFound` only if it is
    // missing.
    ensures error { IfErr result
        (IsMarkingError (B.objects backend.now).files (B.may_fail backend.now) values.now) }
{
    let Some(ids) = values.to_file_merge(alloc)? else {
        return Ok(None);
    };
    let contents = term_contents(alloc, backend, path, ids.as_slice())?;
    let content = marked_content(alloc, &contents, labels, options, style)?;
    Ok(Some(content))
}

fn is_executable(value: &Option<TreeValue>) -> bool
    ensures { result ≡ is_executable value.now }
{
    matches!(
        value,
        Some(TreeValue::File {
            executable: true,
            ..
        })
    )
}

// Whether a side is an executable file.
pub(crate) fn has_executable_side(values: &Merge<Option<TreeValue>>) -> bool
    ensures { result ≡ has_executable_side values.now }
{
    for value in values.adds() {
        if is_executable(value) {
            return true;
        }
    }
    false
}
