//! Resolution of the files at one path: of their executable bits, copy ids and ids by signed
//! counts, and of their contents hunk by hunk.
ghost use Rattle.std.specs.Prelude.{◌≡◌, ◌⊎◌, ℕ, List, Some, None, map, length};
ghost use Rattle.std.specs.Prelude.{IfErr, IfOk, IfSome, MatchOption, OnErr};
ghost use Rattle.std.specs.Option.{option_map};
ghost use Rattle.std.specs.Str.{bytes_eq};
ghost use Rattle.std.proofs.Math.Bool.{beq};
ghost use Rattle.jj_diff.specs.Inputs.{bytes_of};
ghost use Rattle.jj_merges.specs.Merge.{IsOdd};
ghost use Rattle.jj_backend.specs.Objects.{AddsFile};
ghost use Rattle.jj_content_merges.specs.Hunks.{merge_contents};
ghost use Rattle.jj_file_merges.specs.Contents.{AreContents, IsMergedContent, IsReadError};
ghost use Rattle.jj_file_merges.specs.FileTerms.{AreFiles, HasOther};
ghost use Rattle.jj_file_merges.specs.Resolutions.{IsDecision, IsFileError, IsFileResolution};
ghost use Rattle.jj_file_merges.specs.Resolutions.{IsMergedFile, IsResolutionError};
ghost use Rattle.jj_file_merges.specs.Resolutions.{WritesResolution};

use crate::terms::{FileTerm, copy_ids, executable_bits, file_ids, file_terms};
use jj_backend::backend::{Backend, BackendResult, CopyId, FileId, TreeValue};
use jj_content_merges::files::{MergeOptions, try_merge};
use jj_merges::merge::{Merge, SameChange, trivial_merge};
use jj_paths::repo_path::RepoPath;
use smallvec::SmallVec;
use std::alloc::{AllocError, Global};

// Returns `None` if a term is not a file.
fn odd_terms(
    alloc: Global,
    values: &Merge<Option<TreeValue>>,
) -> Result<Option<Vec<FileTerm>>, AllocError>
    ensures terms { IfOk result (λ terms. MatchOption terms (HasOther values.now)
        (λ files. AreFiles values.now files.items)) }
    ensures odd { IfOk result (λ terms. IfSome terms (λ files. IsOdd (length files.items))) }
{
    let terms = file_terms(alloc, values.as_slice())?;
    Ok(terms)
}

fn merged_bit(
    alloc: Global,
    terms: &[FileTerm],
    same_change: SameChange,
) -> Result<Option<bool>, AllocError>
    requires { IsOdd (length terms.now) }
    ensures { IfOk result
        (IsDecision beq same_change (map (λ term. term.executable) terms.now)) }
{
    let bits = executable_bits(alloc, terms)?;
    match trivial_merge(&bits, same_change) {
        Some(bit) => Ok(Some(*bit)),
        None => Ok(None),
    }
}

fn merged_copy_id(
    alloc: Global,
    terms: &[FileTerm],
    same_change: SameChange,
) -> Result<Option<CopyId>, AllocError>
    requires { IsOdd (length terms.now) }
    ensures { IfOk result
        (IsDecision bytes_eq same_change (map (λ term. term.copy_id) terms.now)) }
{
    let ids = copy_ids(alloc, terms)?;
    match trivial_merge(&ids, same_change) {
        Some(id) => Ok(Some(id.clone()?)),
        None => Ok(None),
    }
}

fn trivial_id(ids: &[FileId], same_change: SameChange) -> Result<Option<FileId>, AllocError>
    requires { IsOdd (length ids.now) }
    ensures { IfOk result (IsDecision bytes_eq same_change ids.now) }
{
    match trivial_merge(ids, same_change) {
        Some(id) => Ok(Some(id.clone()?)),
        None => Ok(None),
    }
}

fn read_contents<B: Backend>(
    alloc: Global,
    backend: &B,
    path: RepoPath<'_>,
    ids: &[FileId],
) -> BackendResult<Vec<Vec<u8>>>
    ensures contents { IfOk result (λ contents.
        AreContents (B.objects backend.now).files ids.now (merge_contents contents.items)) }
    ensures error { IfErr result (IsReadError (B.objects backend.now).files
        (B.may_fail backend.now) ids.now) }
{
    let mut contents = Vec::with_capacity(alloc, ids.len())?;
    for id in ids {
        let content = backend.read_file(alloc, path, id)?;
        contents.push(content)?;
    }
    Ok(contents)
}

pub(crate) fn content_terms<'a>(
    alloc: Global,
    contents: &'a [Vec<u8>],
) -> Result<Merge<&'a [u8]>, AllocError>
    requires { IsOdd (length contents.now) }
    ensures { IfOk result (λ terms. bytes_of terms ≡ merge_contents contents.now) }
{
    let mut terms: Vec<&'a [u8]> = Vec::with_capacity(alloc, contents.len())?;
    for content in contents {
        terms.push(content)?;
    }
    Ok(Merge::from_vec(SmallVec::from_vec(terms)))
}

// Returns the merged content of files, or `None` if a conflict is left.
fn merged_content<B: Backend>(
    alloc: Global,
    backend: &B,
    path: RepoPath<'_>,
    ids: &[FileId],
    options: &MergeOptions,
) -> BackendResult<Option<Vec<u8>>>
    requires { IsOdd (length ids.now) }
    ensures content { IfOk result (λ content. IsMergedContent (B.objects backend.now).files
        options.now.hunk_level options.now.same_change ids.now
        (option_map (λ text. text.items) content)) }
    ensures error { IfErr result (IsReadError (B.objects backend.now).files
        (B.may_fail backend.now) ids.now) }
{
    let contents = read_contents(alloc, backend, path, ids)?;
    let terms = content_terms(alloc, &contents)?;
    let content = try_merge(alloc, &terms, options)?;
    Ok(content)
}

// Writes the merged content of files, unless a conflict is left.
fn merge_contents<B: Backend>(
    alloc: Global,
    backend: &mut B,
    path: RepoPath<'_>,
    ids: &[FileId],
    options: &MergeOptions,
) -> BackendResult<Option<FileId>>
    requires { IsOdd (length ids.now) }
    ensures content { IfOk result (λ id. MatchOption id
        ((B.objects backend.new ≡ B.objects backend.old)
        × IsMergedContent (B.objects backend.old).files options.now.hunk_level
        options.now.same_change ids.now None)
        (λ id. (content : List ℕ) × IsMergedContent (B.objects backend.old).files
        options.now.hunk_level options.now.same_change ids.now (Some content)
        × AddsFile (B.objects backend.old) (B.objects backend.new) id content)) }
    ensures unchanged { OnErr result (B.objects backend.new ≡ B.objects backend.old) }
    ensures fixed { B.fixed backend.new ≡ B.fixed backend.old }
    ensures error { IfErr result (IsFileError (B.objects backend.old).files options.now.hunk_level
        options.now.same_change (B.may_fail backend.old) (B.may_fail_to_write backend.old)
        ids.now) }
{
    match merged_content(alloc, backend, path, ids, options)? {
        Some(content) => {
            let id = backend.write_file(alloc, path, &content)?;
            Ok(Some(id))
        }
        None => Ok(None),
    }
}

// Returns the id that the ids of files resolve to, or else writes their merged content.
fn merge_file<B: Backend>(
    alloc: Global,
    backend: &mut B,
    path: RepoPath<'_>,
    ids: &[FileId],
    options: &MergeOptions,
) -> BackendResult<Option<FileId>>
    requires { IsOdd (length ids.now) }
    ensures file { IfOk result (IsMergedFile (B.objects backend.new).files options.now.hunk_level
        options.now.same_change ids.now) }
    ensures writes { IfOk result (λ id. (B.objects backend.new ≡ B.objects backend.old)
        ⊎ ((written : List ℕ) × (content : List ℕ) × (id ≡ Some written)
        × AddsFile (B.objects backend.old) (B.objects backend.new) written content)) }
    ensures unchanged { OnErr result (B.objects backend.new ≡ B.objects backend.old) }
    ensures fixed { B.fixed backend.new ≡ B.fixed backend.old }
    ensures error { IfErr result (IsFileError (B.objects backend.old).files options.now.hunk_level
        options.now.same_change (B.may_fail backend.old) (B.may_fail_to_write backend.old)
        ids.now) }
{
    match trivial_id(ids, options.same_change)? {
        Some(id) => Ok(Some(id)),
        None => merge_contents(alloc, backend, path, ids, options),
    }
}

/// Resolves the values at a path if all of them are files, and returns the file: with the
/// executable bit and the copy ID that the signed counts of the terms decide, and with the ID that
/// they decide, or else that of the merged content, which is written. Contents are read only if the
/// IDs do not resolve.
///
/// Returns `None` and writes nothing if a value is absent or no file, or if a conflict is left.
/// Fails with the error of a read or of the write.
pub fn try_resolve_file_conflict<B: Backend>(
    alloc: Global,
    backend: &mut B,
    path: RepoPath<'_>,
    values: &Merge<Option<TreeValue>>,
    options: &MergeOptions,
) -> BackendResult<Option<TreeValue>>
    // The file has the merged executable bit, copy ID and content. `None` means that a value is
    // absent or no file, or that one of these is in conflict.
    ensures resolution { IfOk result (IsFileResolution (B.objects backend.new).files
        options.now.hunk_level options.now.same_change values.now) }
    // Nothing is written but the content of the file that is returned.
    ensures writes { IfOk result
        (WritesResolution (B.objects backend.old) (B.objects backend.new)) }
    // After an error the objects are unchanged.
    ensures unchanged { OnErr result (B.objects backend.new ≡ B.objects backend.old) }
    ensures fixed { B.fixed backend.new ≡ B.fixed backend.old }
    // An error but `Memory` is that of a read of one of the files, `ObjectNotFound` only if it is
    // missing, or of the write of the merged content.
    ensures error { IfErr result (IsResolutionError (B.objects backend.old).files
        options.now.hunk_level options.now.same_change (B.may_fail backend.old)
        (B.may_fail_to_write backend.old) values.now) }
{
    let Some(terms) = odd_terms(alloc, values)? else {
        return Ok(None);
    };
    let Some(executable) = merged_bit(alloc, &terms, options.same_change)? else {
        return Ok(None);
    };
    let Some(copy_id) = merged_copy_id(alloc, &terms, options.same_change)? else {
        return Ok(None);
    };
    let ids = file_ids(alloc, &terms)?;
    let Some(id) = merge_file(alloc, backend, path, &ids, options)? else {
        return Ok(None);
    };
    Ok(Some(TreeValue::File {
        id,
        executable,
        copy_id,
    }))
}
