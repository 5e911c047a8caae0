//! The files that the terms of a merge are, and their fields.
ghost use Rattle.std.specs.Prelude.{◌≡◌, map, IfOk, MatchOption};
ghost use Rattle.jj_file_merges.specs.FileTerms.{AreFiles, HasOther, file_term};

use jj_backend::backend::{CopyId, FileId, TreeValue};
use std::alloc::{AllocError, Global};

// A file in a term of a merge.
#[derive(Drop)]
pub(crate) struct FileTerm {
    pub(crate) id: FileId,
    pub(crate) executable: bool,
    pub(crate) copy_id: CopyId,
}

// Returns `None` for a value that is not a file.
fn file_term(value: &Option<TreeValue>) -> Result<Option<FileTerm>, AllocError>
    ensures { IfOk result (λ term. term ≡ file_term value.now) }
{
    match value {
        Some(
            TreeValue::File {
                id,
                executable,
                copy_id,
            },
        ) => Ok(Some(FileTerm {
            id: id.clone()?,
            executable: *executable,
            copy_id: copy_id.clone()?,
        })),
        _ => Ok(None),
    }
}

// Returns `None` if a term is not a file.
pub(crate) fn file_terms(
    alloc: Global,
    values: &[Option<TreeValue>],
) -> Result<Option<Vec<FileTerm>>, AllocError>
    ensures { IfOk result (λ terms. MatchOption terms (HasOther values.now)
        (λ files. AreFiles values.now files.items)) }
{
    let mut terms = Vec::with_capacity(alloc, values.len())?;
    for value in values {
        match file_term(value)? {
            Some(term) => terms.push(term)?,
            None => return Ok(None),
        }
    }
    Ok(Some(terms))
}

pub(crate) fn file_ids(alloc: Global, terms: &[FileTerm]) -> Result<Vec<FileId>, AllocError>
    ensures { IfOk result (λ ids. ids.items ≡ map (λ term. term.id) terms.now) }
{
    let mut ids = Vec::with_capacity(alloc, terms.len())?;
    for term in terms {
        ids.push(term.id.clone()?)?;
    }
    Ok(ids)
}

pub(crate) fn executable_bits(alloc: Global, terms: &[FileTerm]) -> Result<Vec<bool>, AllocError>
    ensures { IfOk result (λ bits. bits.items ≡ map (λ term. term.executable) terms.now) }
{
    let mut bits = Vec::with_capacity(alloc, terms.len())?;
    for term in terms {
        bits.push(term.executable)?;
    }
    Ok(bits)
}

pub(crate) fn copy_ids(alloc: Global, terms: &[FileTerm]) -> Result<Vec<CopyId>, AllocError>
    ensures { IfOk result (λ ids. ids.items ≡ map (λ term. term.copy_id) terms.now) }
{
    let mut ids = Vec::with_capacity(alloc, terms.len())?;
    for term in terms {
        ids.push(term.copy_id.clone()?)?;
    }
    Ok(ids)
}
