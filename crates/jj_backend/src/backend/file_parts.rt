//! Merges of file ids, executable bits or copy ids, projected from merges of tree values.
ghost use Rattle.std.specs.Prelude.{◌≡◌, length, map, IfOk, IfSome};
ghost use Rattle.std.specs.Option.{option_map};
ghost use Rattle.jj_merges.specs.Merge.{IsOdd};
ghost use Rattle.jj_backend.specs.MergedTreeValues.{file_id_of, executable_of, part_at, parts};
ghost use Rattle.jj_backend.specs.TreeValues.{copy_id_of};

use super::TreeValue;
use super::merged_tree_value::AsTreeValue;
use jj_ids::object_id::{CopyId, FileId};
use jj_merges::merge::Merge;
use smallvec::SmallVec;
use std::alloc::{AllocError, Global};

// A field of files: the id, the executable bit or the copy id.
pub(super) trait FilePart: Drop {
    ghost use Rattle.std.specs.Prelude.{◌≡◌, Option, IfOk};
    ghost use Rattle.jj_backend.specs.declared.backend.tree_value.TreeValue.{TreeValue};

    // The field of a file, and `None` for any other value.
    ghost part_of: { TreeValue → Option Self };

    fn part_of(value: &TreeValue) -> Result<Option<Self>, AllocError>
        ensures { IfOk result (λ part. part ≡ part_of value.now) };
}

impl FilePart for FileId {
    ghost part_of = { file_id_of };

    fn part_of(value: &TreeValue) -> Result<Option<Self>, AllocError> {
        match value {
            TreeValue::File { id, .. } => Ok(Some(id.clone()?)),
            _ => Ok(None),
        }
    }
}

impl FilePart for bool {
    ghost part_of = { executable_of };

    fn part_of(value: &TreeValue) -> Result<Option<Self>, AllocError> {
        match value {
            TreeValue::File { executable, .. } => Ok(Some(*executable)),
            _ => Ok(None),
        }
    }
}

impl FilePart for CopyId {
    ghost part_of = { copy_id_of };

    fn part_of(value: &TreeValue) -> Result<Option<Self>, AllocError> {
        let Some(id) = value.copy_id() else {
            return Ok(None);
        };
        Ok(Some(id.clone()?))
    }
}

// Returns `Some(None)` for an absent term, and `None` for a value that is not a file.
fn part_at<T: AsTreeValue, P: FilePart>(term: &Option<T>) -> Result<Option<Option<P>>, AllocError>
    ensures { IfOk result (λ part. part ≡ part_at P.part_of (option_map T.value_of term.now)) }
{
    match term {
        Some(value) => match P::part_of(value.as_tree_value())? {
            Some(part) => Ok(Some(Some(part))),
            None => Ok(None),
        },
        None => Ok(Some(None)),
    }
}

// Returns `None` if a present term is not a file.
fn parts_of<T: AsTreeValue, P: FilePart>(
    alloc: Global,
    terms: &Merge<Option<T>>,
) -> Result<Option<SmallVec<Option<P>, 1>>, AllocError>
    ensures parts { IfOk result (λ answer. option_map (λ images. images.items) answer
        ≡ parts P.part_of (map (option_map T.value_of) terms.now)) }
    ensures odd { IfOk result (λ answer. IfSome answer (λ images. IsOdd (length images.items))) }
{
    let values = terms.as_slice();
    let mut images: SmallVec<Option<P>, 1> = SmallVec::new(alloc);
    for term in values {
        match part_at(term)? {
            Some(part) => images.push(part)?,
            None => return Ok(None),
        }
    }
    Ok(Some(images))
}

// Returns `None` if a present term is not a file.
pub(super) fn part_merge<T: AsTreeValue, P: FilePart>(
    alloc: Global,
    terms: &Merge<Option<T>>,
) -> Result<Option<Merge<Option<P>>>, AllocError>
    ensures { IfOk result (λ merge. merge
        ≡ parts P.part_of (map (option_map T.value_of) terms.now)) }
{
    match parts_of::<T, P>(alloc, terms)? {
        Some(images) => Ok(Some(Merge::from_vec(images))),
        None => Ok(None),
    }
}
