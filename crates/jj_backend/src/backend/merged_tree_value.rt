//! Merges of the tree values at one path: queries, file projections and descriptions.
ghost use Rattle.std.specs.Prelude.{◌≡◌, map, Some, IfOk};
ghost use Rattle.std.specs.List.{AllZip, list_all};
ghost use Rattle.std.specs.Option.{option_copied, option_map};
ghost use Rattle.jj_backend.specs.MergedTreeValues.{is_tree_value, is_tree_or_absent, CanTakeId, with_file_id, with_file_ids};

use super::TreeValue;
use super::descriptions::push_lines;
use super::file_parts::part_merge;
use jj_ids::object_id::{CopyId, FileId};
use jj_merges::conflict_labels::ConflictLabels;
use jj_merges::merge::Merge;
use smallvec::SmallVec;
use std::alloc::{AllocError, Global};

/// A merge of the values at one path in several trees, by reference.
pub type MergedTreeVal<'a> = Merge<Option<&'a TreeValue>>;

/// A merge of the values at one path in several trees.
pub type MergedTreeValue = Merge<Option<TreeValue>>;

/// A tree value, owned or by reference.
pub trait AsTreeValue {
    ghost use Rattle.jj_backend.specs.declared.backend.tree_value.TreeValue.{TreeValue};

    /// The tree value.
    ghost value_of: { Self → TreeValue };

    /// Returns the tree value by reference.
    fn as_tree_value(&self) -> &TreeValue
        ensures { result.now ≡ value_of self.now };
}

impl AsTreeValue for TreeValue {
    ghost value_of = { λ value. value };

    fn as_tree_value(&self) -> &TreeValue {
        self
    }
}

impl<'a> AsTreeValue for &'a TreeValue {
    ghost value_of = { λ value. value.now };

    fn as_tree_value(&self) -> &TreeValue {
        *self
    }
}

/// Returns the tree value of a term by reference, and `None` for an absent term.
pub fn borrow_tree_value<'a, T: AsTreeValue>(term: Option<&'a T>) -> Option<&'a TreeValue>
    ensures { option_copied result ≡ option_map T.value_of (option_copied term.entry) }
{
    match term {
        Some(value) => Some(value.as_tree_value()),
        None => None,
    }
}

pub(super) fn term_value<T: AsTreeValue>(term: &Option<T>) -> Option<&TreeValue>
    ensures { option_copied result ≡ option_map T.value_of term.now }
{
    borrow_tree_value(term.as_ref())
}

fn is_tree_value(value: &TreeValue) -> bool
    ensures { result ≡ is_tree_value value.now }
{
    matches!(value, TreeValue::Tree(_))
}

fn is_tree_or_absent<T: AsTreeValue>(term: &Option<T>) -> bool
    ensures { result ≡ is_tree_or_absent (option_map T.value_of term.now) }
{
    match term {
        Some(value) => is_tree_value(value.as_tree_value()),
        None => true,
    }
}

/// Returns whether all present terms are trees.
pub fn are_trees_or_absent<T: AsTreeValue>(terms: &[Option<T>]) -> bool
    ensures { result ≡ list_all is_tree_or_absent (map (option_map T.value_of) terms.now) }
{
    for term in terms {
        if !is_tree_or_absent(term) {
            return false;
        }
    }
    true
}

// Replaces the id of a file. An absent term becomes a file that is neither executable nor a copy.
fn file_with_id(
    alloc: Global,
    value: Option<&TreeValue>,
    id: &FileId,
) -> Result<TreeValue, AllocError>
    requires { CanTakeId (option_copied value) (Some id.now) }
    ensures { IfOk result (λ file. Some file
        ≡ with_file_id (option_copied value.entry) (Some id.now)) }
{
    match value {
        None => Ok(TreeValue::File {
            id: id.clone()?,
            executable: false,
            copy_id: CopyId::placeholder(alloc),
        }),
        Some(
            TreeValue::File {
                executable,
                copy_id,
                ..
            },
        ) => Ok(TreeValue::File {
            id: id.clone()?,
            executable: *executable,
            copy_id: copy_id.clone()?,
        }),
        Some(_) => unreachable!(),
    }
}

// Returns `None` if the id is absent: by the precondition, so is the value then.
fn replace_file_id(
    alloc: Global,
    value: Option<&TreeValue>,
    id: &Option<FileId>,
) -> Result<Option<TreeValue>, AllocError>
    requires { CanTakeId (option_copied value) id.now }
    ensures { IfOk result (λ file. file ≡ with_file_id (option_copied value.entry) id.now) }
{
    match id {
        Some(id) => Ok(Some(file_with_id(alloc, value, id)?)),
        None => Ok(None),
    }
}

fn replace_file_ids<T: AsTreeValue>(
    alloc: Global,
    terms: &Merge<Option<T>>,
    file_ids: &Merge<Option<FileId>>,
) -> Result<MergedTreeValue, AllocError>
    requires { AllZip CanTakeId (map (option_map T.value_of) terms.now) file_ids.now }
    ensures { IfOk result (λ merge. merge
        ≡ with_file_ids (map (option_map T.value_of) terms.now) file_ids.now) }
{
    let values = terms.as_slice();
    let ids = file_ids.as_slice();
    let mut files: SmallVec<Option<TreeValue>, 1> = SmallVec::new(alloc);
    for i in 0..values.len() {
        files.push(replace_file_id(alloc, term_value(&values[i]), &ids[i])?)?;
    }
    Ok(Merge::from_vec(files))
}

/// Operations on merges of tree values. The calls that return a `Result` fail only if they are out
/// of memory.
pub trait MergedTreeValueExt {
    ghost use Rattle.std.specs.Prelude.{◌≡◌, List, IfOk, string_bytes};
    ghost use Rattle.std.specs.List.{AllZip};
    ghost use Rattle.jj_backend.specs.MergedTreeValues.{
      Values,
      are_trees,
      are_file_like,
      file_id_of,
      executable_of,
      parts,
      CanTakeId,
      with_file_ids,
      description,
    };
    ghost use Rattle.jj_backend.specs.TreeValues.{copy_id_of};

    /// The terms of the merge.
    ghost values: { Self → Values };

    /// Returns whether the merge is resolved to a tree, or is a conflict whose present terms are
    /// all trees.
    fn is_tree(&self) -> bool
        ensures { result ≡ are_trees (values self.now) };

    /// Returns whether the merge is neither resolved to absent nor a tree by `is_tree`.
    fn is_file_like(&self) -> bool
        ensures { result ≡ are_file_like (values self.now) };

    /// Returns the merge of the file ids, or `None` if a present term is not a file.
    fn to_file_merge(&self, alloc: Global) -> Result<Option<Merge<Option<FileId>>>, AllocError>
        ensures { IfOk result (λ merge. merge ≡ parts file_id_of (values self.now)) };

    /// Returns the merge of the executable bits, or `None` if a present term is not a file.
    fn to_executable_merge(&self, alloc: Global) -> Result<Option<Merge<Option<bool>>>, AllocError>
        ensures { IfOk result (λ merge. merge ≡ parts executable_of (values self.now)) };

    /// Returns the merge of the copy ids, or `None` if a present term is not a file.
    fn to_copy_id_merge(&self, alloc: Global) -> Result<Option<Merge<Option<CopyId>>>, AllocError>
        ensures { IfOk result (λ merge. merge ≡ parts copy_id_of (values self.now)) };

    /// Returns the merge with these file ids, index by index. An absent term with an id becomes a
    /// file that is neither executable nor a copy.
    fn with_new_file_ids(
        &self,
        alloc: Global,
        file_ids: &Merge<Option<FileId>>,
    ) -> Result<MergedTreeValue, AllocError>
        requires { AllZip CanTakeId (values self.now) file_ids.now }
        ensures { IfOk result (λ merge. merge ≡ with_file_ids (values self.now) file_ids.now) };

    /// Returns a description of the conflict: one line for each present term with its label, the
    /// removes before the adds.
    fn describe(&self, alloc: Global, labels: &ConflictLabels) -> Result<String, AllocError>
        ensures { IfOk result (λ text. string_bytes text
            ≡ description (values self.now) labels.now) };
}

impl<T: AsTreeValue> MergedTreeValueExt for Merge<Option<T>> {
    ghost values = { map (option_map T.value_of) };

    fn is_tree(&self) -> bool {
        match self.as_resolved() {
            Some(Some(value)) => is_tree_value(value.as_tree_value()),
            Some(None) => false,
            None => are_trees_or_absent(self.as_slice()),
        }
    }

    fn is_file_like(&self) -> bool {
        match self.as_resolved() {
            Some(None) => false,
            _ => !self.is_tree(),
        }
    }

    fn to_file_merge(&self, alloc: Global) -> Result<Option<Merge<Option<FileId>>>, AllocError> {
        part_merge::<T, FileId>(alloc, self)
    }

    fn to_executable_merge(
        &self,
        alloc: Global,
    ) -> Result<Option<Merge<Option<bool>>>, AllocError> {
        part_merge::<T, bool>(alloc, self)
    }

    fn to_copy_id_merge(&self, alloc: Global) -> Result<Option<Merge<Option<CopyId>>>, AllocError> {
        part_merge::<T, CopyId>(alloc, self)
    }

    fn with_new_file_ids(
        &self,
        alloc: Global,
        file_ids: &Merge<Option<FileId>>,
    ) -> Result<MergedTreeValue, AllocError> {
        replace_file_ids(alloc, self, file_ids)
    }

    fn describe(&self, alloc: Global, labels: &ConflictLabels) -> Result<String, AllocError> {
        let labels = labels.as_merge();
        let mut text = String::from_str(alloc, "Conflict:\n")?;
        push_lines(
            alloc,
            &mut text,
            "  Removing ",
            self.removes(),
            labels.removes(),
        )?;
        push_lines(alloc, &mut text, "  Adding ", self.adds(), labels.adds())?;
        Ok(text)
    }
}
