//! The objects that marks of a stream name.
ghost use Rattle.std.specs.Prelude.{◌≡◌, ℕ, true, Some, None, IfOk, OnOk, OnErr};
ghost use Rattle.jj_fast_import.specs.Values.{reference_value};
ghost use Rattle.jj_import.specs.AppliedChanges.{table_of, with_mark, without_mark};
ghost use Rattle.jj_import.specs.ImportStates.{IsBlob};

use crate::error::ImportError;
use jj_backend::backend::{CommitId, FileId};
use jj_fast_import::command::Reference;
use std::alloc::{AllocError, Global};
use std::collections::BTreeMap;

// The object that a mark names.
#[derive(Debug, Drop)]
pub(crate) enum Marked {
    File(FileId),
    Commit(CommitId),
}

// The objects of the marks of earlier commands.
#[derive(Drop)]
pub(crate) struct Marks {
    objects: BTreeMap<u64, Marked>,
}

impl Marks {
    pub(crate) fn new(alloc: Global) -> Self
        ensures { (mark : ℕ) → table_of result mark ≡ None }
    {
        Marks {
            objects: BTreeMap::new(alloc),
        }
    }

    // Fails if an earlier command has the mark.
    pub(crate) fn check_new(&self, mark: Option<u64>) -> Result<(), ImportError>
        ensures { OnOk result ((number : ℕ) → mark ≡ Some number
            → table_of self.now number ≡ None) }
    {
        if let Some(mark) = mark
            && self.objects.contains_key(&mark)
        {
            return Err(ImportError::RepeatedMark { mark });
        }
        Ok(())
    }

    // Sets the object of a mark, if there is one.
    pub(crate) fn set(&mut self, mark: Option<u64>, marked: Marked) -> Result<(), AllocError>
        ensures set { OnOk result ((other : ℕ)
            → table_of self.new other ≡ with_mark (table_of self.old) mark marked other) }
        ensures unchanged { OnErr result ((other : ℕ)
            → table_of self.new other ≡ table_of self.old other) }
    {
        if let Some(mark) = mark {
            self.objects.insert(mark, marked)?;
        }
        Ok(())
    }

    // Removes a mark, if there is one.
    pub(crate) fn remove(&mut self, mark: Option<u64>)
        ensures { (other : ℕ) → table_of self.new other
            ≡ without_mark (table_of self.old) mark other }
    {
        if let Some(mark) = mark {
            let _removed = self.objects.remove(&mark);
        }
    }

    pub(crate) fn commit(&self, field: &'static str, mark: u64) -> Result<CommitId, ImportError>
        ensures { IfOk result (λ id. table_of self.now mark ≡ Some (Marked.Commit id)) }
    {
        match self.objects.get(&mark) {
            Some(Marked::Commit(id)) => Ok(id.clone()?),
            Some(Marked::File(_)) => Err(ImportError::NoCommit { field, mark }),
            None => Err(ImportError::UnknownMark { field, mark }),
        }
    }

    // Whether a reference is the mark of a blob.
    pub(crate) fn is_blob(&self, reference: &Reference) -> bool
        ensures { result ≡ true → IsBlob (table_of self.now) (reference_value reference.now) }
    {
        match reference {
            Reference::Mark(mark) => matches!(self.objects.get(mark), Some(Marked::File(_))),
            Reference::Name(_) => false,
        }
    }

    pub(crate) fn file(&self, field: &'static str, mark: u64) -> Result<FileId, ImportError>
        ensures { IfOk result (λ id. table_of self.now mark ≡ Some (Marked.File id)) }
    {
        match self.objects.get(&mark) {
            Some(Marked::File(id)) => Ok(id.clone()?),
            Some(Marked::Commit(_)) => Err(ImportError::NoBlob { field, mark }),
            None => Err(ImportError::UnknownMark { field, mark }),
        }
    }
}
