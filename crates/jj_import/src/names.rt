//! The names of commits, stored in the backend as commits of their own: records of names.
ghost use Rattle.std.specs.Prelude.{◌≡◌, ◌↔◌, ℕ, IsTrue, List, None};
ghost use Rattle.jj_import.specs.ImportStates.{names_of};
ghost use Rattle.jj_import.specs.RefNames.{IsRefName};

use jj_backend::backend::{Backend, BackendError, Commit, CommitId, FileId, TreeId, TreeValue};
use jj_ids::object_id::ObjectId;
use jj_paths::repo_path::RepoPath;
use std::alloc::{AllocError, AllocFailed, Global};
use std::collections::{BTreeMap, BTreeSet};
use thiserror::Error;

// The change id of records. Commits of streams have change ids of 16 bytes.
pub(crate) const CHANGE_ID: &[u8] = b"names";

// The files of a record: all refs, and the ids of Git that the record before does not have.
pub(crate) const REFS: &str = "refs";

pub(crate) const GIT_IDS: &str = "git-ids";

// The most bytes of a line that an error quotes.
const MAX_QUOTED: usize = 60;

/// Why the names of a record could not be read.
#[derive(Debug, Drop, Error)]
pub enum NamesError {
    #[error("out of memory")]
    Memory,
    /// The backend failed.
    #[error("{0}")]
    Store(BackendError),
    /// The tree of a record is in conflict, or has no such file.
    #[error("a record of names has no file `{file}`")]
    MissingFile {
        file: &'static str,
    },
    /// A line of a file of a record. `quoted` has its first 60 bytes.
    #[error("`{file}` of a record of names, line {line}: expected {expected}, not {quoted:?}")]
    Malformed {
        file: &'static str,
        line: u64,
        expected: &'static str,
        quoted: String,
    },
    /// A record is its own ancestor.
    #[error("a record of names is its own ancestor")]
    Cycle,
}

impl From<AllocError> for NamesError {
    fn from(_error: AllocError) -> Self {
        NamesError::Memory
    }
}

impl<T: Drop> From<AllocFailed<T>> for NamesError {
    fn from(_error: AllocFailed<T>) -> Self {
        NamesError::Memory
    }
}

impl From<BackendError> for NamesError {
    fn from(error: BackendError) -> Self {
        match error {
            BackendError::Memory => NamesError::Memory,
            error => NamesError::Store(error),
        }
    }
}

/// The commits that refs and Git's ids name.
#[derive(Drop)]
pub struct Names {
    pub(crate) refs: BTreeMap<String, CommitId>,
    pub(crate) git_ids: BTreeMap<String, CommitId>,
    pub(crate) record: Option<CommitId>,
    // The file `refs` of the record.
    pub(crate) recorded_refs: Vec<u8>,
}

/// Returns whether a record can have a ref of this name: whether it has no line feed.
pub fn is_ref_name(name: &str) -> bool
    ensures { IsTrue result ↔ IsRefName name.now }
{
    name.as_bytes().iter().all(|byte| *byte != b'\n')
}

/// Returns whether a commit is a record of names.
pub fn is_record(commit: &Commit) -> bool {
    commit.change_id.as_bytes() == CHANGE_ID
}

fn malformed(
    alloc: Global,
    file: &'static str,
    line: u64,
    expected: &'static str,
    bytes: &[u8],
) -> NamesError {
    let quoted = &bytes[..bytes.len().min(MAX_QUOTED)];
    match String::from_utf8_lossy(alloc, quoted) {
        Ok(quoted) => NamesError::Malformed {
            file,
            line,
            expected,
            quoted,
        },
        Err(_) => NamesError::Memory,
    }
}

// Reads a file at the root of the tree of a record.
fn read_record_file<B: Backend>(
    alloc: Global,
    backend: &B,
    record: &Commit,
    file: &'static str,
) -> Result<Vec<u8>, NamesError> {
    let Some(id) = record.root_tree.as_resolved() else {
        return Err(NamesError::MissingFile { file });
    };
    match file_id(alloc, backend, id, file)? {
        Some(id) => Ok(backend.read_file(alloc, RepoPath::root(), &id)?),
        None => Err(NamesError::MissingFile { file }),
    }
}

// Returns the id of the file with this name at the root of a tree.
fn file_id<B: Backend>(
    alloc: Global,
    backend: &B,
    root: &TreeId,
    file: &'static str,
) -> Result<Option<FileId>, NamesError> {
    let tree = backend.read_tree(alloc, RepoPath::root(), root)?;
    for entry in tree.entries() {
        if entry.name().as_internal_str() == file
            && let TreeValue::File { id, .. } = entry.value()
        {
            return Ok(Some(id.clone()?));
        }
    }
    Ok(None)
}

// Returns the name and the commit of a line: `COMMIT REF` in `refs`, else `GIT_ID COMMIT`.
fn pair_of(
    alloc: Global,
    file: &'static str,
    line: &[u8],
) -> Result<Option<(String, CommitId)>, AllocError> {
    let Ok(line) = str::from_utf8(line) else {
        return Ok(None);
    };
    let words = if file == REFS {
        line.split_once(' ')
    } else {
        match line.rsplit_once(' ') {
            Some((name, id)) => Some((id, name)),
            None => None,
        }
    };
    let Some((id, name)) = words else {
        return Ok(None);
    };
    match CommitId::try_from_hex(alloc, id)? {
        Some(id) => Ok(Some((String::from_str(alloc, name)?, id))),
        None => Ok(None),
    }
}

fn form_of(file: &'static str) -> &'static str {
    if file == REFS {
        "`COMMIT REF`"
    } else {
        "`GIT_ID COMMIT`"
    }
}

// Adds the names in a file of a record, unless a later record has them.
fn add_lines(
    alloc: Global,
    names: &mut BTreeMap<String, CommitId>,
    file: &'static str,
    bytes: &[u8],
) -> Result<(), NamesError> {
    let mut rest = bytes;
    let mut line = 1u64;
    while let Some(len) = rest.iter().position(|byte| *byte == b'\n') {
        let Some((name, id)) = pair_of(alloc, file, &rest[..len])? else {
            return Err(malformed(alloc, file, line, form_of(file), &rest[..len]));
        };
        if !names.contains_key(&name) {
            names.insert(name, id)?;
        }
        rest = &rest[len + 1..];
        line = line.saturating_add(1);
    }
    if rest.is_empty() {
        Ok(())
    } else {
        Err(malformed(alloc, file, line, "a line feed at the end", rest))
    }
}

impl Names {
    /// Returns no names.
    pub fn new(alloc: Global) -> Self
        ensures refs { (name : List ℕ) → (names_of result).refs name ≡ None }
        ensures git_ids { (name : List ℕ) → (names_of result).git_ids name ≡ None }
    {
        Names {
            refs: BTreeMap::new(alloc),
            git_ids: BTreeMap::new(alloc),
            record: None,
            recorded_refs: Vec::new(alloc),
        }
    }

    /// Reads the names of a record: its refs, and Git's ids of it and of the records before it.
    /// Returns `None` if the commit is no record of names. Reads three objects for each record.
    ///
    /// Fails with `Store` if the backend does, with `MissingFile` and `Malformed` if a record is
    /// not as `Importer::write_names` writes it, and with `Cycle` if it is its own ancestor.
    pub fn read<B: Backend>(
        alloc: Global,
        backend: &B,
        record: &CommitId,
    ) -> Result<Option<Self>, NamesError> {
        let commit = backend.read_commit(alloc, record)?;
        if !is_record(&commit) {
            return Ok(None);
        }
        let mut names = Names::new(alloc);
        names.recorded_refs = read_record_file(alloc, backend, &commit, REFS)?;
        add_lines(alloc, &mut names.refs, REFS, &names.recorded_refs)?;
        names.add_git_ids(alloc, backend, record.clone()?, commit)?;
        names.record = Some(record.clone()?);
        Ok(Some(names))
    }

    // Adds Git's ids of a record and of the records before it.
    fn add_git_ids<B: Backend>(
        &mut self,
        alloc: Global,
        backend: &B,
        id: CommitId,
        record: Commit,
    ) -> Result<(), NamesError> {
        let mut visited = BTreeSet::new(alloc);
        let mut id = id;
        let mut record = record;
        for _ in 0..u64::MAX {
            if !is_record(&record) {
                return Ok(());
            }
            if !visited.insert(id)? {
                return Err(NamesError::Cycle);
            }
            let bytes = read_record_file(alloc, backend, &record, GIT_IDS)?;
            add_lines(alloc, &mut self.git_ids, GIT_IDS, &bytes)?;
            let Some(parent) = record.parents.first() else {
                return Ok(());
            };
            id = parent.clone()?;
            record = backend.read_commit(alloc, &id)?;
        }
        Err(NamesError::Cycle)
    }

    /// The commits that refs name, by the names of the refs.
    pub fn refs(&self) -> &BTreeMap<String, CommitId> {
        &self.refs
    }

    /// The commits that Git's ids name, by the ids in hex digits.
    pub fn git_ids(&self) -> &BTreeMap<String, CommitId> {
        &self.git_ids
    }

    /// The last record, if there is one.
    pub fn record(&self) -> Option<&CommitId> {
        self.record.as_ref()
    }
}
