//! Import of the commands of a stream, one after the other.
ghost use Rattle.std.specs.Prelude.{◌≡◌, ℕ, ◌++◌, List, Some, None, IfOk, IfSome, IsSome, OnOk, OnErr, codes, string_bytes};
ghost use Rattle.std.specs.Option.{option_map};
ghost use Rattle.jj_backend.specs.Objects.{Objects};
ghost use Rattle.jj_fast_import.specs.Values.{Blobs, Commits, Resets, Tags, blob_value, bytes_of, command_value, commit_value, reference_value, tag_value};
ghost use Rattle.jj_import.specs.AppliedChanges.{table_of};
ghost use Rattle.jj_import.specs.Imported.{imported_string};
ghost use Rattle.jj_import.specs.ImportStates.{IsSame, IsStoredCommit, known_commit as commit_known, names_of, state_of, with_commit, with_ref};
ghost use Rattle.jj_import.specs.ImportedCommands.{IsCommandImported, IsNewMark};
ghost use Rattle.jj_import.specs.RefNames.{IsRefName};
ghost use Rattle.jj_import.specs.Stored.{IsExtended};

use crate::changes::write_contents;
use crate::error::ImportError;
use crate::marks::{Marked, Marks};
use crate::name_maps::{add_id, remove_id, restore, set_name};
use crate::name_records::{git_ids_text, refs_text, write_record};
use crate::names::Names;
use jj_backend::backend::{Backend, CommitId};
use jj_fast_import::command;
use jj_fast_import::command::{Blob, Command, Reference, Tag};
use jj_paths::repo_path::RepoPath;
use std::alloc::{AllocError, Global};
use std::collections::BTreeMap;

// Numbers of imported objects.
#[derive(Drop)]
struct Counts {
    commits: u64,
    known_commits: u64,
    blobs: u64,
    blob_bytes: u64,
}

/// The state of an import of a stream: what its marks and its refs name, and the names of commits
/// that are stored already.
#[derive(Drop)]
pub struct Importer {
    pub(crate) marks: Marks,
    // The refs that the stream has set; `None` after a `reset` without `from`.
    pub(crate) stream_refs: BTreeMap<String, Option<CommitId>>,
    pub(crate) names: Names,
    // Git's ids that no record has.
    new_ids: Vec<String>,
    counts: Counts,
    has_new_commits: bool,
    is_within_stream: bool,
}

impl Counts {
    fn add_commit(&mut self, is_known: bool) {
        self.commits = self.commits.saturating_add(1);
        if is_known {
            self.known_commits = self.known_commits.saturating_add(1);
        }
    }

    fn add_blob(&mut self, bytes: u64) {
        self.blobs = self.blobs.saturating_add(1);
        self.blob_bytes = self.blob_bytes.saturating_add(bytes);
    }
}

fn text_of(alloc: Global, bytes: &[u8]) -> Result<String, AllocError>
    ensures { IfOk result (λ text. string_bytes text ≡ imported_string bytes.now) }
{
    String::from_utf8_lossy(alloc, bytes)
}

// Returns Git's id of a commit, if the stream has it.
fn git_id_of(alloc: Global, id: &Option<Vec<u8>>) -> Result<Option<String>, AllocError>
    ensures { IfOk result (λ git_id. option_map string_bytes git_id
        ≡ option_map imported_string (option_map bytes_of id.now)) }
{
    match id {
        Some(id) => {
            let git_id = text_of(alloc, id)?;
            Ok(Some(git_id))
        }
        None => Ok(None),
    }
}

// Appends an id of Git that has no commit to those that are to be recorded.
fn push_new_id(
    new_ids: &mut Vec<String>,
    git_ids: &BTreeMap<String, CommitId>,
    git_id: &Option<String>,
) -> Result<(), AllocError> {
    if let Some(git_id) = git_id
        && !git_ids.contains_key(git_id.as_str())
    {
        let copy = git_id.clone()?;
        new_ids.push(copy)?;
    }
    Ok(())
}

// Returns the name of the ref of a tag.
fn tag_ref(alloc: Global, tag: &[u8]) -> Result<String, AllocError>
    ensures { IfOk result (λ name. string_bytes name
        ≡ codes "refs/tags/" ++ imported_string tag.now) }
{
    let tag = text_of(alloc, tag)?;
    let mut name = String::from_str(alloc, "refs/tags/")?;
    name.push_str(tag.as_str())?;
    Ok(name)
}

// Fails unless the feature is that the stream ends with `done`.
fn check_feature(feature: &[u8]) -> Result<(), ImportError>
    ensures { OnOk result (feature.now ≡ codes "done") }
{
    if feature == b"done".as_slice() {
        Ok(())
    } else {
        Err(ImportError::Unsupported { field: "feature" })
    }
}

fn clone_name(name: &Option<String>) -> Result<Option<String>, AllocError>
    ensures { IfOk result (λ copy. option_map string_bytes copy
        ≡ option_map string_bytes name.now) }
{
    match name {
        Some(name) => {
            let copy = name.clone()?;
            Ok(Some(copy))
        }
        None => Ok(None),
    }
}

impl Importer {
    /// Returns the state before the first command of a stream. Commits that Git's ids of `names`
    /// name are not written again.
    pub fn over_names(alloc: Global, names: Names) -> Self
        ensures marks { (mark : ℕ) → (state_of result).marks mark ≡ None }
        ensures stream_refs { (name : List ℕ) → (state_of result).stream_refs name ≡ None }
        ensures names { (state_of result).names ≡ names_of names }
    {
        Importer {
            marks: Marks::new(alloc),
            stream_refs: BTreeMap::new(alloc),
            names,
            new_ids: Vec::new(alloc),
            counts: Counts {
                commits: 0,
                known_commits: 0,
                blobs: 0,
                blob_bytes: 0,
            },
            has_new_commits: false,
            is_within_stream: false,
        }
    }

    /// The names at the start, with those that the stream has set.
    pub fn names(&self) -> &Names
        ensures { names_of result.now ≡ (state_of self.now).names }
    {
        &self.names
    }

    /// The number of imported commits of the stream.
    pub fn commits(&self) -> u64 {
        self.counts.commits
    }

    /// The number of imported commits that were stored already.
    pub fn known_commits(&self) -> u64 {
        self.counts.known_commits
    }

    /// The number of imported blobs.
    pub fn blobs(&self) -> u64 {
        self.counts.blobs
    }

    /// The number of bytes of imported blobs.
    pub fn blob_bytes(&self) -> u64 {
        self.counts.blob_bytes
    }

    pub(crate) fn set_within_stream(&mut self, is_within_stream: bool)
        ensures { state_of self.new ≡ state_of self.old }
    {
        self.is_within_stream = is_within_stream;
    }

    // Whether a record is due. Within a stream whose commits are all stored already, the refs are
    // those of earlier commits.
    fn has_unrecorded_names(&self, refs: &[u8]) -> bool {
        if self.is_within_stream && !self.has_new_commits {
            return false;
        }
        !self.new_ids.is_empty() || refs != self.names.recorded_refs.as_slice()
    }

    /// Writes a record of the names, if refs or Git's ids are not as in the last one, and returns
    /// its id. After `import_commands` with commits left to import, also returns `None` if all
    /// commits since the last record were stored already.
    ///
    /// Fails with `Memory` and `Store`; the names that are recorded are then as before. Takes time
    /// for all refs, and for Git's ids since the last record.
    pub fn write_names<B: Backend>(
        &mut self,
        alloc: Global,
        backend: &mut B,
    ) -> Result<Option<CommitId>, ImportError>
        ensures { state_of self.new ≡ state_of self.old }
    {
        let refs = refs_text(alloc, &self.names.refs)?;
        if !self.has_unrecorded_names(&refs) {
            return Ok(None);
        }
        let git_ids = git_ids_text(alloc, &self.new_ids, &self.names.git_ids)?;
        let id = write_record(alloc, backend, self.names.record(), &refs, &git_ids)?;
        self.names.record = Some(id.clone()?);
        self.names.recorded_refs = refs;
        self.new_ids = Vec::new(alloc);
        self.has_new_commits = false;
        Ok(Some(id))
    }

    // Returns the commit that Git knows by this id, if it is stored already.
    fn known_commit<B: Backend>(
        &self,
        alloc: Global,
        backend: &B,
        git_id: &Option<String>,
    ) -> Result<Option<CommitId>, ImportError>
        ensures known { IfOk result (λ known. known ≡ commit_known (state_of self.now)
            (option_map string_bytes git_id.now)) }
        ensures stored { IfOk result (λ known. IfSome known
            (λ id. IsSome ((B.objects backend.now).commits id))) }
    {
        let Some(git_id) = git_id else {
            return Ok(None);
        };
        match self.names.git_ids.get(git_id) {
            Some(id) => {
                let _commit = backend.read_commit(alloc, id)?;
                Ok(Some(id.clone()?))
            }
            None => Ok(None),
        }
    }

    // Returns the commit that a commit of the stream becomes, and whether it is stored already.
    fn stored_commit<B: Backend>(
        &self,
        alloc: Global,
        backend: &mut B,
        commit: &command::Commit,
        ref_name: &str,
        git_id: &Option<String>,
    ) -> Result<(CommitId, bool), ImportError>
        requires ref_name { ref_name.now ≡ imported_string commit.now.ref_name.items }
        requires git_id { option_map string_bytes git_id.now
            ≡ option_map imported_string (option_map bytes_of commit.now.original_oid) }
        ensures commit { IfOk result (λ stored. (objects : Objects)
            → IsExtended (B.objects backend.new) objects → IsStoredCommit objects
            (B.fixed backend.old).root_commit_id (state_of self.now) (commit_value commit.now)
            stored.0) }
        ensures objects { IsExtended (B.objects backend.old) (B.objects backend.new) }
        ensures fixed { B.fixed backend.new ≡ B.fixed backend.old }
    {
        let known = self.known_commit(alloc, backend, git_id)?;
        match known {
            Some(id) => Ok((id, true)),
            None => {
                let id = self.write_commit(alloc, backend, commit, ref_name, git_id)?;
                Ok((id, false))
            }
        }
    }

    fn import_commit<B: Backend>(
        &mut self,
        alloc: Global,
        backend: &mut B,
        commit: &command::Commit,
    ) -> Result<(), ImportError>
        ensures imported { OnOk result ((objects : Objects)
            → IsExtended (B.objects backend.new) objects → IsCommandImported objects
            (B.fixed backend.old).root_commit_id (Commits (commit_value commit.now))
            (state_of self.old) (state_of self.new)) }
        ensures unchanged { OnErr result (state_of self.new ≡ state_of self.old) }
        ensures objects { IsExtended (B.objects backend.old) (B.objects backend.new) }
        ensures fixed { B.fixed backend.new ≡ B.fixed backend.old }
    {
        self.marks.check_new(commit.mark)?;
        let ref_name = text_of(alloc, &commit.ref_name)?;
        let git_id = git_id_of(alloc, &commit.original_oid)?;
        let (id, is_known) = self.stored_commit(
            alloc,
            backend,
            commit,
            ref_name.as_str(),
            &git_id,
        )?;
        self.set_commit(commit.mark, ref_name, git_id, id)?;
        self.counts.add_commit(is_known);
        self.has_new_commits = self.has_new_commits || !is_known;
        Ok(())
    }

    // Names a commit: by a mark, by a ref, and by Git's id.
    fn set_commit(
        &mut self,
        mark: Option<u64>,
        ref_name: String,
        git_id: Option<String>,
        id: CommitId,
    ) -> Result<(), AllocError>
        requires { IsNewMark (state_of self.old) mark }
        ensures named { OnOk result (IsSame (with_commit (state_of self.old) mark
            (string_bytes ref_name) (option_map string_bytes git_id) id) (state_of self.new)) }
        ensures unchanged { OnErr result (IsSame (state_of self.old) (state_of self.new)) }
    {
        self.marks.set(mark, Marked::Commit(id.clone()?))?;
        if let Err(error) = self.set_names(ref_name, git_id, id) {
            self.marks.remove(mark);
            return Err(error);
        }
        Ok(())
    }

    // Names a commit: by a ref, and by Git's id.
    fn set_names(
        &mut self,
        ref_name: String,
        git_id: Option<String>,
        id: CommitId,
    ) -> Result<(), AllocError>
        ensures named { OnOk result (IsSame (with_commit (state_of self.old) None
            (string_bytes ref_name) (option_map string_bytes git_id) id) (state_of self.new)) }
        ensures unchanged { OnErr result (IsSame (state_of self.old) (state_of self.new)) }
    {
        let restored = clone_name(&git_id)?;
        let added = id.clone()?;
        push_new_id(&mut self.new_ids, &self.names.git_ids, &git_id)?;
        let is_new = add_id(&mut self.names.git_ids, git_id, added)?;
        if let Err(error) = self.set_owned_ref(ref_name, id) {
            remove_id(&mut self.names.git_ids, restored, is_new);
            return Err(error);
        }
        Ok(())
    }

    /// Sets a ref, as `reset` with `from` does; `write_names` records it. Whether a commit with
    /// the id is stored is not checked.
    pub fn set_ref(&mut self, name: &str, id: &CommitId) -> Result<(), AllocError>
        // Names are lines of a record.
        requires line { IsRefName name.now }
        // The ref names the commit, in the stream too; no other ref, mark or id of Git changes.
        ensures named { OnOk result (state_of self.new
            ≡ with_ref (state_of self.old) name.now id.now) }
        ensures unchanged { OnErr result (state_of self.new ≡ state_of self.old) }
    {
        let name = String::from_str(*self.new_ids.allocator(), name)?;
        self.set_owned_ref(name, id.clone()?)
    }

    // Sets a ref of the stream, and of the names.
    fn set_owned_ref(&mut self, name: String, id: CommitId) -> Result<(), AllocError>
        ensures named { OnOk result (IsSame (with_ref (state_of self.old)
            (string_bytes name) id) (state_of self.new)) }
        ensures unchanged { OnErr result (IsSame (state_of self.old) (state_of self.new)) }
    {
        let key = name.clone()?;
        let restored = name.clone()?;
        let stored = id.clone()?;
        let old = set_name(&mut self.stream_refs, key, Some(stored))?;
        if let Err(error) = set_name(&mut self.names.refs, name, id) {
            restore(&mut self.stream_refs, restored, old);
            return Err(error);
        }
        Ok(())
    }

    fn import_blob<B: Backend>(
        &mut self,
        alloc: Global,
        backend: &mut B,
        blob: &Blob,
    ) -> Result<(), ImportError>
        ensures imported { OnOk result ((objects : Objects)
            → IsExtended (B.objects backend.new) objects → IsCommandImported objects
            (B.fixed backend.old).root_commit_id (Blobs (blob_value blob.now))
            (state_of self.old) (state_of self.new)) }
        ensures unchanged { OnErr result (state_of self.new ≡ state_of self.old) }
        ensures objects { IsExtended (B.objects backend.old) (B.objects backend.new) }
        ensures fixed { B.fixed backend.new ≡ B.fixed backend.old }
    {
        self.marks.check_new(blob.mark)?;
        let id = write_contents(alloc, backend, RepoPath::root(), &blob.data)?;
        self.marks.set(blob.mark, Marked::File(id))?;
        self.counts.add_blob(blob.data.len() as u64);
        Ok(())
    }

    // Sets the ref of a tag to the tagged commit. The tag of a blob is left out.
    fn import_tag(&mut self, alloc: Global, tag: &Tag) -> Result<(), ImportError>
        ensures imported { OnOk result ((objects : Objects) (root : List ℕ)
            → IsCommandImported objects root (Tags (tag_value tag.now)) (state_of self.old)
            (state_of self.new)) }
        ensures unchanged { OnErr result (state_of self.new ≡ state_of self.old) }
    {
        self.marks.check_new(tag.mark)?;
        if self.marks.is_blob(&tag.from) {
            return Ok(());
        }
        let id = self.commit_of(alloc, "from", &tag.from)?;
        let name = tag_ref(alloc, &tag.name)?;
        self.set_commit(tag.mark, name, None, id)?;
        Ok(())
    }

    // Sets a ref to the commit of a reference.
    fn move_ref(
        &mut self,
        alloc: Global,
        ref_name: &[u8],
        from: &Reference,
    ) -> Result<(), ImportError>
        ensures imported { OnOk result ((objects : Objects) (root : List ℕ)
            → IsCommandImported objects root (Resets ref_name.now
            (Some (reference_value from.now))) (state_of self.old) (state_of self.new)) }
        ensures unchanged { OnErr result (state_of self.new ≡ state_of self.old) }
    {
        let id = self.commit_of(alloc, "from", from)?;
        let name = text_of(alloc, ref_name)?;
        self.set_owned_ref(name, id)?;
        Ok(())
    }

    // Leaves a ref without a commit in this stream.
    fn clear_ref(&mut self, alloc: Global, ref_name: &[u8]) -> Result<(), ImportError>
        ensures imported { OnOk result ((objects : Objects) (root : List ℕ)
            → IsCommandImported objects root (Resets ref_name.now None) (state_of self.old)
            (state_of self.new)) }
        ensures unchanged { OnErr result (state_of self.new ≡ state_of self.old) }
    {
        let name = text_of(alloc, ref_name)?;
        let _old = set_name(&mut self.stream_refs, name, None)?;
        Ok(())
    }

    fn reset(
        &mut self,
        alloc: Global,
        ref_name: &[u8],
        from: &Option<Reference>,
    ) -> Result<(), ImportError>
        ensures imported { OnOk result ((objects : Objects) (root : List ℕ)
            → IsCommandImported objects root (Resets ref_name.now
            (option_map reference_value from.now)) (state_of self.old) (state_of self.new)) }
        ensures unchanged { OnErr result (state_of self.new ≡ state_of self.old) }
    {
        match from {
            Some(from) => self.move_ref(alloc, ref_name, from),
            None => self.clear_ref(alloc, ref_name),
        }
    }

    /// Imports a command. A commit that is stored already, by Git's id, is not written again. A
    /// commit without `from` continues its ref in this stream, whatever the ref was before.
    ///
    /// After an error, the refs and the marks are as before; trees and files that were written
    /// stay in the backend.
    pub fn import<B: Backend>(
        &mut self,
        alloc: Global,
        backend: &mut B,
        command: &Command,
    ) -> Result<(), ImportError>
        // The later state is what the command makes of the earlier one, in this store and in each
        // later one.
        ensures imported { OnOk result ((objects : Objects)
            → IsExtended (B.objects backend.new) objects → IsCommandImported objects
            (B.fixed backend.old).root_commit_id (command_value command.now) (state_of self.old)
            (state_of self.new)) }
        // After an error, the marks, the refs and the ids of Git name what they did.
        ensures unchanged { OnErr result (state_of self.new ≡ state_of self.old) }
        // The backend has each object that it had.
        ensures objects { IsExtended (B.objects backend.old) (B.objects backend.new) }
        ensures fixed { B.fixed backend.new ≡ B.fixed backend.old }
    {
        match command {
            Command::Blob(blob) => self.import_blob(alloc, backend, blob),
            Command::Commit(commit) => self.import_commit(alloc, backend, commit),
            Command::Tag(tag) => self.import_tag(alloc, tag),
            Command::Reset { ref_name, from } => self.reset(alloc, ref_name, from),
            Command::Feature(feature) => check_feature(feature),
            Command::Option(_) | Command::Progress(_) | Command::Checkpoint | Command::Done => {
                Ok(())
            }
        }
    }
}
