//! The interface of stores that map workspace names to paths.
ghost use Rattle.std.specs.Prelude.{◌≡◌, ℕ, List, Option, OnOk, OnErr, IfOk, map, option_map, string_bytes};
ghost use Rattle.jj_ids.specs.Names.{name_bytes};
ghost use Rattle.jj_stores.specs.Workspaces.{HaveSamePaths, with_renamed, with_path, without_names};
ghost use Rattle.jj_stores.specs.declared.workspace_store.WorkspaceStoreError.{WorkspaceStoreError};

use jj_files::file_util::SourceError;
use jj_ids::ref_name::WorkspaceName;
use std::alloc::{AllocError, AllocFailed, Global};
use thiserror::Error;

/// An error of a workspace store.
#[derive(Debug, Drop, Error)]
pub enum WorkspaceStoreError {
    #[error("{0}")]
    Other(SourceError),
    #[error("out of memory")]
    Memory,
}

impl From<AllocError> for WorkspaceStoreError {
    ghost from_gives = { λ _ error. error ≡ WorkspaceStoreError.Memory };

    fn from(_error: AllocError) -> Self {
        WorkspaceStoreError::Memory
    }
}

impl<T: Drop> From<AllocFailed<T>> for WorkspaceStoreError {
    ghost from_gives = { λ _ error. error ≡ WorkspaceStoreError.Memory };

    fn from(_error: AllocFailed<T>) -> Self {
        WorkspaceStoreError::Memory
    }
}

impl From<SourceError> for WorkspaceStoreError {
    ghost use Rattle.jj_stores.specs.declared.workspace_store.WorkspaceStoreError.TheVariants.{Other};

    ghost from_gives = { λ source e. e ≡ Other source };

    fn from(source: SourceError) -> WorkspaceStoreError {
        WorkspaceStoreError::Other(source)
    }
}

/// Maps workspace names to paths. A call that fails changes no path.
pub trait WorkspaceStore {
    /// The path of each workspace, `None` for an unknown name.
    ghost paths: { Self → List ℕ → Option (List ℕ) };

    /// The name of the type of the store, which no call changes.
    ghost kind_name: { Self → List ℕ };

    /// Returns the name of the type of the store.
    fn name(&self) -> &str
        ensures { result.now ≡ kind_name self.now };

    /// Sets the path of a workspace.
    fn add(
        &mut self,
        alloc: Global,
        workspace_name: WorkspaceName<'_>,
        path: &str,
    ) -> Result<(), WorkspaceStoreError>
        ensures added { OnOk result (HaveSamePaths
            (with_path (name_bytes workspace_name.entry) path.now (paths self.old))
            (paths self.new)) }
        ensures name { kind_name self.new ≡ kind_name self.old }
        ensures error { OnErr result (HaveSamePaths (paths self.old) (paths self.new)) };

    /// Removes workspaces; unknown names are ignored.
    fn forget(
        &mut self,
        alloc: Global,
        workspace_names: &[WorkspaceName<'_>],
    ) -> Result<(), WorkspaceStoreError>
        ensures forgotten { OnOk result (HaveSamePaths
            (without_names (map name_bytes workspace_names.now) (paths self.old))
            (paths self.new)) }
        ensures name { kind_name self.new ≡ kind_name self.old }
        ensures error { OnErr result (HaveSamePaths (paths self.old) (paths self.new)) };

    /// Moves the path of one name to another, whose own path is overwritten.
    fn rename(
        &mut self,
        alloc: Global,
        old_name: WorkspaceName<'_>,
        new_name: WorkspaceName<'_>,
    ) -> Result<(), WorkspaceStoreError>
        ensures renamed { OnOk result (HaveSamePaths
            (with_renamed (name_bytes old_name.entry) (name_bytes new_name.entry) (paths self.old))
            (paths self.new)) }
        ensures name { kind_name self.new ≡ kind_name self.old }
        ensures error { OnErr result (HaveSamePaths (paths self.old) (paths self.new)) };

    /// Returns the path of a workspace, or `None` for an unknown name.
    fn get_workspace_path(
        &self,
        alloc: Global,
        workspace_name: WorkspaceName<'_>,
    ) -> Result<Option<String>, WorkspaceStoreError>
        ensures { IfOk result (λ path.
            option_map string_bytes path ≡ paths self.now (name_bytes workspace_name.entry)) };
}
