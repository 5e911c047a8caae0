//! The values of tree entries: files, symbolic links, subtrees and Git submodules.
ghost use Rattle.std.specs.Prelude.{◌≡◌};
ghost use Rattle.std.specs.Option.{option_copied, option_and_then};
ghost use Rattle.jj_backend.specs.TreeValues.{copy_id_of};

use jj_ids::object_id::{CommitId, CopyId, FileId, SymlinkId, TreeId};
use std::alloc::AllocError;

/// The value of a tree entry: a file, a symbolic link, a subtree or a Git submodule.
#[derive(Debug, PartialEq, Eq, Hash, Drop)]
pub enum TreeValue {
    File {
        id: FileId,
        executable: bool,
        copy_id: CopyId,
    },
    Symlink(SymlinkId),
    Tree(TreeId),
    GitSubmodule(CommitId),
}

impl TreeValue {
    /// Returns the copy id of a file, and `None` for any other value.
    pub fn copy_id(&self) -> Option<&CopyId>
        ensures { option_copied result ≡ copy_id_of self.now }
    {
        match self {
            TreeValue::File { copy_id, .. } => Some(copy_id),
            _ => None,
        }
    }
}

impl Clone for TreeValue {
    ghost is_clone = { λ value c. c ≡ value };

    fn clone(&self) -> Result<Self, AllocError> {
        match self {
            TreeValue::File {
                id,
                executable,
                copy_id,
            } => Ok(TreeValue::File {
                id: id.clone()?,
                executable: *executable,
                copy_id: copy_id.clone()?,
            }),
            TreeValue::Symlink(id) => Ok(TreeValue::Symlink(id.clone()?)),
            TreeValue::Tree(id) => Ok(TreeValue::Tree(id.clone()?)),
            TreeValue::GitSubmodule(id) => Ok(TreeValue::GitSubmodule(id.clone()?)),
        }
    }
}
