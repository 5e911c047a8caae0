//! The kinds of objects and their id types.
ghost use Rattle.std.specs.Prelude.{◌≡◌, [], codes, true, false, IfOk};
ghost use Rattle.std.specs.String.{string_bytes};
ghost use Rattle.jj_content.specs.Hex.{reverse_hex, reverse_hex_digits, IsDecoding};

use super::{Id, IdKind};
use jj_content::hex_util::{decode_reverse_hex, encode_reverse_hex};
use std::alloc::{AllocError, Global};
use std::convert::AsSlice;

/// The kind of commits.
#[derive(Drop)]
pub enum CommitKind {}

/// The id of a commit.
pub type CommitId = Id<CommitKind>;

impl IdKind for CommitKind {
    ghost type_name = { codes "commit" };

    ghost IS_REVERSED = { false };

    const ID_NAME: &'static str = "CommitId";

    const IS_REVERSED: bool = false;

    fn object_type() -> &'static str {
        "commit"
    }
}

/// The kind of changes.
#[derive(Drop)]
pub enum ChangeKind {}

/// The id of a change. It is displayed as reverse hex.
pub type ChangeId = Id<ChangeKind>;

impl IdKind for ChangeKind {
    ghost type_name = { codes "change" };

    ghost IS_REVERSED = { true };

    const ID_NAME: &'static str = "ChangeId";

    const IS_REVERSED: bool = true;

    fn object_type() -> &'static str {
        "change"
    }
}

impl ChangeId {
    /// Decodes an id from reverse hex digits of either case. Returns `None` if the length is odd or
    /// a character is not a digit.
    pub fn try_from_reverse_hex<H: AsSlice<u8> + Drop>(
        alloc: Global,
        reverse_hex: H,
    ) -> Result<Option<Self>, AllocError>
        ensures { IfOk result (IsDecoding (λ id. id) reverse_hex_digits (H.items reverse_hex)) }
    {
        Ok(decode_reverse_hex(alloc, reverse_hex)?.map(ChangeId::new))
    }

    /// Encodes the id as reverse hex, its display form.
    pub fn reverse_hex(&self) -> Result<String, AllocError>
        ensures { IfOk result (λ text. string_bytes text ≡ reverse_hex self.now) }
    {
        encode_reverse_hex(*self.bytes.allocator(), self.bytes.as_slice())
    }
}

/// The kind of trees.
#[derive(Drop)]
pub enum TreeKind {}

/// The id of a tree.
pub type TreeId = Id<TreeKind>;

impl IdKind for TreeKind {
    ghost type_name = { codes "tree" };

    ghost IS_REVERSED = { false };

    const ID_NAME: &'static str = "TreeId";

    const IS_REVERSED: bool = false;

    fn object_type() -> &'static str {
        "tree"
    }
}

/// The kind of file contents.
#[derive(Drop)]
pub enum FileKind {}

/// The id of a file's content.
pub type FileId = Id<FileKind>;

impl IdKind for FileKind {
    ghost type_name = { codes "file" };

    ghost IS_REVERSED = { false };

    const ID_NAME: &'static str = "FileId";

    const IS_REVERSED: bool = false;

    fn object_type() -> &'static str {
        "file"
    }
}

/// The kind of symbolic links.
#[derive(Drop)]
pub enum SymlinkKind {}

/// The id of the target of a symbolic link.
pub type SymlinkId = Id<SymlinkKind>;

impl IdKind for SymlinkKind {
    ghost type_name = { codes "symlink" };

    ghost IS_REVERSED = { false };

    const ID_NAME: &'static str = "SymlinkId";

    const IS_REVERSED: bool = false;

    fn object_type() -> &'static str {
        "symlink"
    }
}

/// The kind of copy histories.
#[derive(Drop)]
pub enum CopyKind {}

/// The id of a file's copy history.
pub type CopyId = Id<CopyKind>;

impl IdKind for CopyKind {
    ghost type_name = { codes "copy" };

    ghost IS_REVERSED = { false };

    const ID_NAME: &'static str = "CopyId";

    const IS_REVERSED: bool = false;

    fn object_type() -> &'static str {
        "copy"
    }
}

impl CopyId {
    /// Returns the empty id, which marks that no copy id is known yet. Does not allocate.
    pub fn placeholder(alloc: Global) -> CopyId
        ensures { result ≡ [] }
    {
        CopyId::new(Vec::new(alloc))
    }
}

/// The kind of views of a repository.
#[derive(Drop)]
pub enum ViewKind {}

/// The id of a view.
pub type ViewId = Id<ViewKind>;

impl IdKind for ViewKind {
    ghost type_name = { codes "view" };

    ghost IS_REVERSED = { false };

    const ID_NAME: &'static str = "ViewId";

    const IS_REVERSED: bool = false;

    fn object_type() -> &'static str {
        "view"
    }
}

/// The kind of operations.
#[derive(Drop)]
pub enum OperationKind {}

/// The id of an operation.
pub type OperationId = Id<OperationKind>;

impl IdKind for OperationKind {
    ghost type_name = { codes "operation" };

    ghost IS_REVERSED = { false };

    const ID_NAME: &'static str = "OperationId";

    const IS_REVERSED: bool = false;

    fn object_type() -> &'static str {
        "operation"
    }
}
