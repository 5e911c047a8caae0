//! Decoding of trees and of the values of their entries.
ghost use Rattle.std.specs.Prelude.{◌≡◌, ℕ, ◌<◌, ◌≤◌, List, length, ◌++◌, IfOk, IfErr};
ghost use Rattle.jj_decode.specs.Contents.{AreContents};
ghost use Rattle.jj_decode.specs.Decoding.{IsContentAt, IsMalformedAt};
ghost use Rattle.jj_decode.specs.TreeContents.{TreeContents, TreeErrors, tree_contents, TreeValueContents, tree_value_contents, tree_value_errors};
ghost use Rattle.jj_decode.specs.Errors.{VariantErrors};

use crate::error::DecodeError;
use crate::lists::read_list;
use crate::read_content::{ReadContent, read_both};
use jj_backend::backend::{Tree, TreeValue};
use jj_paths::repo_path::RepoPathComponentBuf;
use std::alloc::Global;

impl ReadContent for TreeValue {
    ghost is_content = { TreeValueContents };

    ghost errors = { VariantErrors 4 tree_value_errors };

    ghost contents = { tree_value_contents };

    fn read(alloc: Global, bytes: &[u8], start: usize) -> Result<(Self, usize), DecodeError> {
        let (tag, mid) = u32::read(alloc, bytes, start)?;
        match tag {
            0 => {
                let ((id, (executable, copy_id)), end) = read_both(alloc, bytes, mid)?;
                let file = TreeValue::File {
                    id,
                    executable,
                    copy_id,
                };
                Ok((file, end))
            }
            1 => {
                let (link, end) = ReadContent::read(alloc, bytes, mid)?;
                Ok((TreeValue::Symlink(link), end))
            }
            2 => {
                let (tree, end) = ReadContent::read(alloc, bytes, mid)?;
                Ok((TreeValue::Tree(tree), end))
            }
            3 => {
                let (commit, end) = ReadContent::read(alloc, bytes, mid)?;
                Ok((TreeValue::GitSubmodule(commit), end))
            }
            _ => Err(DecodeError::unknown_tag(start)),
        }
    }
}

/// Returns `Malformation::UnorderedKeys`, at the number of entries, if the names do not ascend
/// strictly.
impl ReadContent for Tree {
    ghost is_content = { TreeContents };

    ghost errors = { TreeErrors ⟦<(RepoPathComponentBuf, TreeValue) as ReadContent>⟧.errors };

    ghost contents = { tree_contents };

    fn read(alloc: Global, bytes: &[u8], start: usize) -> Result<(Self, usize), DecodeError> {
        let (entries, end) = read_list(alloc, bytes, start)?;
        if !Tree::are_sorted(&entries) {
            return Err(DecodeError::unordered_keys(start));
        }
        Ok((Tree::from_sorted_entries(entries), end))
    }
}
