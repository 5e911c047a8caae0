//! Content hashing of paths and components, as strings.
ghost use Rattle.std.specs.Prelude.{OnOk, OnErr};
ghost use Rattle.jj_content.specs.Content.{Absorbs, AbsorbsPrefix, IsLawful, string_content};
ghost use Rattle.jj_content.specs.PrefixFreeProofs.{on_lawful};
ghost use Rattle.jj_paths.specs.Contents.{IsShortName, name_lawful, IsShortPath, path_content, path_lawful};
ghost use Rattle.jj_paths.specs.Names.{name_of, path_of};

use super::{RepoPath, RepoPathBuf, RepoPathComponent, RepoPathComponentBuf};
use jj_content::content_hash::{ContentHash, DigestUpdate};
use std::alloc::{AllocError, Global};

impl ContentHash for RepoPathComponentBuf {
    ghost is_value = { IsShortName };

    ghost content = { string_content };

    ghost lawful = { name_lawful };

    fn hash<D: DigestUpdate>(&self, alloc: Global, state: &mut D) -> Result<(), AllocError> {
        ContentHash::hash(&self.value, alloc, state)
    }
}

impl<'a> ContentHash for RepoPathComponent<'a> {
    ghost is_value = { λ name. IsShortName (name_of name) };

    ghost content = { λ name. string_content (name_of name) };

    ghost lawful = { on_lawful name_of name_lawful };

    fn hash<D: DigestUpdate>(&self, alloc: Global, state: &mut D) -> Result<(), AllocError> {
        let text = self.as_internal_str();
        ContentHash::hash(&text, alloc, state)
    }
}

impl ContentHash for RepoPathBuf {
    ghost is_value = { IsShortPath };

    ghost content = { path_content };

    ghost lawful = { path_lawful };

    fn hash<D: DigestUpdate>(&self, alloc: Global, state: &mut D) -> Result<(), AllocError> {
        ContentHash::hash(&self.as_path(), alloc, state)
    }
}

impl<'a> ContentHash for RepoPath<'a> {
    ghost is_value = { λ path. IsShortPath (path_of path) };

    ghost content = { λ path. path_content (path_of path) };

    ghost lawful = { on_lawful path_of path_lawful };

    fn hash<D: DigestUpdate>(&self, alloc: Global, state: &mut D) -> Result<(), AllocError> {
        let text = self.as_internal_file_string();
        ContentHash::hash(&text, alloc, state)
    }
}
