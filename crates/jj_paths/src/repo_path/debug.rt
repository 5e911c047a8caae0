//! `Debug` of paths and components: the quoted string.
ghost use Rattle.std.specs.Fmt.{debug_str};
ghost use Rattle.jj_paths.specs.Paths.{path_string};
ghost use Rattle.jj_paths.specs.Names.{name_of, path_of};

use super::{RepoPath, RepoPathBuf, RepoPathComponent, RepoPathComponentBuf};
use std::fmt;

impl<'a> fmt::Debug for RepoPathComponent<'a> {
    ghost debug_output = { λ name. debug_str (name_of name) };

    fn fmt<W: fmt::Write>(&self, f: &mut fmt::Formatter<W>) -> fmt::Result {
        fmt::Debug::fmt(&self.value, f)
    }
}

impl fmt::Debug for RepoPathComponentBuf {
    ghost debug_output = { debug_str };

    fn fmt<W: fmt::Write>(&self, f: &mut fmt::Formatter<W>) -> fmt::Result {
        fmt::Debug::fmt(&self.as_component(), f)
    }
}

impl<'a> fmt::Debug for RepoPath<'a> {
    ghost debug_output = { λ path. debug_str (path_string (path_of path)) };

    fn fmt<W: fmt::Write>(&self, f: &mut fmt::Formatter<W>) -> fmt::Result {
        fmt::Debug::fmt(&self.as_internal_file_string(), f)
    }
}

impl fmt::Debug for RepoPathBuf {
    ghost debug_output = { λ path. debug_str (path_string path) };

    fn fmt<W: fmt::Write>(&self, f: &mut fmt::Formatter<W>) -> fmt::Result {
        fmt::Debug::fmt(&self.as_path(), f)
    }
}
