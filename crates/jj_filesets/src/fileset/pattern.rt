//! Patterns, the operands of expressions.
ghost use Rattle.std.specs.Prelude.{◌↔◌, IsTrue};
ghost use Rattle.jj_paths.specs.Names.{path_of};
ghost use Rattle.jj_filesets.specs.Patterns.{IsBelowMatch, Matches};

use jj_globs::glob::Glob;
use jj_paths::repo_path::{RepoPath, RepoPathBuf};

/// A set of paths that is described without operators.
#[derive(Drop)]
pub enum FilePattern {
    /// All paths.
    All,
    /// No path.
    Nothing,
    /// The path and the paths below it.
    PrefixPath(RepoPathBuf),
    /// Only the path.
    FilePath(RepoPathBuf),
    /// The paths that the glob matches.
    FileGlob(Glob),
    /// The paths that the glob matches, and the paths below them.
    PrefixGlob(Glob),
}

impl FilePattern {
    /// Returns whether the pattern matches the path. Takes time linear in the path for each state
    /// of a glob, and does not allocate.
    pub fn matches(&self, path: RepoPath<'_>) -> bool
        ensures { IsTrue result ↔ Matches self.now (path_of path.entry) }
    {
        match self {
            FilePattern::All => true,
            FilePattern::Nothing => false,
            FilePattern::PrefixPath(base) => path.starts_with(base.as_path()),
            FilePattern::FilePath(file) => path == file.as_path(),
            FilePattern::FileGlob(glob) => {
                glob.is_match(path.as_internal_file_string().as_bytes())
            }
            FilePattern::PrefixGlob(glob) => is_below_match(glob, path),
        }
    }
}

// Whether the glob matches the path or one of its ancestors. No slash follows the root.
fn is_below_match(glob: &Glob, path: RepoPath<'_>) -> bool
    ensures { IsTrue result ↔ IsBelowMatch glob.now (path_of path.entry) }
{
    glob.is_prefix_match(path.as_internal_file_string().as_bytes()) || glob.is_match(b"")
}
