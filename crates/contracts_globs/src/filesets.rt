//! Callers of `jj_filesets`.
ghost use Rattle.std.specs.Prelude.{◌↔◌, IfErr, IfOk, IsTrue};
ghost use Rattle.jj_filesets.specs.Expressions.{IsParseError, Spells};
ghost use Rattle.jj_filesets.specs.Patterns.{Matches};
ghost use Rattle.jj_filesets.specs.SyntaxTrees.{IsIn};
ghost use Rattle.jj_paths.specs.Names.{path_of};

use jj_filesets::fileset::{
    FilePattern, FilesetExpression, FilesetParseError, FilesetParseErrorKind,
};
use jj_paths::repo_path::RepoPath;
use std::alloc::{AllocError, Global};

/// `FilesetExpression::parse`.
pub fn parse(alloc: Global, text: &str) -> Result<FilesetExpression, FilesetParseError>
    ensures spelled { IfOk result (Spells text.now) }
    ensures cause { IfErr result (IsParseError text.now) }
{
    FilesetExpression::parse(alloc, text)
}

/// `FilesetExpression::contains`.
pub fn contains(
    alloc: Global,
    expression: &FilesetExpression,
    path: RepoPath<'_>,
) -> Result<bool, AllocError>
    ensures { IfOk result (λ yes. IsTrue yes ↔ IsIn expression.now (path_of path.entry)) }
{
    expression.contains(alloc, path)
}

/// `FilePattern::matches`.
pub fn matches(pattern: &FilePattern, path: RepoPath<'_>) -> bool
    ensures { IsTrue result ↔ Matches pattern.now (path_of path.entry) }
{
    pattern.matches(path)
}
