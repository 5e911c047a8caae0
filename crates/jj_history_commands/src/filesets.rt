//! File sets that operands spell.
ghost use Rattle.std.specs.Prelude.{◌↔◌, IfOk, IsTrue};
ghost use Rattle.std.specs.Option.{option_copied};
ghost use Rattle.jj_paths.specs.Names.{path_of};
ghost use Rattle.jj_history_commands.specs.FileSets.{IsInSet};

use crate::error::CommandError;
use jj_excerpts::excerpt;
use jj_filesets::fileset::{FilesetExpression, FilesetParseError};
use jj_paths::repo_path::RepoPath;
use std::alloc::{AllocError, Global};

/// Parses the file set of an operand, if there is one. Fails with `Fileset` if the operand spells
/// none, and with `Memory` if memory runs out.
pub fn parse_files(
    alloc: Global,
    files: Option<&String>,
) -> Result<Option<FilesetExpression>, CommandError> {
    let Some(text) = files else {
        return Ok(None);
    };
    match FilesetExpression::parse(alloc, text.as_str()) {
        Ok(expression) => Ok(Some(expression)),
        Err(error) => Err(fileset_error(alloc, text.as_str(), error)),
    }
}

fn fileset_error(alloc: Global, text: &str, error: FilesetParseError) -> CommandError {
    if error == FilesetParseError::Memory {
        return CommandError::Memory;
    }
    match excerpt(alloc, text.as_bytes()) {
        Ok(quoted) => CommandError::Fileset { quoted, error },
        Err(_) => CommandError::Memory,
    }
}

/// Returns whether the path is in the set; all paths are if there is none.
pub fn is_in_set(
    alloc: Global,
    files: Option<&FilesetExpression>,
    path: RepoPath<'_>,
) -> Result<bool, AllocError>
    ensures { IfOk result (λ yes. IsTrue yes
        ↔ IsInSet (option_copied files.entry) (path_of path.entry)) }
{
    match files {
        None => Ok(true),
        Some(expression) => expression.contains(alloc, path),
    }
}
