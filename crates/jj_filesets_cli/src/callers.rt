//! Proved callers: file sets, and the program on a list in memory.
ghost use Rattle.std.specs.Prelude.{◌≢◌, ◌↔◌, [], Contains, map, IfOk, IfErr};
ghost use Rattle.jj_paths.specs.Names.{path_of};
ghost use Rattle.jj_paths.specs.Paths.{Path};
ghost use Rattle.jj_filesets.specs.SyntaxTrees.{SyntaxTree, IsIn};
ghost use Rattle.jj_filesets.specs.Expressions.{Spells, IsUnspelled};
ghost use Rattle.jj_filesets_cli.specs.InMemory.{IsPrinted};

use crate::arguments::{CommandLine, Task};
use crate::program::select;
use jj_files::file_util::Watched;
use jj_filesets::fileset::{FilesetExpression, FilesetParseError, files_in};
use jj_filesets::listing::ListOptions;
use jj_paths::repo_path::RepoPath;
use std::alloc::Global;

/// Returns the paths of a list that are in the set that an expression means, without the root.
/// Fails if the string spells no expression, or if memory runs out.
pub fn paths_in<'a>(
    alloc: Global,
    expression: &str,
    paths: &[RepoPath<'a>],
) -> Result<Vec<RepoPath<'a>>, FilesetParseError>
    ensures found { IfOk result (λ found. (set : SyntaxTree) × Spells expression.now set
        × ((path : Path) → Contains (map path_of found.items) path
        ↔ (Contains (map path_of paths.now) path × (path ≢ []) × IsIn set path))) }
    ensures error { IfErr result (IsUnspelled expression.now) }
{
    let expression = FilesetExpression::parse(alloc, expression)?;
    Ok(files_in(alloc, paths, &expression)?)
}

// Runs the program with an expression and no option on a list of paths, a line each. Returns the
// exit status and the output. The status is 0 if the output is the lines in the set and each line
// is a path, 2 without output if the expression spells no set, and otherwise 1.
pub(crate) fn print_files(alloc: Global, expression: &str, list: &[u8]) -> (u8, Vec<u8>)
    ensures { IsPrinted expression.now list.now result.0 result.1.items }
{
    let line = CommandLine {
        task: Task::Select,
        options: ListOptions {
            nul: false,
            skips_invalid: false,
        },
        fails_if_none: false,
        has_ended: false,
        expression: Some(0),
    };
    let mut reader = Watched::new(list);
    let mut writer = Watched::new(Vec::new(alloc));
    let mut errors = Watched::new(Vec::new(alloc));
    let status = select(
        alloc,
        line,
        expression,
        &mut reader,
        &mut writer,
        &mut errors,
    );
    (status, writer.into_inner())
}
