//! The command `walk`: marks paths, builds a set of files in postfix notation, and lists the marked
//! files in the set and the directories that a pruned walk enters.
ghost use Rattle.std.specs.Prelude.{◌≡◌, ◌++◌, [], ◌∷◌, length, map, Bool, Ok, IfOk, IfErr, OnOk};
ghost use Rattle.std.specs.List.{AllZip};
ghost use Rattle.jj_paths.specs.Names.{path_of};
ghost use Rattle.jj_paths.specs.Paths.{Path};
ghost use Rattle.jj_globs.specs.GlobMeaning.{GlobSpec};
ghost use Rattle.jj_program.specs.Lines.{IsFaultOf};
ghost use Rattle.jj_program.specs.WalkCommand.{SetTree, WalkState, glob_kind, path_kind, walk_step, walk_request, IsWalkOutput, IsWalkResult, path_lines};
ghost use Rattle.jj_program.specs.declared.file_set.matcher.FileSet.{FileSet};
ghost use Rattle.jj_program.specs.SetCode.{AreAlike, sets_of};

use crate::fault::{Fault, LineFault};
use crate::file_set::Combination::{Difference, Intersection, Union};
use crate::file_set::SetWord::{Everything, Files, Globs, Nothing, Prefix, PrefixGlobs};
use crate::file_set::{Combination, FileSet, SetStack, SetWord, walk_set};
use crate::forms::{Field, LineValues, Shape, parse_line};
use crate::lines::{Reading, push_line, take_lines};
use crate::walk_command::WalkForm::{Combine, Mark, Push};
use jj_filter::failure::Failure;
use jj_globs::glob::GlobError;
use jj_matchers::matchers::PathGlobPattern;
use jj_paths::repo_path::{InvalidNewRepoPathError, RepoPath};
use std::alloc::{AllocError, Global};

// The marks and the stack of sets after the lines so far.
#[derive(Drop)]
pub(crate) struct WalkReading<'t> {
    marks: Vec<RepoPath<'t>>,
    sets: SetStack,
    // The paths and globs of the last line.
    values: LineValues<RepoPath<'t>, PathGlobPattern>,
}

impl<'t> Field<'t> for RepoPath<'t> {
    ghost Value = { Path };

    ghost value = { path_of };

    ghost kind = { path_kind };

    fn parse(alloc: Global, text: &'t str) -> Result<RepoPath<'t>, Failure<LineFault>> {
        match RepoPath::from_internal_string(alloc, text) {
            Ok(path) => Ok(path),
            Err(InvalidNewRepoPathError::Memory) => Err(Failure::Memory),
            Err(InvalidNewRepoPathError::Invalid { value: _ }) => {
                Err(Failure::Input(LineFault::BadPath))
            }
        }
    }
}

impl<'t> Field<'t> for PathGlobPattern {
    ghost Value = { GlobSpec };

    ghost value = { λ glob. glob };

    ghost kind = { glob_kind };

    fn parse(alloc: Global, text: &'t str) -> Result<PathGlobPattern, Failure<LineFault>> {
        match PathGlobPattern::parse(alloc, text) {
            Ok(glob) => Ok(glob),
            Err(error) => match error {
                GlobError::Memory => Err(Failure::Memory),
                _ => Err(Failure::Input(LineFault::BadGlob)),
            },
        }
    }
}

// The action of a line.
#[derive(Clone, Copy)]
pub(crate) enum WalkForm {
    Mark,
    Push(SetWord),
    Combine(Combination),
}

// The lines of `walk`; the first list of fields has paths, the second globs.
pub(crate) const WALK_FORMS: &[(&str, Shape, WalkForm)] = &[
    ("mark", Shape::One, Mark),
    ("everything", Shape::Empty, Push(Everything)),
    ("nothing", Shape::Empty, Push(Nothing)),
    ("files", Shape::Any, Push(Files)),
    ("prefix", Shape::Any, Push(Prefix)),
    ("globs", Shape::Pairs, Push(Globs)),
    ("prefix-globs", Shape::Pairs, Push(PrefixGlobs)),
    ("union", Shape::Empty, Combine(Union)),
    ("difference", Shape::Empty, Combine(Difference)),
    ("intersection", Shape::Empty, Combine(Intersection)),
];

impl<'t> Reading<'t> for WalkReading<'t> {
    ghost State = { WalkState };

    ghost represents = { λ reading state. (map path_of reading.marks.items ≡ state.marks)
        × AllZip AreAlike (sets_of reading.sets.ops.items) state.stack };

    ghost step = { walk_step };

    fn take(&mut self, alloc: Global, fields: &[&'t str]) -> Result<(), Failure<LineFault>> {
        let form = parse_line::<WalkForm, RepoPath<'t>, PathGlobPattern>(
            alloc,
            WALK_FORMS,
            fields,
            &mut self.values,
        )?;
        match form {
            Mark => Ok(self.marks.extend_from_slice(&self.values.firsts)?),
            Push(word) => {
                let set = FileSet::new(alloc, word, &self.values)?;
                Ok(self.sets.push(set)?)
            }
            Combine(_) if self.sets.height() < 2 => Err(Failure::Input(LineFault::EmptyStack)),
            Combine(combination) => Ok(self.sets.combine(combination)?),
        }
    }
}

// Returns the output of `walk` for an input.
pub(crate) fn walk_output<'t>(alloc: Global, text: &'t str) -> Result<Vec<u8>, Failure<Fault>>
    ensures done { IfOk result (λ output. IsWalkResult text.now (Ok output.items)) }
    ensures fault { IfErr result (λ fault. IsFaultOf fault (walk_request text.now)) }
{
    let mut reading = WalkReading {
        marks: Vec::new(alloc),
        sets: SetStack::new(alloc),
        values: LineValues::new(alloc),
    };
    take_lines(alloc, &mut reading, text)?;
    let WalkReading {
        marks,
        sets,
        values: _,
    } = reading;
    match sets.height() {
        1 => Ok(found_lines(alloc, marks, sets)?),
        height => Err(Failure::Input(Fault::Matchers(height))),
    }
}

// Walks the marks by the only set on the stack, and formats the result.
fn found_lines(
    alloc: Global,
    marks: Vec<RepoPath<'_>>,
    sets: SetStack,
) -> Result<Vec<u8>, AllocError>
    requires { length (sets_of sets.ops.items) ≡ 1 }
    ensures { IfOk result (λ output. (set : SetTree FileSet)
        → AllZip AreAlike (sets_of sets.ops.items) (set ∷ [])
        → IsWalkOutput (map path_of marks.entry.items) set output.items) }
{
    let found = walk_set(alloc, &marks, sets)?;
    let mut output = Vec::new(alloc);
    push_paths(&mut output, "file", &found.files)?;
    push_paths(&mut output, "enter", &found.entered)?;
    Ok(output)
}

// Appends a line with this name for each path.
fn push_paths(output: &mut Vec<u8>, name: &str, paths: &[RepoPath<'_>]) -> Result<(), AllocError>
    ensures { OnOk result (output.new.items
        ≡ output.old.items ++ path_lines name.now (map path_of paths.now)) }
{
    for path in paths {
        push_line(output, name, &[path.as_internal_file_string()])?;
    }
    Ok(())
}
