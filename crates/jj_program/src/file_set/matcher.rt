//! The matchers of a set that a line pushes and of a combined set, which is evaluated over its
//! code.
ghost use Rattle.std.specs.Prelude.{◌≡◌, List, [], ◌∷◌, false, length, map, reverse, IfOk};
ghost use Rattle.std.specs.List.{AllZip, zip};
ghost use Rattle.jj_paths.specs.Names.{path_of};
ghost use Rattle.jj_paths.specs.Paths.{Path};
ghost use Rattle.jj_matchers.specs.Patterns.{HasSamePatterns};
ghost use Rattle.jj_matchers.specs.SortedVisits.{sorted_visit_spec};
ghost use Rattle.jj_matchers.specs.MarkWalk.{WalksMarks};
ghost use Rattle.jj_program.specs.declared.file_set.CodeStep.{CodeStep};
ghost use Rattle.jj_program.specs.WalkCommand.{SetTree, both, leaf_spec, named_set, spec_of};
ghost use Rattle.jj_program.specs.SetCode.{AreAlike, IsAlike, made_by, pass_over, visits_at, sets_of};

use crate::file_set::{CodeStep, Combination, SetStack, SetWord, compile, evaluate};
use crate::forms::LineValues;
use jj_matchers::matchers::{
    EverythingMatcher, FilesMatcher, GlobsMatcher, Matcher, NothingMatcher, PathGlobPattern,
    PrefixMatcher, SortedVisit, Walk, difference_visit, intersection_visit, union_visit,
    walk_marks,
};
use jj_paths::repo_path::RepoPath;
use std::alloc::{AllocError, Global};

// A set of files described by one line, as its matcher.
#[derive(Drop)]
pub(crate) enum FileSet {
    Everything,
    Nothing,
    Files(FilesMatcher),
    Prefix(PrefixMatcher),
    Globs(GlobsMatcher),
}

impl Matcher for FileSet {
    ghost use Rattle.jj_program.specs.WalkCommand.{leaf_spec};

    ghost accepts = { λ set. (leaf_spec set).accepts };

    ghost opens = { λ set. (leaf_spec set).opens };

    ghost visits = { λ set. (leaf_spec set).visits };

    ghost mentioned = { λ set dir. (leaf_spec set).names };

    fn matches(&self, file: RepoPath<'_>) -> bool {
        match self {
            FileSet::Everything => EverythingMatcher.matches(file),
            FileSet::Nothing => NothingMatcher.matches(file),
            FileSet::Files(matcher) => matcher.matches(file),
            FileSet::Prefix(matcher) => matcher.matches(file),
            FileSet::Globs(matcher) => matcher.matches(file),
        }
    }

    fn visit_sorted(
        &self,
        alloc: Global,
        dir: RepoPath<'_>,
    ) -> Result<SortedVisit<'_>, AllocError> {
        match self {
            FileSet::Everything => EverythingMatcher.visit_sorted(alloc, dir),
            FileSet::Nothing => NothingMatcher.visit_sorted(alloc, dir),
            FileSet::Files(matcher) => matcher.visit_sorted(alloc, dir),
            FileSet::Prefix(matcher) => matcher.visit_sorted(alloc, dir),
            FileSet::Globs(matcher) => matcher.visit_sorted(alloc, dir),
        }
    }
}

impl FileSet {
    // Builds the matcher of the set that a line with these values pushes; each glob is relative to
    // the path with its index.
    pub(crate) fn new(
        alloc: Global,
        word: SetWord,
        values: &LineValues<RepoPath<'_>, PathGlobPattern>,
    ) -> Result<FileSet, AllocError>
        ensures { IfOk result (λ set. IsAlike (leaf_spec set) (leaf_spec
            (named_set word (map path_of values.now.firsts.items) values.now.seconds.items))) }
    {
        match word {
            SetWord::Everything => Ok(FileSet::Everything),
            SetWord::Nothing => Ok(FileSet::Nothing),
            SetWord::Files => Ok(FileSet::Files(FilesMatcher::new(alloc, &values.firsts)?)),
            SetWord::Prefix => Ok(FileSet::Prefix(PrefixMatcher::new(alloc, &values.firsts)?)),
            SetWord::Globs => Ok(FileSet::Globs(globs_matcher(alloc, false, values)?)),
            SetWord::PrefixGlobs => Ok(FileSet::Globs(globs_matcher(alloc, true, values)?)),
        }
    }
}

// Builds the matcher of globs, each below its path.
fn globs_matcher(
    alloc: Global,
    prefix_paths: bool,
    values: &LineValues<RepoPath<'_>, PathGlobPattern>,
) -> Result<GlobsMatcher, AllocError>
    ensures { IfOk result (λ matcher. HasSamePatterns matcher (record {
      prefix_paths = prefix_paths;
      patterns = zip (map path_of values.now.firsts.items)
          values.now.seconds.items;
    })) }
{
    let mut builder = GlobsMatcher::builder(alloc).prefix_paths(prefix_paths);
    for (dir, glob) in values.firsts.iter().zip(&values.seconds) {
        builder.add(*dir, glob)?;
    }
    builder.build()
}

// A combined set. No operation recurses, however deep the combinations nest.
#[derive(Drop)]
pub(crate) struct SetMatcher {
    code: Vec<CodeStep>,
    // One pass over the code decides membership.
    ghost decided: { (path : Path) → (pass_over path code.items (0, false)).1
        ≡ (spec_of (made_by code.items)).accepts path },
}

impl Matcher for SetMatcher {
    ghost use Rattle.jj_program.specs.SetCode.{made_by};
    ghost use Rattle.jj_program.specs.WalkCommand.{spec_of};

    ghost accepts = { λ matcher. (spec_of (made_by matcher.code.items)).accepts };

    ghost opens = { λ matcher. (spec_of (made_by matcher.code.items)).opens };

    ghost visits = { λ matcher. (spec_of (made_by matcher.code.items)).visits };

    ghost mentioned = { λ matcher dir. (spec_of (made_by matcher.code.items)).names };

    fn matches(&self, file: RepoPath<'_>) -> bool {
        evaluate(&self.code, file)
    }

    fn visit_sorted(
        &self,
        alloc: Global,
        dir: RepoPath<'_>,
    ) -> Result<SortedVisit<'_>, AllocError> {
        visit_by(alloc, &self.code, dir)
    }
}

// The visit of a directory, on a stack of the visits of operands.
fn visit_by<'a>(
    alloc: Global,
    code: &'a [CodeStep],
    dir: RepoPath<'_>,
) -> Result<SortedVisit<'a>, AllocError>
    ensures { IfOk result (λ visit. sorted_visit_spec visit
        ≡ (spec_of (made_by code.now)).visits (path_of dir.entry)) }
{
    let mut visits = Vec::new(alloc);
    let mut left = code.len();
    while left > 0 {
        left -= 1;
        visit_step(alloc, &mut visits, &code[left], dir)?;
    }
    match visits.pop() {
        Some(visit) => Ok(visit),
        None => Ok(SortedVisit::Nothing),
    }
}

fn visit_step<'a>(
    alloc: Global,
    visits: &mut Vec<SortedVisit<'a>>,
    step: &'a CodeStep,
    dir: RepoPath<'_>,
) -> Result<(), AllocError>
    ensures { IfOk result (λ done. (earlier : List CodeStep)
        → map sorted_visit_spec (reverse visits.old.items)
        ≡ visits_at (path_of dir.entry) earlier
        → map sorted_visit_spec (reverse visits.new.items)
        ≡ visits_at (path_of dir.entry) (step.now ∷ earlier)) }
{
    match step {
        CodeStep::Test(set) => {
            let visit = set.visit_sorted(alloc, dir)?;
            visits.push(visit)?;
            Ok(())
        }
        CodeStep::ShortCircuit(_) => Ok(()),
        CodeStep::Combine(combination) => combine_top(alloc, visits, *combination),
    }
}

// Replaces the top two visits by their combination.
fn combine_top(
    alloc: Global,
    visits: &mut Vec<SortedVisit<'_>>,
    combination: Combination,
) -> Result<(), AllocError>
    ensures { IfOk result (λ done. (dir : Path) (earlier : List CodeStep)
        → map sorted_visit_spec (reverse visits.old.items) ≡ visits_at dir earlier
        → map sorted_visit_spec (reverse visits.new.items)
        ≡ visits_at dir (CodeStep.Combine combination ∷ earlier)) }
{
    if let Some(second) = visits.pop() {
        if let Some(first) = visits.pop() {
            visits.push(combined_visit(alloc, combination, first, second)?)?;
        }
    }
    Ok(())
}

fn combined_visit<'a>(
    alloc: Global,
    combination: Combination,
    first: SortedVisit<'a>,
    second: SortedVisit<'a>,
) -> Result<SortedVisit<'a>, AllocError>
    ensures { IfOk result (λ visit. (dir : Path) (one two : SetTree FileSet)
        → sorted_visit_spec first.entry ≡ (spec_of one).visits dir
        → sorted_visit_spec second.entry ≡ (spec_of two).visits dir
        → sorted_visit_spec visit ≡ (spec_of (both combination one two)).visits dir) }
{
    match combination {
        Combination::Union => union_visit(first, second),
        Combination::Difference => Ok(difference_visit(first, second)),
        Combination::Intersection => intersection_visit(alloc, first, second),
    }
}

impl SetMatcher {
    // Compiles the only set of a stack.
    fn new(alloc: Global, sets: SetStack) -> Result<SetMatcher, AllocError>
        requires { length (sets_of sets.ops.items) ≡ 1 }
        ensures { IfOk result (λ matcher. sets_of sets.ops.items
            ≡ made_by matcher.code.items ∷ []) }
    {
        let code = compile(alloc, sets.into_ops())?;
        Ok(SetMatcher { code })
    }
}

// Walks marks by the only set of a stack.
pub(crate) fn walk_set<'t>(
    alloc: Global,
    marks: &[RepoPath<'t>],
    sets: SetStack,
) -> Result<Walk<RepoPath<'t>>, AllocError>
    requires { length (sets_of sets.ops.items) ≡ 1 }
    ensures { IfOk result (λ walk. (set : SetTree FileSet)
        → AllZip AreAlike (sets_of sets.ops.items) (set ∷ [])
        → WalksMarks (spec_of set).accepts (spec_of set).visits (map path_of marks.now)
        (map path_of walk.files.items) (map path_of walk.entered.items)) }
{
    let matcher = SetMatcher::new(alloc, sets)?;
    walk_marks(alloc, marks, &matcher)
}
