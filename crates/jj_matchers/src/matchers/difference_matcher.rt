//! The matcher of the difference of two sets.
ghost use Rattle.std.specs.Prelude.{◌≡◌, ◌&&◌, not};
ghost use Rattle.jj_matchers.specs.Combined.{difference_spec};
ghost use Rattle.jj_matchers.specs.SortedVisits.{sorted_visit_spec};

use crate::matchers::{Matcher, SortedNames, SortedVisit};
use jj_paths::repo_path::RepoPath;
use std::alloc::{AllocError, Global};

/// The paths that are in `wanted` and not in `unwanted`.
#[derive(Clone, Debug, Drop)]
pub struct DifferenceMatcher<M1, M2> {
    wanted: M1,
    unwanted: M2,
}

impl<M1: Matcher, M2: Matcher> DifferenceMatcher<M1, M2> {
    /// Returns the difference of two sets.
    pub fn new(wanted: M1, unwanted: M2) -> Self
        ensures first { result.wanted ≡ wanted }
        ensures second { result.unwanted ≡ unwanted }
    {
        DifferenceMatcher { wanted, unwanted }
    }
}

impl<M1: Matcher, M2: Matcher> Matcher for DifferenceMatcher<M1, M2> {
    ghost accepts = { λ m path. M1.accepts m.wanted path && not (M2.accepts m.unwanted path) };

    ghost opens = { λ m path. M1.opens m.wanted path };

    ghost visits = { λ m dir. difference_spec (M1.visits m.wanted dir)
        (M2.visits m.unwanted dir) };

    ghost mentioned = { λ m dir. M1.mentioned m.wanted dir };

    fn matches(&self, file: RepoPath<'_>) -> bool {
        self.wanted.matches(file) && !self.unwanted.matches(file)
    }

    fn visit_sorted(
        &self,
        alloc: Global,
        dir: RepoPath<'_>,
    ) -> Result<SortedVisit<'_>, AllocError> {
        let unwanted = self.unwanted.visit_sorted(alloc, dir)?;
        if matches!(unwanted, SortedVisit::AllRecursively) {
            return Ok(SortedVisit::Nothing);
        }
        let wanted = self.wanted.visit_sorted(alloc, dir)?;
        Ok(difference_visit(wanted, unwanted))
    }
}

/// Returns `wanted` minus `unwanted`. A `Specific` unwanted visit may cover only part of the paths
/// below the names that it mentions, so it removes no names; it only turns `AllRecursively` into
/// all children.
pub fn difference_visit<'a>(wanted: SortedVisit<'a>, unwanted: SortedVisit<'a>) -> SortedVisit<'a>
    // The visit is the difference of both: `AllRecursively` removes all names, other visits none.
    ensures { sorted_visit_spec result
        ≡ difference_spec (sorted_visit_spec wanted.entry) (sorted_visit_spec unwanted.entry) }
{
    match unwanted {
        SortedVisit::AllRecursively => SortedVisit::Nothing,
        SortedVisit::Nothing => wanted,
        SortedVisit::Specific { .. } => match wanted {
            SortedVisit::AllRecursively => SortedVisit::Specific {
                dirs: SortedNames::All,
                files: SortedNames::All,
            },
            SortedVisit::Specific { dirs, files } => SortedVisit::Specific { dirs, files },
            SortedVisit::Nothing => SortedVisit::Nothing,
        },
    }
}
