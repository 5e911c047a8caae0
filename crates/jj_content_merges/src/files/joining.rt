//! Merged hunks with adjacent resolved ones joined.
ghost use Rattle.std.specs.Prelude.{◌≡◌, ℕ, ◌<◌, ◌++◌, ◌∷◌, [], List, length, map, IfOk, OnOk, All};
ghost use Rattle.jj_diff.specs.Inputs.{bytes_of};
ghost use Rattle.jj_merges.specs.Merge.{IsOdd};
ghost use Rattle.jj_content_merges.specs.Hunks.{contents, merge_contents, joined, joined_after, resolved_hunk};
ghost use Rattle.jj_content_merges.specs.Files.{terms_of};

use super::hunks::MergeHunk;
use jj_merges::merge::Merge;
use smallvec::SmallVec;
use std::alloc::{AllocError, Global};
use std::mem;

#[derive(Drop)]
struct HunkJoiner {
    hunks: Vec<Merge<Vec<u8>>>,
    resolved: Vec<u8>,
}

#[tactic(auto, using(crate::proofs::Joining::terms_steps))]
fn copy_terms(alloc: Global, row: &[&[u8]]) -> Result<Vec<Vec<u8>>, AllocError>
    ensures terms { IfOk result (λ terms. merge_contents terms.items ≡ bytes_of row.now) }
    ensures count { IfOk result (λ terms. length terms.items ≡ length row.now) }
{
    let mut terms = Vec::with_capacity(alloc, row.len())?;
    for text in row {
        terms.push(Vec::from_slice(alloc, text)?)?;
    }
    Ok(terms)
}

// Appends a resolved hunk, unless it is empty.
#[tactic(auto, using(crate::proofs::Joining::hunk_steps))]
fn push_resolved(
    alloc: Global,
    hunks: &mut Vec<Merge<Vec<u8>>>,
    text: Vec<u8>,
) -> Result<(), AllocError>
    ensures { OnOk result (contents hunks.new.items
        ≡ contents hunks.old.items ++ resolved_hunk text.items) }
{
    if text.is_empty() {
        return Ok(());
    }
    hunks.push(Merge::resolved(alloc, text))?;
    Ok(())
}

impl HunkJoiner {
    #[tactic(auto, using(crate::proofs::Joining::row_steps))]
    fn push_row(&mut self, alloc: Global, row: &[&[u8]]) -> Result<(), AllocError>
        requires { IsOdd (length row.now) }
        ensures { OnOk result ((rest : List (List (List ℕ)))
            → contents self.new.hunks.items ++ joined_after self.new.resolved.items rest
            ≡ contents self.old.hunks.items
            ++ joined_after self.old.resolved.items (bytes_of row.now ∷ rest)) }
    {
        if row.len() == 1 {
            return self.resolved.extend_from_slice(row[0]);
        }
        let text = mem::replace(&mut self.resolved, Vec::new(alloc));
        push_resolved(alloc, &mut self.hunks, text)?;
        let terms = copy_terms(alloc, row)?;
        self.hunks.push(Merge::from_vec(SmallVec::from_vec(terms)))?;
        Ok(())
    }

    fn push(&mut self, alloc: Global, hunk: &MergeHunk<'_>) -> Result<(), AllocError>
        requires { IsOdd (length (terms_of hunk.now)) }
        ensures { OnOk result ((rest : List (List (List ℕ)))
            → contents self.new.hunks.items ++ joined_after self.new.resolved.items rest
            ≡ contents self.old.hunks.items
            ++ joined_after self.old.resolved.items (terms_of hunk.now ∷ rest)) }
    {
        match hunk {
            MergeHunk::Resolved(text) => self.resolved.extend_from_slice(text),
            MergeHunk::Merged(text) => self.resolved.extend_from_slice(text),
            MergeHunk::Conflict(row) => self.push_row(alloc, row),
        }
    }

    fn finish(self, alloc: Global) -> Result<Vec<Merge<Vec<u8>>>, AllocError>
        ensures { IfOk result (λ hunks. contents hunks.items
            ≡ contents self.hunks.items ++ resolved_hunk self.resolved.items) }
    {
        let HunkJoiner { hunks, resolved } = self;
        let mut all = hunks;
        push_resolved(alloc, &mut all, resolved)?;
        Ok(all)
    }
}

/// Joins adjacent resolved hunks, and drops empty ones.
#[tactic(auto, using(crate::proofs::Parts::loop_steps))]
pub fn join_hunks(alloc: Global, hunks: &[MergeHunk<'_>]) -> Result<Vec<Merge<Vec<u8>>>, AllocError>
    requires { All (λ hunk. IsOdd (length (terms_of hunk))) hunks.now }
    ensures { IfOk result (λ merged. contents merged.items ≡ joined (map terms_of hunks.now)) }
{
    let mut joiner = HunkJoiner {
        hunks: Vec::new(alloc),
        resolved: Vec::new(alloc),
    };
    for hunk in hunks {
        joiner.push(alloc, hunk)?;
    }
    joiner.finish(alloc)
}
