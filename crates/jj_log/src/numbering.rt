//! Interning of names as numbers: a commit's number is its index in the list, and names of missing
//! commits have greater numbers.
ghost use Rattle.std.specs.Prelude.{IfErr, IfOk, string_bytes};
ghost use Rattle.std.specs.List.{AllZip};
ghost use Rattle.jj_log.specs.Numbering.{AreNumbered, Interns, InternsMore, IsNumberOf, IsNumberingError, names_of};

use crate::commits::{Commit, NumberedCommit};
use crate::fault::LogError;
use std::alloc::{AllocError, Global};
use std::collections::BTreeMap;

// Numbers the names of commits by their indices.
fn number_names<'c>(
    alloc: Global,
    commits: &'c [Commit],
) -> Result<BTreeMap<&'c str, usize>, LogError>
    ensures numbers { IfOk result (Interns (names_of commits.now)) }
    ensures error { IfErr result (IsNumberingError commits.now) }
{
    let mut numbers = BTreeMap::new(alloc);
    for (index, commit) in commits.iter().enumerate() {
        if let Some(earlier) = numbers.get(&commit.name.as_str()) {
            return Err(LogError::RepeatedName(*earlier));
        }
        numbers.insert(commit.name.as_str(), index)?;
    }
    Ok(numbers)
}

// Returns the number of a name, and numbers it if it is new.
fn number_of<'c>(numbers: &mut BTreeMap<&'c str, usize>, name: &'c str) -> Result<usize, AllocError>
    ensures { IfOk result (λ n. InternsMore numbers.old numbers.new
        (λ all. IsNumberOf all name.now n)) }
{
    if let Some(number) = numbers.get(&name) {
        return Ok(*number);
    }
    let number = numbers.len();
    numbers.insert(name, number)?;
    Ok(number)
}

fn number_parents<'c>(
    alloc: Global,
    numbers: &mut BTreeMap<&'c str, usize>,
    names: &'c [String],
) -> Result<Vec<usize>, AllocError>
    ensures { IfOk result (λ parents. InternsMore numbers.old numbers.new
        (λ all. AllZip (λ parent n. IsNumberOf all (string_bytes parent) n) names.now
        parents.items)) }
{
    let mut parents = Vec::new(alloc);
    for name in names {
        parents.push(number_of(numbers, name.as_str())?)?;
    }
    Ok(parents)
}

/// Replaces names by numbers, in `O(n log n)` for n names. Fails with `RepeatedName` of an earlier
/// commit if two commits have one name, and with `Memory` if memory runs out.
pub fn number_commits(alloc: Global, commits: &[Commit]) -> Result<Vec<NumberedCommit>, LogError>
    ensures numbered { IfOk result (λ numbered. AreNumbered commits.now numbered.items) }
    ensures error { IfErr result (IsNumberingError commits.now) }
{
    let mut numbers = number_names(alloc, commits)?;
    let mut numbered = Vec::new(alloc);
    for commit in commits {
        let parents = number_parents(alloc, &mut numbers, &commit.parents)?;
        numbered.push(NumberedCommit {
            parents,
            is_elided: commit.label.is_none(),
        })?;
    }
    Ok(numbered)
}
