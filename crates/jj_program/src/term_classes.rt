//! Classes of equal terms: sorts the terms by their first eight bytes as one number, by all bytes
//! where these are equal, and by index, and numbers each class by its first term.
ghost use Rattle.std.specs.Prelude.{◌≡◌, ◌<◌, All, IfOk, length, map};
ghost use Rattle.jj_program.specs.TermClasses.{AreClassesOf, AreEntriesOf, AreSortedEntriesOf};

use crate::text_sort::key_of;
use std::alloc::{AllocError, Global};

// Returns a number for each term: those of two terms are the same if and only if the terms are
// equal.
pub(crate) fn classes_of(alloc: Global, terms: &[&str]) -> Result<Vec<usize>, AllocError>
    ensures { IfOk result (λ classes. AreClassesOf terms.now classes.items) }
{
    let mut entries = entries_of(alloc, terms)?;
    entries.sort_unstable();
    classes_of_sorted(alloc, terms, &entries)
}

// Lists each term after its key and before its index.
fn entries_of<'t>(
    alloc: Global,
    terms: &[&'t str],
) -> Result<Vec<(u64, &'t str, usize)>, AllocError>
    ensures { IfOk result (λ entries. AreEntriesOf terms.now entries.items) }
{
    let mut entries = Vec::with_capacity(alloc, terms.len())?;
    for index in 0..terms.len() {
        let term = terms[index];
        entries.push((key_of(term.as_bytes()), term, index))?;
    }
    Ok(entries)
}

// Returns the index of the first equal term of each term, from the sorted entries.
fn classes_of_sorted(
    alloc: Global,
    terms: &[&str],
    entries: &[(u64, &str, usize)],
) -> Result<Vec<usize>, AllocError>
    requires { AreSortedEntriesOf terms.now entries.now }
    ensures { IfOk result (λ classes. AreClassesOf terms.now classes.items) }
{
    let mut classes = vec![in alloc; 0; terms.len()]?;
    let mut class = 0;
    for at in 0..entries.len() {
        let entry = entries[at];
        if at == 0 || entries[at - 1].1 != entry.1 {
            class = entry.2;
        }
        classes[entry.2] = class;
    }
    Ok(classes)
}
