//! Simplification of a merge of strings in O(n log n): the removes of each distinct value form a
//! linked list, whose head is the first remove that an equal add cancels with.
ghost use Rattle.std.specs.Prelude.{◌≡◌, ◌+◌, ◌*◌, ◌^◌, ◌<◌, ℕ, List, All, IfOk, length, map};
ghost use Rattle.std.specs.List.{range_with_len};
ghost use Rattle.jj_merges.specs.Merge.{IsOdd};
ghost use Rattle.jj_merges.specs.Simplify.{at_indices, simplified_indices};
ghost use Rattle.jj_program.specs.Lines.{Text};
ghost use Rattle.jj_program.specs.MergeViews.{text_eq};
ghost use Rattle.jj_program.specs.MergeSimplify.{AreNextsFrom, AreHeadsFrom, is_left, indices_left};
ghost use Rattle.jj_program.specs.TermClasses.{AreClassesOf};

use crate::term_classes::classes_of;
use std::alloc::{AllocError, Global};

// Returns the terms of the simplified merge. Positions of adds count from 0, and a remove has
// that of the add after it.
pub(crate) fn simplified_terms<'t>(
    alloc: Global,
    terms: &[&'t str],
) -> Result<Vec<&'t str>, AllocError>
    requires { IsOdd (length terms.now) }
    ensures { IfOk result (λ left. left.items
        ≡ at_indices terms.now (simplified_indices text_eq terms.now)) }
{
    let classes = classes_of(alloc, terms)?;
    let (nexts, mut heads) = link_removes(alloc, &classes)?;
    let mut adds = adds_of(alloc, terms.len() / 2 + 1)?;
    cancel_terms(&classes, &nexts, &mut heads, &mut adds);
    terms_left(alloc, terms, &classes, &heads, &adds)
}

// Links the removes of each class in ascending order. Returns the next one after each remove, and
// the first one of each class; if there is none, the number of terms.
fn link_removes(alloc: Global, classes: &[usize]) -> Result<(Vec<usize>, Vec<usize>), AllocError>
    requires { All (λ class. class < length classes.now) classes.now }
    ensures lengths { IfOk result (λ links. (length links.0.items ≡ length classes.now)
        × (length links.1.items ≡ length classes.now)) }
    ensures nexts { IfOk result (λ links. AreNextsFrom 0 classes.now links.0.items) }
    ensures heads { IfOk result (λ links. AreHeadsFrom 0 classes.now links.1.items) }
{
    let mut nexts = vec![in alloc; classes.len(); classes.len()]?;
    let mut heads = vec![in alloc; classes.len(); classes.len()]?;
    let mut index = classes.len();
    while index > 0 {
        index -= 1;
        if index % 2 == 1 {
            let class = classes[index];
            nexts[index] = heads[class];
            heads[class] = index;
        }
    }
    Ok((nexts, heads))
}

// Returns the even numbers below `2 * count`.
fn adds_of(alloc: Global, count: usize) -> Result<Vec<usize>, AllocError>
    requires { count < 2 ^ 62 }
    ensures { IfOk result (λ adds. adds.items ≡ map (λ p. 2 * p) (range_with_len 0 count)) }
{
    let mut adds = Vec::with_capacity(alloc, count)?;
    for position in 0..count {
        adds.push(2 * position)?;
    }
    Ok(adds)
}

// Whether this position is left. Positions are dropped with their removes, and the removes of a
// class in ascending order.
fn is_left(classes: &[usize], heads: &[usize], position: usize) -> bool
    requires classes { All (λ class. class < length classes.now) classes.now }
    requires heads { length heads.now ≡ length classes.now }
    requires position { 2 * position < length classes.now + 1 }
    ensures { result ≡ is_left classes.now heads.now position }
{
    position == 0 || heads[classes[2 * position - 1]] <= 2 * position - 1
}

// Cancels each add in turn with the first equal remove that is left. The position of the remove is
// dropped, and the add there moves to the position of the one that was cancelled.
fn cancel_terms(classes: &[usize], nexts: &[usize], heads: &mut [usize], adds: &mut [usize])
    requires classes { All (λ class. class < length classes.now) classes.now }
    requires positions { 2 * length adds.old ≡ length classes.now + 1 }
    requires adds { adds.old ≡ map (λ p. 2 * p) (range_with_len 0 (length adds.old)) }
    requires lengths { (length nexts.now ≡ length classes.now)
        × (length heads.old ≡ length classes.now) }
    requires nexts { AreNextsFrom 0 classes.now nexts.now }
    requires heads { AreHeadsFrom 0 classes.now heads.old }
    ensures adds { All (λ add. add < length classes.now) adds.new }
    ensures left { (terms : List Text) → AreClassesOf terms classes.now
        → indices_left classes.now heads.new adds.new ≡ simplified_indices text_eq terms }
{
    let mut current = 0;
    while current < adds.len() {
        if !is_left(classes, heads, current) {
            current += 1;
            continue;
        }
        let class = classes[adds[current]];
        let remove = heads[class];
        if remove == classes.len() {
            current += 1;
            continue;
        }
        let dropped = remove / 2 + 1;
        heads[class] = nexts[remove];
        adds[current] = adds[dropped];
        if dropped <= current {
            current += 1;
        }
    }
}

// Lists the terms at the positions that are left.
fn terms_left<'t>(
    alloc: Global,
    terms: &[&'t str],
    classes: &[usize],
    heads: &[usize],
    adds: &[usize],
) -> Result<Vec<&'t str>, AllocError>
    requires classes { All (λ class. class < length classes.now) classes.now }
    requires heads { length heads.now ≡ length classes.now }
    requires terms { length terms.now ≡ length classes.now }
    requires positions { 2 * length adds.now ≡ length classes.now + 1 }
    requires adds { All (λ add. add < length classes.now) adds.now }
    ensures { IfOk result (λ left. left.items
        ≡ at_indices terms.now (indices_left classes.now heads.now adds.now)) }
{
    let mut left = Vec::new(alloc);
    left.push(terms[adds[0]])?;
    for position in 1..adds.len() {
        if is_left(classes, heads, position) {
            left.push(terms[2 * position - 1])?;
            left.push(terms[adds[position]])?;
        }
    }
    Ok(left)
}
