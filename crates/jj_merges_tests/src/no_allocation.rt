//! Calls that do not allocate: each allocation of these tests may fail.
use jj_merges::merge::{Merge, SameChange, trivial_merge};
use std::process::Abort;

// A resolved merge is stored inline.
#[test]
fn resolved_takes_no_memory(rt: HostRuntime) {
    let alloc = rt.alloc();
    let mut one = Merge::resolved(alloc, 7u32);
    assert!(rt; one.is_resolved());
    assert_eq!(rt; one.as_resolved().copied(), Some(7));
    for term in one.iter_mut() {
        *term = 8;
    }
    let image = one.map(alloc, |x| *x == 8);
    assert!(rt; image.is_ok_and(|m| m.into_resolved().is_ok_and(|x| x)));
    let same = one.simplify(alloc);
    assert!(rt; same.is_ok_and(|m| m.as_slice() == [8].as_slice()));
    assert!(rt; one.into_resolved().is_ok_and(|x| x == 8));
    assert!(rt; Merge::<Option<u32>>::absent(alloc).is_absent());
    let normal = Merge::normal(alloc, 5u32);
    assert!(rt; normal.is_present());
    assert_eq!(rt; normal.as_normal().copied(), Some(5));
}

fn assert_outcome<R: Abort>(rt: &R, terms: &[u32], change: SameChange, wanted: Option<u32>) {
    assert!(rt; terms.len() % 2 == 1);
    assert_eq!(rt;
        trivial_merge(terms, change).copied(),
        wanted,
        "{terms:?} with {change:?}"
    );
}

#[test]
fn outcomes_take_no_memory(rt: HostRuntime) {
    assert_outcome(&rt, &[5, 6, 5, 6, 5], SameChange::Accept, Some(5));
    assert_outcome(&rt, &[5, 6, 5, 6, 5], SameChange::Keep, None);
    assert_outcome(&rt, &[1, 1, 2, 2, 3], SameChange::Keep, Some(3));
    assert_outcome(&rt, &[1, 2, 3, 1, 2], SameChange::Accept, Some(3));
    assert_outcome(&rt, &[0, 1, 0], SameChange::Accept, Some(0));
    assert_outcome(&rt, &[0, 1, 0], SameChange::Keep, None);
}

// Adds of one number in turn with removes of another; the last remove is `last`.
fn long<const N: usize>(add: u32, remove: u32, last: u32) -> [u32; N] {
    let mut terms = [add; N];
    for index in 0..N {
        if index % 2 == 1 {
            terms[index] = remove;
        }
    }
    if N > 1 {
        terms[N - 2] = last;
    }
    terms
}

#[test]
fn long_merges(rt: HostRuntime) {
    let terms: [u32; 2001] = long(5, 6, 6);
    assert_outcome(&rt, &terms, SameChange::Accept, Some(5));
    assert_outcome(&rt, &terms, SameChange::Keep, None);
    let terms: [u32; 2001] = long(5, 6, 7);
    assert_outcome(&rt, &terms, SameChange::Accept, None);
    assert_outcome(&rt, &terms, SameChange::Keep, None);
    let terms: [u32; 2001] = [7; 2001];
    assert_outcome(&rt, &terms, SameChange::Accept, Some(7));
    assert_outcome(&rt, &terms, SameChange::Keep, Some(7));
    let terms = doubled();
    assert_outcome(&rt, &terms, SameChange::Accept, Some(1000));
    assert_outcome(&rt, &terms, SameChange::Keep, Some(1000));
}

// The numbers 0, 1, 2, .., each twice, and 1000 once.
fn doubled() -> [u32; 2001] {
    let mut terms = [0u32; 2001];
    let mut number = 0u32;
    for index in 0..2001usize {
        terms[index] = number;
        if index % 2 == 1 {
            number = number.wrapping_add(1);
        }
    }
    terms
}
