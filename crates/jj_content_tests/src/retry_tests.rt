//! Tests of the helpers that retry.
use crate::retry::{holds, passes};
use std::alloc::{AllocError, Global};
use std::cell::Cell;
use std::process::Abort;
use std::test::Fail;

fn refused<T>(_alloc: Global) -> Result<T, AllocError> {
    Err(AllocError)
}

#[test]
fn claims_must_hold(rt: HostRuntime) {
    assert!(rt; holds(&rt, |_| Ok::<bool, AllocError>(true)));
    assert!(rt; !holds(&rt, |_| Ok::<bool, AllocError>(false)));
    assert!(rt; !holds(&rt, refused));
}

// Fails on the first call, and returns true from the second on.
fn second(tried: &Cell<bool>) -> Result<bool, AllocError> {
    if tried.replace(true) {
        Ok(true)
    } else {
        Err(AllocError)
    }
}

#[test]
fn failed_allocations_are_retried(rt: HostRuntime) -> Result<(), Fail> {
    let tried = Cell::new(false);
    assert!(rt; holds(&rt, |_| second(&tried)));
    let tried = Cell::new(false);
    passes(&rt, |_, _| second(&tried).map(|_| ()))?;
    assert!(rt; tried.get());
    Ok(())
}
