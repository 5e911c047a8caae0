//! Test helpers that retry once after an allocation failure.
use std::alloc::{AllocError, Global};
use std::fmt::Debug;
use std::test::Fail;

/// The result of a part of a test, which fails only if memory runs out.
pub type Passed = Result<(), AllocError>;

/// Returns whether `claim` returns true. Retries once after an error.
pub fn holds<R, E, F>(rt: &R, claim: F) -> bool
where
    R: AllocGlobal,
    E: Drop,
    F: Fn(Global) -> Result<bool, E>,
    requires { F.IsAlwaysCallable claim }
{
    let alloc = rt.alloc();
    claim(alloc).or_else(|_| claim(alloc)).unwrap_or(false)
}

/// Runs a test. Retries once after an allocation failure.
pub fn passes<R, F>(rt: &R, test: F) -> Result<(), Fail>
where
    R: AllocGlobal,
    F: Fn(&R, Global) -> Passed,
    requires { F.IsAlwaysCallable test }
{
    succeeds(rt, test)
}

/// Runs a test with its own error type. Retries once after an error.
pub fn succeeds<R, E, F>(rt: &R, test: F) -> Result<(), Fail>
where
    R: AllocGlobal,
    E: Debug + Drop,
    F: Fn(&R, Global) -> Result<(), E>,
    requires { F.IsAlwaysCallable test }
{
    let alloc = rt.alloc();
    test(rt, alloc).or_else(|_| test(rt, alloc))?;
    Ok(())
}
