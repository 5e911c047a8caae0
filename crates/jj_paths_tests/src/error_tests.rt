//! Tests of error conversion by `?`, and of the message of an allocation failure.
use crate::fixtures::is_text;
use jj_content_tests::retry::{Passed, passes};
use jj_paths::repo_path::{InvalidNewRepoPathError, RepoPathBuf};
use std::alloc::{AllocError, Global};
use std::process::Abort;
use std::test::Fail;

// Allocates twice, so that both allocation failures are converted.
fn boxed_path(alloc: Global, text: &str) -> Result<Box<RepoPathBuf>, InvalidNewRepoPathError> {
    let path = RepoPathBuf::from_internal_string(String::from_str(alloc, text)?)?;
    Ok(Box::new(alloc, path)?)
}

fn boxes_a_path<R: Abort>(rt: &R, alloc: Global) -> Passed {
    match boxed_path(alloc, "a/b") {
        Ok(path) => {
            is_text(rt, path.as_path().as_internal_file_string(), "a/b");
            Ok(())
        }
        Err(InvalidNewRepoPathError::Memory) => Err(AllocError),
        Err(error) => panic!(rt; "{error}"),
    }
}

#[test]
fn paths_in_boxes(rt: HostRuntime) -> Result<(), Fail> {
    passes(&rt, boxes_a_path)
}

fn says_memory<R: Abort>(rt: &R, alloc: Global) -> Passed {
    let message = InvalidNewRepoPathError::Memory.to_string(alloc)?;
    is_text(rt, message.as_str(), "out of memory");
    Ok(())
}

#[test]
fn allocation_failure_message(rt: HostRuntime) -> Result<(), Fail> {
    passes(&rt, says_memory)
}
