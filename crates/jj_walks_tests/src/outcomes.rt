//! Results of walks of which one kind is expected.
use jj_walks::dag_walk::WalkError;
use std::alloc::AllocError;
use std::process::Abort;

/// Returns the result of a walk; an error of a node is unexpected.
pub fn found<R: Abort, V: Drop, E: Drop>(
    rt: &R,
    outcome: Result<V, WalkError<E>>,
) -> Result<V, AllocError> {
    if let Err(WalkError::Node(_)) = &outcome {
        assert!(rt; false, "an error of a node");
    }
    match outcome {
        Ok(value) => Ok(value),
        Err(_error) => Err(AllocError),
    }
}

/// Returns the error of a node; any other result is unexpected.
pub fn failed_with<R: Abort, V: Drop, E: Drop>(
    rt: &R,
    outcome: Result<V, WalkError<E>>,
) -> Result<E, AllocError> {
    match outcome {
        Ok(_value) => {
            assert!(rt; false, "no error of a node");
            Err(AllocError)
        }
        Err(WalkError::Node(error)) => Ok(error),
        Err(WalkError::Memory) => Err(AllocError),
    }
}
