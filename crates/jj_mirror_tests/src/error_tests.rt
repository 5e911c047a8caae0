//! The messages of errors of replaying.
use jj_backend::backend::BackendError;
use jj_decode::error::Malformation;
use jj_mirror::error::ReplayError;
use jj_mirror::object_log::ObjectKind;
use jj_trees::memory_backend::no_parents_error;
use std::test::Fail;

#[test]
fn messages(rt: HostRuntime) -> Result<(), Fail> {
    let alloc = rt.alloc();
    let malformed = ReplayError::Malformed {
        kind: ObjectKind::Tree,
        id: Vec::new(alloc),
        reason: Malformation::UnknownTag,
        offset: 17,
    };
    let wrong = ReplayError::WrongObject {
        kind: ObjectKind::File,
        id: Vec::new(alloc),
    };
    for (error, expected) in [
        (ReplayError::Memory, "out of memory"),
        (malformed, "a logged object is malformed at 17: unknown tag"),
        (wrong, "a logged object is not the one that its id names"),
        (ReplayError::Backend(BackendError::Memory), "out of memory"),
        (
            ReplayError::from(no_parents_error(alloc)),
            "a commit needs a parent",
        ),
    ] {
        assert_eq!(rt; error.to_string(alloc)?.as_str(), expected);
    }
    Ok(())
}
