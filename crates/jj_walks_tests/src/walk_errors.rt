//! Errors of walks, as they print and compare.
use jj_walks::dag_walk::WalkError;
use jj_walks::graph::GroupedGraphError;
use std::alloc::{AllocError, Global};
use std::error::Error;
use std::process::Abort;
use std::test::Fail;

fn printed<E: Error>(alloc: Global, error: &E) -> Result<String, AllocError> {
    format!(in alloc; "{error}")
}

fn prints<R: Abort, E: Error>(rt: &R, alloc: Global, row: (&E, &str)) -> Result<(), AllocError> {
    let (error, expected) = row;
    let text = printed(alloc, error).or_else(|_| printed(alloc, error))?;
    assert_eq!(rt; text.as_str(), expected);
    Ok(())
}

#[test]
fn errors_print_and_compare(rt: HostRuntime) -> Result<(), Fail> {
    let alloc = rt.alloc();
    prints(&rt, alloc, (&WalkError::<u32>::Memory, "out of memory"))?;
    prints(&rt, alloc, (&WalkError::Node(7u32), "7"))?;
    assert!(rt; WalkError::Node(7) == WalkError::Node(7u32));
    assert!(rt; WalkError::Node(7) != WalkError::Node(8u32));
    assert!(rt; WalkError::Memory != WalkError::Node(7u32));
    Ok(())
}

#[test]
fn grouped_errors_print_and_compare(rt: HostRuntime) -> Result<(), Fail> {
    let alloc = rt.alloc();
    let texts = [
        (GroupedGraphError::Input(7u32), "7"),
        (
            GroupedGraphError::DuplicateId,
            "the input has two nodes with the same id",
        ),
        (
            GroupedGraphError::MissingNode,
            "a referenced node is missing from the input",
        ),
        (
            GroupedGraphError::NotChildFirst,
            "the input is not in topological order",
        ),
        (GroupedGraphError::Memory, "out of memory"),
    ];
    for (error, expected) in &texts {
        prints(&rt, alloc, (error, *expected))?;
        assert!(rt; *error == *error);
        assert!(rt; *error != GroupedGraphError::Input(8));
    }
    assert!(rt; GroupedGraphError::Input(7u32) == GroupedGraphError::Input(7));
    assert!(rt; GroupedGraphError::<u32>::MissingNode != GroupedGraphError::NotChildFirst);
    Ok(())
}
