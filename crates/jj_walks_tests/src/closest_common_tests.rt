//! The closest common nodes of two sets, in graphs whose calls are counted.
use crate::outcomes::found;
use jj_content_tests::retry::passes;
use jj_walks::dag_walk::WalkError;
use jj_walks::dag_walk_async::closest_common_nodes;
use std::alloc::{AllocError, Global};
use std::cell::Cell;
use std::ops::Range;
use std::process::Abort;
use std::test::Fail;

// The node at which a chain forks.
const BASE: u64 = 100_000;

// A chain from `BASE` down to 0, and above it two chains, of the odd and of the even numbers.
fn beside(node: u64) -> Range<u64> {
    if node == 0 {
        0..0
    } else if node <= BASE + 1 {
        node - 1..node
    } else {
        node - 2..node - 1
    }
}

// The closest common nodes of two nodes of these chains, and the number of calls of `neighbors_fn`.
fn counted_chain(
    alloc: Global,
    first: u64,
    second: u64,
) -> Result<(Vec<u64>, usize), WalkError<u64>> {
    let calls = Cell::new(0usize);
    let nodes = closest_common_nodes(
        alloc,
        first..first.saturating_add(1),
        second..second.saturating_add(1),
        |node: &u64| Ok(*node),
        |node: &u64| -> Result<Range<u64>, u64> {
            calls.set(calls.get().saturating_add(1));
            Ok(beside(*node))
        },
    )?;
    Ok((nodes, calls.get()))
}

// 40 squares, one below the other, where lower nodes have greater numbers.
fn squares(node: u64) -> Range<u64> {
    if node >= 120 {
        0..0
    } else if node % 3 == 0 {
        node + 1..node + 3
    } else if node % 3 == 1 {
        node + 2..node + 3
    } else {
        node + 1..node + 2
    }
}

fn counted_squares(alloc: Global) -> Result<(Vec<u64>, usize), WalkError<u64>> {
    let calls = Cell::new(0usize);
    let nodes = closest_common_nodes(
        alloc,
        0..1,
        1..3,
        |node: &u64| Ok(*node),
        |node: &u64| -> Result<Range<u64>, u64> {
            calls.set(calls.get().saturating_add(1));
            Ok(squares(*node))
        },
    )?;
    Ok((nodes, calls.get()))
}

#[test]
fn closest_ask_for_few_lists(rt: HostRuntime) -> Result<(), Fail> {
    passes(&rt, |rt, alloc| {
        let (nodes, calls) = found(rt, counted_chain(alloc, BASE + 19, BASE + 20))?;
        assert_eq!(rt; nodes.as_slice(), [BASE].as_slice());
        assert!(rt;
            calls <= 40,
            "{calls} lists for two heads ten nodes above their base"
        );
        let (mut nodes, calls) = found(rt, counted_squares(alloc))?;
        nodes.sort()?;
        assert_eq!(rt; nodes.as_slice(), [1, 2].as_slice());
        assert!(rt; calls <= 242, "{calls} lists for 121 nodes");
        Ok(())
    })
}
