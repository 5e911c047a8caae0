//! Chunks that end with an error leave no start.
use crate::outcomes::failed_with;
use jj_content_tests::retry::passes;
use jj_walks::dag_walk::WalkError;
use jj_walks::dag_walk_async::topo_order_reverse_chunked;
use smallvec::SmallVec;
use std::alloc::{AllocError, Global};
use std::process::Abort;
use std::test::Fail;

// Each letter with its items: neighbors, or errors.
type Table<'a> = &'a [(char, &'a [Result<char, char>])];

// Each is its own neighbor.
const ROUND: Table<'static> = &[('a', &[Ok('a')]), ('x', &[Ok('x')])];

// B to A and to a failed item, C to B.
const BROKEN: Table<'static> = &[('B', &[Ok('A'), Err('X')]), ('C', &[Ok('B')])];

fn items<'a>(table: Table<'a>, node: char) -> &'a [Result<char, char>] {
    for (letter, list) in table {
        if *letter == node {
            return list;
        }
    }
    &[]
}

fn next_chunk(
    alloc: Global,
    table: Table<'_>,
    start: &mut Vec<char>,
) -> Result<SmallVec<char, 1>, WalkError<char>> {
    topo_order_reverse_chunked(
        alloc,
        start,
        |node: &char| Ok(*node),
        |node: &char| items(table, *node).iter().copied(),
        |node: char| node,
    )
}

#[test]
fn failed_chunks_leave_no_start(rt: HostRuntime) -> Result<(), Fail> {
    passes(&rt, |rt, alloc| {
        let cases: &[(Table<'static>, &[char], &[char])] = &[
            (ROUND, &['x', 'a'], &['a', 'x']),
            (ROUND, &['A', 'a'], &['a']),
            (BROKEN, &['B'], &['X']),
            (BROKEN, &['C', 'A'], &['X']),
        ];
        for (table, starts, errors) in cases {
            let mut start = starts.to_vec(alloc)?;
            let error = failed_with(rt, next_chunk(alloc, *table, &mut start))?;
            assert!(rt; errors.contains(&error), "the error {error}");
            assert!(rt; start.is_empty());
        }
        Ok(())
    })
}
