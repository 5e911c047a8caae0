//! Walks over strings, whose clones are equal but different values.
use crate::outcomes::found;
use jj_content_tests::retry::passes;
use jj_walks::dag_walk::{WalkError, heads, topo_order_forward};
use std::alloc::{AllocError, Global};
use std::collections::HashSet;
use std::iter;
use std::process::Abort;
use std::test::Fail;

fn strings(alloc: Global, words: &[&str]) -> Result<Vec<String>, AllocError> {
    let mut strings = Vec::new(alloc);
    for word in words {
        strings.push(String::from_str(alloc, *word)?)?;
    }
    Ok(strings)
}

// The heads of strings without neighbors, with their lengths as ids.
fn heads_of_strings(alloc: Global, words: &[&str]) -> Result<HashSet<String>, AllocError> {
    let strings = strings(alloc, words)?;
    heads(
        alloc,
        strings,
        |string: &String| Ok(string.len()),
        |_string: &String| iter::empty::<String>(),
    )
}

// An order of strings that all have the empty string as their id.
fn order_by_one_id(alloc: Global, words: &[&str]) -> Result<Vec<String>, WalkError<String>> {
    let strings = strings(alloc, words)?;
    topo_order_forward(
        alloc,
        strings,
        |_string: &String| Ok(String::new(alloc)),
        |_string: &String| iter::empty::<String>(),
        |string: String| string,
    )
}

#[test]
fn strings_are_nodes_and_ids(rt: HostRuntime) -> Result<(), Fail> {
    passes(&rt, |rt, alloc| {
        let heads = heads_of_strings(alloc, &["a", "bb", "a"])?;
        assert_eq!(rt; heads.len(), 2);
        assert!(rt; heads.contains("a") && heads.contains("bb"));
        let order = found(rt, order_by_one_id(alloc, &["a", "b"]))?;
        assert_eq!(rt; order.len(), 1);
        assert!(rt; order[0].as_str() == "b");
        Ok(())
    })
}
