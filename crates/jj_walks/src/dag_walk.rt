//! Walks over a directed graph that two closures implement: the id and the neighbors of a node.
pub use crate::depth_first::{DepthFirst, DepthFirstOk, dfs, dfs_ok};
pub use crate::walk_items::collect_dfs_ok;
pub use jj_dag::dag_walk::{
    WalkError, heads, heads_ok, topo_order_forward, topo_order_forward_ok, topo_order_reverse,
    topo_order_reverse_ok,
};
