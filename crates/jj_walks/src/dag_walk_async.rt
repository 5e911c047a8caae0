//! Walks over items that may fail, under the names of the asynchronous walks. They are not
//! asynchronous.
pub use crate::depth_first::{DepthFirstOk, dfs_ok as dfs};
pub use crate::topo_order_chunked::topo_order_reverse_chunked;
pub use crate::topo_order_lazy::{TopoOrderReverseLazy, topo_order_reverse_lazy};
pub use jj_dag::dag_walk_async::{
    WalkError, closest_common_nodes, heads, topo_order_forward, topo_order_reverse,
    topo_order_reverse_ord,
};
