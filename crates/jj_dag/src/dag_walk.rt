//! Walks that run to the end. Two closures define the graph: `id_fn` returns the id of a node, and
//! `neighbors_fn` its neighbors.
pub use crate::maximal::{heads, heads_in, heads_ok};
pub use crate::topo_order::{
    topo_order_forward, topo_order_forward_in, topo_order_forward_ok, topo_order_reverse,
    topo_order_reverse_ok,
};
pub use crate::walk_error::WalkError;
