//! Walks over items that may fail, under the names of the asynchronous walks. They are not
//! asynchronous.
pub use crate::closest_common::{NodeState, closest_common_nodes, closest_common_nodes_in};
pub use crate::greatest_order::{topo_order_reverse_ord, topo_order_reverse_ord_in};
pub use crate::maximal_lists::heads;
pub use crate::topo_order::{
    topo_order_forward_ok as topo_order_forward, topo_order_reverse_ok as topo_order_reverse,
};
pub use crate::walk_error::WalkError;
