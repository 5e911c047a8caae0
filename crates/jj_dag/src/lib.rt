//! Walks over directed graphs that two closures define: topological orders, heads (maximal nodes)
//! and closest common nodes.
#![tactic(auto)]

mod all_ok;
pub mod array_graph;
mod closest_common;
pub mod closures;
mod collect_ok;
pub mod dag_walk;
pub mod dag_walk_async;
pub mod dense_map;
pub mod dense_set;
mod forward;
mod frontier;
pub mod greatest_order;
pub mod list_or_error;
mod maximal;
mod maximal_lists;
pub mod node_map;
pub mod node_set;
mod number_set;
pub mod packed_lists;
mod ranked_common;
pub mod ranked_graph;
mod ranked_heads;
mod ranks;
mod topo_order;
pub mod walk_error;
