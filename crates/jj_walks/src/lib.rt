//! Walks over directed graphs: depth-first and topological iterators, and graphs of a log.
#![tactic(auto)]

mod candidates;
pub mod dag_walk;
pub mod dag_walk_async;
mod depth_first;
mod ended;
mod entering;
pub mod graph;
mod grouped;
pub mod laws;
mod lazy_order;
mod lists;
mod look_ahead;
mod next_item;
mod pending_nodes;
mod reversed;
mod sources;
mod topo_order_chunked;
mod topo_order_lazy;
mod walk_items;
