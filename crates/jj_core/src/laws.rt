//! Laws of the libraries that this crate re-exports: empty functions whose contracts state
//! properties of definitions, for use in proofs.
pub use jj_globs::laws::{parsed_globs_are_spelled, spelled_globs_are_parsed, spelling_is_unique};
pub use jj_ids::object_id::sum_laws;
pub use jj_ids::ref_name::remote_symbol_display_is_injective;
pub use jj_matchers::laws::{acceptance_laws, walks_find_accepted_marks};
pub use jj_merges::laws::{simplified_indices_laws, three_way_laws};
pub use jj_paths::laws::{ancestor_laws, last_name_laws, node_list_laws, path_string_laws};
pub use jj_trees::laws::merged_path_laws;
pub use jj_walks::laws::{
    closest_common_nodes_are_maximal, dfs_ok_yields_preorder, dfs_yields_preorder,
    grouped_graphs_yield_grouped_orders, heads_are_maximal, heads_ok_are_maximal,
    plain_heads_are_maximal, topo_order_forward_is_topological,
    topo_order_forward_ok_is_topological, topo_order_reverse_chunked_is_next,
    topo_order_reverse_is_topological, topo_order_reverse_lazy_yields_order,
    topo_order_reverse_ok_is_topological, topo_order_reverse_ord_is_greatest,
};
