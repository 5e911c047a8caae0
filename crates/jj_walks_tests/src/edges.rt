//! Edges of graphs.
use jj_walks::graph::{GraphEdge, GraphEdgeType};
use std::test::Fail;

#[test]
fn edges_return_their_type(rt: HostRuntime) -> Result<(), Fail> {
    let edges = [
        GraphEdge::missing('A'),
        GraphEdge::direct('A'),
        GraphEdge::indirect('A'),
    ];
    let types = [
        GraphEdgeType::Missing,
        GraphEdgeType::Direct,
        GraphEdgeType::Indirect,
    ];
    for (edge, edge_type) in edges.iter().zip(types.iter()) {
        assert_eq!(rt; edge.target, 'A');
        assert_eq!(rt; edge.is_missing(), *edge_type == GraphEdgeType::Missing);
        assert_eq!(rt; edge.is_direct(), *edge_type == GraphEdgeType::Direct);
        assert_eq!(rt; edge.is_indirect(), *edge_type == GraphEdgeType::Indirect);
    }
    let moved = GraphEdge::indirect('A').map(|target: char| target as u32);
    assert_eq!(rt; moved.target, 65);
    assert!(rt; moved.is_indirect());
    Ok(())
}
