//! The graph of a log as adjacency lists: nodes with edges to ids.
ghost use Rattle.std.specs.Prelude.{◌≡◌, ◌↔◌, IsTrue};

pub use crate::grouped::{GroupedGraphError, GroupedNodes, TopoGroupedGraph};
pub use crate::reversed::reverse_graph;
pub use jj_dag::walk_error::WalkError;

/// A node and its edges to ids.
pub type GraphNode<N, ID = N> = (N, Vec<GraphEdge<ID>>);

/// An edge to a target: a parent, or an ancestor over nodes that are left out.
#[derive(Debug, PartialEq, Eq, Clone, Copy, Hash, Drop)]
pub struct GraphEdge<N> {
    pub target: N,
    pub edge_type: GraphEdgeType,
}

/// How an edge leads to its target.
#[derive(Debug, PartialEq, Eq, Clone, Copy, Hash)]
pub enum GraphEdgeType {
    /// The target is not in the graph.
    Missing,
    /// The target is a parent.
    Direct,
    /// The target is an ancestor, and nodes between are left out.
    Indirect,
}

impl<N> GraphEdge<N> {
    /// Creates an edge to a node that is not in the graph.
    pub fn missing(target: N) -> Self
        ensures target { result.target ≡ target }
        ensures edge_type { result.edge_type ≡ GraphEdgeType.Missing }
    {
        GraphEdge {
            target,
            edge_type: GraphEdgeType::Missing,
        }
    }

    /// Creates an edge to a parent that is in the graph.
    pub fn direct(target: N) -> Self
        ensures target { result.target ≡ target }
        ensures edge_type { result.edge_type ≡ GraphEdgeType.Direct }
    {
        GraphEdge {
            target,
            edge_type: GraphEdgeType::Direct,
        }
    }

    /// Creates an edge to an ancestor that is in the graph, over nodes that are not.
    pub fn indirect(target: N) -> Self
        ensures target { result.target ≡ target }
        ensures edge_type { result.edge_type ≡ GraphEdgeType.Indirect }
    {
        GraphEdge {
            target,
            edge_type: GraphEdgeType::Indirect,
        }
    }

    /// Returns the edge with `f` of its target, and of the same type.
    pub fn map<M, F: FnOnce(N) -> M>(self, f: F) -> GraphEdge<M>
        requires { F.pre f self.target }
        ensures target { F.post f self.target result.target }
        ensures edge_type { result.edge_type ≡ self.edge_type }
    {
        let GraphEdge { target, edge_type } = self;
        GraphEdge {
            target: f(target),
            edge_type,
        }
    }

    /// Returns whether the target is not in the graph.
    pub fn is_missing(&self) -> bool
        ensures { IsTrue result ↔ (self.now.edge_type ≡ GraphEdgeType.Missing) }
    {
        self.edge_type == GraphEdgeType::Missing
    }

    /// Returns whether the target is a parent.
    pub fn is_direct(&self) -> bool
        ensures { IsTrue result ↔ (self.now.edge_type ≡ GraphEdgeType.Direct) }
    {
        self.edge_type == GraphEdgeType::Direct
    }

    /// Returns whether the target is an ancestor over nodes that are not in the graph.
    pub fn is_indirect(&self) -> bool
        ensures { IsTrue result ↔ (self.now.edge_type ≡ GraphEdgeType.Indirect) }
    {
        self.edge_type == GraphEdgeType::Indirect
    }
}
