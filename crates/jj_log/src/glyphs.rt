//! The characters of each column in the lines of a drawing.
ghost use Rattle.std.specs.Prelude.{◌≡◌};
ghost use Rattle.jj_log.specs.Drawing.{node_cell};

use crate::layout::ColumnEnd;
use jj_walks::graph::{GraphEdge, GraphEdgeType};

// In the line of a node. A node without edges has a glyph of its own.
pub(crate) fn node_glyph(column: usize, is_root: bool, index: usize) -> &'static str
    ensures { result.now ≡ node_cell column is_root index }
{
    if index != column {
        "| "
    } else if is_root {
        "* "
    } else {
        "o "
    }
}

// In a line in which a column goes to the right of this one.
pub(crate) fn fork_glyph(column: usize, index: usize) -> &'static str {
    if index < column {
        "| "
    } else if index == column {
        "|\\"
    } else {
        " \\"
    }
}

// In the line of the types of edges, of which the first is in `column`.
pub(crate) fn edge_glyph(column: usize, edges: &[GraphEdge<usize>], index: usize) -> &'static str {
    if index < column {
        return if index == 0 { "|" } else { " |" };
    }
    let edge_type = match edges.get(index - column) {
        Some(edge) => edge.edge_type,
        None => GraphEdgeType::Direct,
    };
    match (edge_type, index == 0) {
        (GraphEdgeType::Missing, true) => "~",
        (GraphEdgeType::Missing, false) => " ~",
        (GraphEdgeType::Direct, true) => "|",
        (GraphEdgeType::Direct, false) => " |",
        (GraphEdgeType::Indirect, true) => ":",
        (GraphEdgeType::Indirect, false) => " :",
    }
}

// In a line in which a column ends.
pub(crate) fn end_glyph(end: ColumnEnd, index: usize) -> &'static str {
    let (from, to) = match end {
        ColumnEnd::Ends(from) => (from, from),
        ColumnEnd::Joins { from, to } => (from, to),
    };
    if index >= from {
        " /"
    } else if index < to {
        "| "
    } else if index < from - 1 {
        "|_"
    } else {
        "|/"
    }
}
