//! Layout of a graph in rows of columns. A column leads to a commit that is not drawn yet.
ghost use Rattle.std.specs.Prelude.{◌≡◌, ◌⊎◌, ◌<◌, ◌∷◌, ◌++◌, [], ℕ, List, length, map, slice_index, IfErr, IfOk, OnOk, MatchOption};
ghost use Rattle.std.specs.List.{Contains};
ghost use Rattle.jj_walks.specs.PendingNodes.{listed_item};
ghost use Rattle.jj_log.specs.Columns.{AreRows, IsRow, Settles, SettlesAll, node_of_row, opened, widest_line};
ghost use Rattle.jj_log.specs.Failures.{IsLayoutError};
ghost use Rattle.jj_log.specs.declared.fault.LogError.{LogError};

use crate::fault::LogError;
use jj_walks::graph::{GraphEdge, GraphNode};
use std::alloc::{AllocError, Global};

/// How a column ends below a node. The columns to its right move to the left.
#[derive(Clone, Copy, Debug, PartialEq, Eq)]
pub enum ColumnEnd {
    /// The column at this index leads no further.
    Ends(usize),
    /// The column `from` leads to the commit that the column `to`, to its left, leads to.
    Joins { from: usize, to: usize },
}

/// A node of the drawing: its column among the `width` of its line, and how columns end below it.
/// Its edges lead from this column and new ones to the right of it, in their order.
#[derive(Debug, Drop)]
pub struct Row {
    pub node: usize,
    pub edges: Vec<GraphEdge<usize>>,
    pub column: usize,
    pub width: usize,
    pub ends: Vec<ColumnEnd>,
}

// Returns the index of the column that leads to the target.
fn index_of(columns: &[usize], target: usize) -> Option<usize>
    ensures { MatchOption result (Contains columns.now target → ⊥)
        (λ c. (c < length columns.now) × (slice_index columns.now c ≡ target)) }
{
    for (index, other) in columns.iter().enumerate() {
        if *other == target {
            return Some(index);
        }
    }
    None
}

// Returns the index of the column that leads to the node; appends one if there is none.
fn open(columns: &mut Vec<usize>, node: usize) -> Result<usize, AllocError>
    ensures columns { OnOk result (columns.new.items ≡ opened columns.old.items node) }
    ensures column { IfOk result (λ c. (c < length columns.new.items)
        × (slice_index columns.new.items c ≡ node)) }
{
    if let Some(column) = index_of(columns, node) {
        return Ok(column);
    }
    let column = columns.len();
    columns.push(node)?;
    Ok(column)
}

// Adds the column of an edge to those right of it, unless it ends: its target is missing, or one of
// the columns left of the node leads to it. Another one that leads to it joins.
fn settle(
    left: &[usize],
    right: &mut Vec<usize>,
    edge: &GraphEdge<usize>,
    column: usize,
) -> Result<Option<ColumnEnd>, AllocError>
    ensures { OnOk result (Settles left.now edge.now right.old.items right.new.items) }
{
    if edge.is_missing() {
        return Ok(Some(ColumnEnd::Ends(column)));
    }
    if let Some(to) = index_of(left, edge.target) {
        return Ok(Some(ColumnEnd::Joins { from: column, to }));
    }
    if let Some(index) = index_of(right, edge.target) {
        let _joined = right.remove(index);
        right.insert(0, edge.target)?;
        let from = column.saturating_add(1).saturating_add(index);
        return Ok(Some(ColumnEnd::Joins { from, to: column }));
    }
    right.insert(0, edge.target)?;
    Ok(None)
}

// Adds the columns of all edges, from the last to the first, and the ends of columns.
fn settle_all(
    left: &[usize],
    right: &mut Vec<usize>,
    edges: &[GraphEdge<usize>],
    ends: &mut Vec<ColumnEnd>,
) -> Result<(), AllocError>
    ensures { OnOk result (SettlesAll left.now edges.now right.old.items right.new.items) }
{
    for offset in 0..edges.len() {
        let index = edges.len() - 1 - offset;
        let column = left.len().saturating_add(index);
        if let Some(end) = settle(left, right, &edges[index], column)? {
            ends.push(end)?;
        }
    }
    Ok(())
}

// Returns the end of the column of a node without edges.
fn first_ends(
    alloc: Global,
    edges: &[GraphEdge<usize>],
    column: usize,
) -> Result<Vec<ColumnEnd>, AllocError> {
    let mut ends = Vec::new(alloc);
    if edges.is_empty() {
        ends.push(ColumnEnd::Ends(column))?;
    }
    Ok(ends)
}

/// Replaces the column of a node by those of its edges, and returns the row of the node. Takes
/// `O(c + max_columns (e + 1))` for c columns and e edges, and `O(c)` if it fails with `TooWide`:
/// the edges of the node need more than `max_columns` columns. Fails with `Memory` if memory runs
/// out.
pub fn lay_out(
    alloc: Global,
    columns: &mut Vec<usize>,
    node: usize,
    edges: Vec<GraphEdge<usize>>,
    max_columns: usize,
) -> Result<Row, LogError>
    ensures node { IfOk result (λ row. node_of_row row ≡ (node, edges.items)) }
    ensures row { IfOk result (λ row. IsRow max_columns columns.old.items row columns.new.items) }
    ensures error { IfErr result (λ error. (error ≡ LogError.Memory)
        ⊎ ((error ≡ LogError.TooWide node)
        × (max_columns < widest_line columns.old.items (node, edges.items)))) }
{
    let column = open(columns, node)?;
    let width = columns.len();
    if width.saturating_add(edges.len().saturating_sub(1)) > max_columns {
        return Err(LogError::TooWide(node));
    }
    let mut right = Vec::from_slice(alloc, &columns[column + 1..])?;
    columns.truncate(column);
    let mut ends = first_ends(alloc, &edges, column)?;
    settle_all(columns, &mut right, &edges, &mut ends)?;
    columns.extend_from_slice(&right)?;
    Ok(Row {
        node,
        edges,
        column,
        width,
        ends,
    })
}

/// Lays out nodes in rows, in `O(max_columns (n + e))` for n nodes with e edges. Fails with
/// `TooWide` of a node that needs more than `max_columns` columns below those before it, and with
/// `Memory` if memory runs out.
pub fn rows(
    alloc: Global,
    nodes: Vec<GraphNode<usize>>,
    max_columns: usize,
) -> Result<Vec<Row>, LogError>
    ensures nodes { IfOk result (λ rows. map node_of_row rows.items
        ≡ map listed_item nodes.items) }
    ensures columns { IfOk result (λ rows. (last : List ℕ)
        × AreRows max_columns [] rows.items last) }
    ensures error { IfErr result (IsLayoutError max_columns (map listed_item nodes.items)) }
{
    let mut columns = Vec::new(alloc);
    let mut rows = Vec::new(alloc);
    for (node, edges) in nodes {
        let row = lay_out(alloc, &mut columns, node, edges, max_columns)?;
        rows.push(row)?;
    }
    Ok(rows)
}
