//! Rendering of rows as lines of characters.
ghost use Rattle.std.specs.Prelude.{◌≡◌, ◌++◌, ℕ, List, OnOk, string_bytes};
ghost use Rattle.jj_log.specs.Drawing.{Appends, StartsWithLine, line_of_row, node_line, styled_line_of_row};

use crate::glyphs::node_glyph;
use crate::layout::Row;
use crate::lines::{count_below, glyph_below, line_below};
use crate::style::{Style, push_glyphs};
use std::alloc::AllocError;

fn push_node_line(
    drawing: &mut String,
    style: Style,
    width: usize,
    column: usize,
    is_root: bool,
    label: &str,
) -> Result<(), AllocError>
    ensures { OnOk result (string_bytes drawing.new
        ≡ string_bytes drawing.old ++ node_line style width column is_root label.now) }
{
    for index in 0..width {
        push_glyphs(drawing, style, node_glyph(column, is_root, index))?;
    }
    drawing.push(' ')?;
    drawing.push_str(label)?;
    drawing.push('\n')?;
    Ok(())
}

// The line at an index below that of the node, if there is one.
fn push_line_below(
    drawing: &mut String,
    style: Style,
    row: &Row,
    index: usize,
) -> Result<(), AllocError>
    ensures { OnOk result (Appends (string_bytes drawing.old) (string_bytes drawing.new)) }
{
    let Some((line, width)) = line_below(row, index) else {
        return Ok(());
    };
    for column in 0..width {
        push_glyphs(drawing, style, glyph_below(row, line, column))?;
    }
    drawing.push('\n')?;
    Ok(())
}

fn push_lines_below(drawing: &mut String, style: Style, row: &Row) -> Result<(), AllocError>
    ensures { OnOk result (Appends (string_bytes drawing.old) (string_bytes drawing.new)) }
{
    for index in 0..count_below(row) {
        push_line_below(drawing, style, row, index)?;
    }
    Ok(())
}

/// Appends the lines of a row in a style: that of the node, with its label, and those of its edges.
/// Fails if memory runs out.
pub fn push_styled_row(
    drawing: &mut String,
    style: Style,
    row: &Row,
    label: &str,
) -> Result<(), AllocError>
    ensures { OnOk result (StartsWithLine (string_bytes drawing.old) (string_bytes drawing.new)
        (styled_line_of_row style row.now label.now)) }
{
    push_node_line(
        drawing,
        style,
        row.width,
        row.column,
        row.edges.is_empty(),
        label,
    )?;
    push_lines_below(drawing, style, row)
}

/// Appends the lines of a row in ASCII characters. Fails if memory runs out.
pub fn push_row(drawing: &mut String, row: &Row, label: &str) -> Result<(), AllocError>
    ensures { OnOk result (StartsWithLine (string_bytes drawing.old) (string_bytes drawing.new)
        (line_of_row row.now label.now)) }
{
    push_styled_row(drawing, Style::Ascii, row, label)
}
