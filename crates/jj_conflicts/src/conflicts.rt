//! Conflicts of file contents, rendered with markers and parsed, in Jujutsu's diff and snapshot
//! styles and in Git's style.

mod parse;
mod render;
mod section_terms;
mod sections;
mod terms;

pub use parse::{parse_conflict, parse_hunks};
pub use render::{choose_materialized_conflict_marker_len, materialize};

/// The least length of a marker.
pub const MIN_CONFLICT_MARKER_LEN: usize = 7;

/// How a conflict is rendered.
#[derive(Copy, Clone, Debug, PartialEq, Eq, Drop)]
pub enum ConflictMarkerStyle {
    /// For each base a comparison with the side before it after `%%%%%%%`, by lines with a space
    /// (of both), `-` (of the base) or `+` (of the side), and the last side after `+++++++`.
    /// `Snapshot` if a term does not end in LF.
    Diff,
    /// A section for each term: `+++++++` before a side, `-------` before a base.
    Snapshot,
    /// Git's `diff3` style for conflicts of two sides, and `Snapshot` for others.
    Git,
}
