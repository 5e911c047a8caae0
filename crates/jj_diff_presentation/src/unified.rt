//! Unified diffs: hunks of changed lines with context around them.

mod application;
mod git_diff;
mod header;
mod hunks;
mod names;
mod patch;
mod render;
mod script;
mod word_hunks;
mod words;

pub use application::{ApplyError, apply};
pub use git_diff::{FileMode, FileVersion, push_git_diff};
pub use hunks::{UnifiedDiffHunk, group_diff_lines, unified_diff_hunks};
pub use patch::{ExpectedInPatch, PatchFault};
pub use render::write_unified_diff;
pub use script::{DiffLine, DiffLineType, diff_lines};
pub use word_hunks::write_word_diff_hunks;
pub use words::{DiffToken, DiffTokenType, word_diff, write_word_diff};
