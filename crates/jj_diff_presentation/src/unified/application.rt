//! Applications of unified diffs whose errors quote the line of the patch.
ghost use Rattle.std.specs.Prelude.{◌≡◌, ◌-◌, ◌<◌, IfOk, drop, length, string_bytes};
ghost use Rattle.std.specs.Option.{option_map};
ghost use Rattle.jj_diff_presentation.specs.Lines.{split_lines};
ghost use Rattle.jj_diff_presentation.specs.Applying.{applied, first_excerpt, without_newline, Gives, IsFaultIn, QuotesLine};

use super::patch::{PatchError, PatchFault, apply_patch};
use crate::lines::{is_terminated, split_first_line};
use jj_excerpts::excerpt;
use std::alloc::{AllocError, Global};
use std::error::Error;
use std::fmt;

/// Why a patch was not applied.
#[derive(Debug, Drop)]
pub enum ApplyError {
    Memory(AllocError),
    /// The first fault, and an excerpt of its line, unless the patch ends before it.
    Fault(PatchFault, Option<String>),
}

impl fmt::Display for ApplyError {
    fn fmt<W: fmt::Write>(&self, f: &mut fmt::Formatter<W>) -> fmt::Result {
        match self {
            ApplyError::Memory(_) => f.write_str("out of memory"),
            ApplyError::Fault(fault, found) => {
                let found = match found {
                    Some(line) => line.as_str(),
                    None => "the end",
                };
                write!(f, "{fault}, found {found}")
            }
        }
    }
}

impl Error for ApplyError {}

fn without_newline(line: &[u8]) -> &[u8]
    requires { 0 < length line.now }
    ensures { result.now ≡ without_newline line.now }
{
    if is_terminated(line) {
        return &line[..line.len() - 1];
    }
    line
}

// Returns an excerpt of the line after `skipped` lines, if there is one.
#[tactic(auto, using(crate::proofs::Excerpts::excerpt_steps))]
fn quote_line(alloc: Global, patch: &[u8], skipped: usize) -> Result<Option<String>, AllocError>
    ensures { IfOk result (λ found. option_map string_bytes found
        ≡ first_excerpt (drop skipped (split_lines patch.now))) }
{
    let mut rest = patch;
    for _ in 0..skipped {
        if rest.is_empty() {
            return Ok(None);
        }
        let (_line, after) = split_first_line(rest);
        rest = after;
    }
    if rest.is_empty() {
        return Ok(None);
    }
    let (line, _after) = split_first_line(rest);
    let found = excerpt(alloc, without_newline(line))?;
    Ok(Some(found))
}

fn fault_in(alloc: Global, patch: &[u8], fault: PatchFault) -> ApplyError
    ensures { IsFaultIn (split_lines patch.now) fault result }
{
    match quote_line(alloc, patch, fault.line.saturating_sub(1)) {
        Ok(found) => ApplyError::Fault(fault, found),
        Err(error) => ApplyError::Memory(error),
    }
}

/// Applies a unified diff of one file, as Git and GNU diff write it, to the file's content, at the
/// line numbers that it states. Lines before `--- ` are skipped, names are not looked at, and an
/// empty patch changes nothing. Linear.
pub fn apply(alloc: Global, left: &[u8], patch: &[u8]) -> Result<Vec<u8>, ApplyError>
    // The result is the right version, or the first fault of the patch.
    ensures result { Gives result (applied left.now patch.now) }
    // The error for a fault quotes the line of the patch, unless the patch ends before it.
    ensures found { QuotesLine (split_lines patch.now) result }
{
    match apply_patch(alloc, left, patch) {
        Ok(bytes) => Ok(bytes),
        Err(PatchError::Memory(error)) => Err(ApplyError::Memory(error)),
        Err(PatchError::Fault(fault)) => Err(fault_in(alloc, patch, fault)),
    }
}
