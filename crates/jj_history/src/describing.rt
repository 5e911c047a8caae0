//! Descriptions of commits for people.
use crate::names::CommitNames;
use jj_backend::backend::{Commit, Signature};
use jj_ids::object_id::{CommitId, ObjectId};
use std::alloc::{AllocError, Global};

fn push_line(output: &mut String, words: &[&str]) -> Result<(), AllocError> {
    for word in words {
        output.push_str(word)?;
    }
    output.push('\n')?;
    Ok(())
}

// Appends a line with a name, an address and a time, as Git has it: seconds, and hours and minutes
// east of UTC.
fn push_signature(
    alloc: Global,
    output: &mut String,
    word: &str,
    signature: &Signature,
) -> Result<(), AllocError> {
    let seconds = signature.timestamp.timestamp.0.div_euclid(1000);
    let offset = i64::from(signature.timestamp.tz_offset);
    let sign = if offset < 0 { '-' } else { '+' };
    let minutes = offset.unsigned_abs();
    let hours = minutes / 60;
    let rest = minutes % 60;
    let name = signature.name.as_str();
    let email = signature.email.as_str();
    let line = format!(in alloc; "{word}{name} <{email}> {seconds} {sign}{hours:02}{rest:02}\n")?;
    output.push_str(line.as_str())
}

// Appends the lines of a message, each after four blanks.
fn push_message(output: &mut String, message: &str) -> Result<(), AllocError> {
    for line in message.lines() {
        if line.is_empty() {
            output.push('\n')?;
        } else {
            push_line(output, &["    ", line])?;
        }
    }
    Ok(())
}

// Appends lines with the ids and the refs of a commit.
fn push_names(
    alloc: Global,
    output: &mut String,
    names: &CommitNames,
    id: &CommitId,
) -> Result<(), AllocError> {
    let digits = id.hex(alloc)?;
    push_line(output, &["commit    ", digits.as_str()])?;
    if let Some(git_id) = names.git_id(id) {
        push_line(output, &["git       ", git_id])?;
    }
    let refs = names.refs(id);
    if !refs.is_empty() {
        push_line(output, &["refs      ", refs])?;
    }
    Ok(())
}

fn push_parents(
    alloc: Global,
    output: &mut String,
    names: &CommitNames,
    parents: &[CommitId],
) -> Result<(), AllocError> {
    for parent in parents {
        let name = names.name(alloc, parent)?;
        push_line(output, &["parent    ", name.as_str()])?;
    }
    Ok(())
}

/// Describes a commit: its ids, its refs, its change, its parents, its author and committer, and
/// its message.
pub fn describe_commit(
    alloc: Global,
    names: &CommitNames,
    id: &CommitId,
    commit: &Commit,
) -> Result<String, AllocError> {
    let mut output = String::new(alloc);
    push_names(alloc, &mut output, names, id)?;
    let change = commit.change_id.reverse_hex()?;
    push_line(&mut output, &["change    ", change.as_str()])?;
    push_parents(alloc, &mut output, names, &commit.parents)?;
    push_signature(alloc, &mut output, "author    ", &commit.author)?;
    push_signature(alloc, &mut output, "committer ", &commit.committer)?;
    if !commit.description.is_empty() {
        output.push('\n')?;
    }
    push_message(&mut output, commit.description.as_str())?;
    Ok(output)
}
