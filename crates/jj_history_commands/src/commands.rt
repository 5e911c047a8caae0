//! The commands that read a history.
ghost use Rattle.std.specs.Prelude.{◌++◌, ℕ, List, OnOk};
ghost use Rattle.std.specs.BTreeMap.{values};
ghost use Rattle.jj_store_walks.specs.Histories.{IsHistoryOrder};
ghost use Rattle.jj_store_walks.specs.declared.read_commit.ReadCommit.{ReadCommit as ReadCommitValue};
ghost use Rattle.jj_history_commands.specs.FoundObjects.{AreWhole, HasTrees};

use crate::arguments::Command;
use crate::changes::compare_commits;
use crate::checks::{ObjectCounts, check_history};
use crate::contents::{list_files, read_file};
use crate::error::CommandError;
use crate::filesets::parse_files;
use crate::logs::draw_commits;
use crate::revisions::{commit_of, commits_of, values};
use jj_backend::backend::Backend;
use jj_history::ancestry::{bases, heads};
use jj_history::describing::describe_commit;
use jj_history::names::CommitNames;
use jj_ids::object_id::CommitId;
use std::alloc::{AllocError, Global};
use std::collections::BTreeMap;

// The most columns of a log.
const COLUMNS: usize = 2000;

fn push_line(output: &mut String, words: &[&str]) -> Result<(), AllocError> {
    for word in words {
        output.push_str(word)?;
    }
    output.push('\n')
}

// Returns the commits of revisions, and those of all refs if there are no revisions.
fn starts_of<B: Backend>(
    alloc: Global,
    store: &B,
    refs: &BTreeMap<String, CommitId>,
    git_ids: &BTreeMap<String, CommitId>,
    revisions: &[String],
) -> Result<Vec<CommitId>, CommandError> {
    if !revisions.is_empty() {
        return commits_of(alloc, store, refs, git_ids, revisions);
    }
    if refs.is_empty() {
        return Err(CommandError::Empty);
    }
    let starts = values(alloc, refs)?;
    Ok(starts)
}

/// Draws the commits of revisions, or of all refs, and their ancestors; with a file set those of
/// them that change such files. Fails with `Empty` if there are neither, and as `commit_of`,
/// `parse_files` and `draw_commits` do.
pub fn draw_log<B: Backend>(
    alloc: Global,
    store: &B,
    refs: &BTreeMap<String, CommitId>,
    git_ids: &BTreeMap<String, CommitId>,
    names: &CommitNames,
    revisions: &[String],
    files: Option<&String>,
) -> Result<String, CommandError> {
    let files = parse_files(alloc, files)?;
    let starts = starts_of(alloc, store, refs, git_ids, revisions)?;
    draw_commits(alloc, store, names, &starts, files.as_ref(), COLUMNS)
}

// Returns a line with a commit and its refs.
fn head_line(alloc: Global, names: &CommitNames, id: &CommitId) -> Result<String, AllocError> {
    let mut line = names.name(alloc, id)?;
    push_line(&mut line, &[" ", names.refs(id)])?;
    Ok(line)
}

// Returns a line for each commit, with its refs, in order of their names.
pub(crate) fn head_list(
    alloc: Global,
    names: &CommitNames,
    ids: &[CommitId],
) -> Result<String, AllocError> {
    let mut lines = Vec::new(alloc);
    for id in ids {
        let line = head_line(alloc, names, id)?;
        lines.push(line)?;
    }
    lines.sort()?;
    concatenate(alloc, &lines)
}

fn concatenate(alloc: Global, lines: &[String]) -> Result<String, AllocError> {
    let mut output = String::new(alloc);
    for line in lines {
        output.push_str(line.as_str())?;
    }
    Ok(output)
}

/// Lists the commits of refs that are no ancestors of others, each with its refs, in order of their
/// ids. Fails with `Store` and `Memory`.
pub fn list_heads<B: Backend>(
    alloc: Global,
    store: &B,
    refs: &BTreeMap<String, CommitId>,
    names: &CommitNames,
) -> Result<String, CommandError> {
    let tips = values(alloc, refs)?;
    let ids = heads(alloc, store, tips)?;
    let output = head_list(alloc, names, &ids)?;
    Ok(output)
}

/// Lists the refs in ascending order, each after its commit.
pub fn list_refs(
    alloc: Global,
    refs: &BTreeMap<String, CommitId>,
    names: &CommitNames,
) -> Result<String, AllocError> {
    let mut output = String::new(alloc);
    for (name, id) in refs {
        let commit = names.name(alloc, id)?;
        push_line(&mut output, &[commit.as_str(), " ", name.as_str()])?;
    }
    Ok(output)
}

// Returns a line for each commit.
pub(crate) fn name_lines(
    alloc: Global,
    names: &CommitNames,
    ids: &[CommitId],
) -> Result<String, AllocError> {
    let mut output = String::new(alloc);
    for id in ids {
        let name = names.name(alloc, id)?;
        push_line(&mut output, &[name.as_str()])?;
    }
    Ok(output)
}

// Returns the ids of the merge bases of a commit and a merge of the others.
fn find_bases<B: Backend>(
    alloc: Global,
    store: &B,
    refs: &BTreeMap<String, CommitId>,
    git_ids: &BTreeMap<String, CommitId>,
    first: &str,
    others: &[String],
) -> Result<Vec<CommitId>, CommandError> {
    let first = commit_of(alloc, store, refs, git_ids, first)?;
    let others = commits_of(alloc, store, refs, git_ids, others)?;
    let mut ids = Vec::new(alloc);
    for base in bases(alloc, store, &first, &others)? {
        ids.push(base.id)?;
    }
    Ok(ids)
}

/// Lists the merge bases of a commit and a merge of the others, a line for each. Fails as
/// `commit_of` does.
pub fn list_bases<B: Backend>(
    alloc: Global,
    store: &B,
    refs: &BTreeMap<String, CommitId>,
    git_ids: &BTreeMap<String, CommitId>,
    names: &CommitNames,
    first: &str,
    others: &[String],
) -> Result<String, CommandError> {
    let found = find_bases(alloc, store, refs, git_ids, first, others)?;
    let output = name_lines(alloc, names, &found)?;
    Ok(output)
}

/// Describes the commit that a revision names. Fails as `commit_of` does.
pub fn show_commit<B: Backend>(
    alloc: Global,
    store: &B,
    refs: &BTreeMap<String, CommitId>,
    git_ids: &BTreeMap<String, CommitId>,
    names: &CommitNames,
    revision: &str,
) -> Result<String, CommandError> {
    let id = commit_of(alloc, store, refs, git_ids, revision)?;
    let commit = store.read_commit(alloc, &id)?;
    let output = describe_commit(alloc, names, &id, &commit)?;
    Ok(output)
}

/// Reads all objects that the refs and the commits of Git's ids reach, as `check_history` does.
pub fn check_all<B: Backend>(
    alloc: Global,
    store: &B,
    refs: &BTreeMap<String, CommitId>,
    git_ids: &BTreeMap<String, CommitId>,
) -> Result<String, CommandError>
    // The store has the commits that the refs and Git's ids name, their ancestors, the trees of
    // these with all subtrees, and all files and symbolic links that these name.
    ensures { OnOk result ((commits : List ReadCommitValue) × (trees : List (List ℕ))
        × IsHistoryOrder (B.objects store.now) (values refs.now ++ values git_ids.now) commits
        × HasTrees trees commits × AreWhole (B.objects store.now) trees) }
{
    let mut starts = values(alloc, refs)?;
    let mut others = values(alloc, git_ids)?;
    starts.append(&mut others)?;
    let counts = check_history(alloc, store, &starts)?;
    let line = count_line(alloc, &counts)?;
    Ok(line)
}

fn count_line(alloc: Global, counts: &ObjectCounts) -> Result<String, AllocError> {
    let commits = counts.commits;
    let trees = counts.trees;
    let files = counts.files;
    format!(in alloc; "{commits} commits, {trees} trees and {files} files are there\n")
}

// Returns whether the output of a command has names of commits.
fn prints_names(command: &Command) -> bool {
    match command {
        Command::Log { .. }
        | Command::Heads
        | Command::Refs
        | Command::Bases { .. }
        | Command::Show(_) => true,
        _ => false,
    }
}

// Returns the output of a command that prints lines.
fn printed<B: Backend>(
    alloc: Global,
    store: &B,
    refs: &BTreeMap<String, CommitId>,
    git_ids: &BTreeMap<String, CommitId>,
    names: &CommitNames,
    command: &Command,
) -> Result<String, CommandError> {
    match command {
        Command::Log { revisions, files } => {
            draw_log(
                alloc,
                store,
                refs,
                git_ids,
                names,
                revisions,
                files.as_ref(),
            )
        }
        Command::Heads => list_heads(alloc, store, refs, names),
        Command::Refs => match list_refs(alloc, refs, names) {
            Ok(output) => Ok(output),
            Err(_) => Err(CommandError::Memory),
        },
        Command::Bases { first, others } => {
            list_bases(alloc, store, refs, git_ids, names, first.as_str(), others)
        }
        Command::Show(revision) => {
            show_commit(alloc, store, refs, git_ids, names, revision.as_str())
        }
        Command::Files { revision, files } => {
            let files = files.as_ref();
            list_files(alloc, store, refs, git_ids, revision.as_str(), files)
        }
        Command::Check => check_all(alloc, store, refs, git_ids),
        _ => Ok(String::new(alloc)),
    }
}

/// Returns the output of a command that reads, with these names of the commits; that of `Import`,
/// `Merge` and `Batch` is empty. Fails as the function of the command does.
pub fn output_with<B: Backend>(
    alloc: Global,
    store: &B,
    refs: &BTreeMap<String, CommitId>,
    git_ids: &BTreeMap<String, CommitId>,
    names: &CommitNames,
    command: &Command,
) -> Result<Vec<u8>, CommandError> {
    match command {
        Command::Cat { revision, path } => {
            let revision = revision.as_str();
            read_file(alloc, store, refs, git_ids, revision, path.as_str())
        }
        Command::Diff {
            before,
            after,
            files,
            form,
        } => compare_commits(
            alloc,
            store,
            refs,
            git_ids,
            before.as_str(),
            after.as_str(),
            files.as_ref(),
            *form,
        ),
        command => match printed(alloc, store, refs, git_ids, names, command) {
            Ok(output) => Ok(output.into_bytes()),
            Err(error) => Err(error),
        },
    }
}

/// Returns the output of one command, as `output_with` does with the names by these refs and ids of
/// Git.
pub fn output_of<B: Backend>(
    alloc: Global,
    store: &B,
    refs: &BTreeMap<String, CommitId>,
    git_ids: &BTreeMap<String, CommitId>,
    command: &Command,
) -> Result<Vec<u8>, CommandError> {
    let names = if prints_names(command) {
        CommitNames::new(alloc, refs, git_ids)?
    } else {
        CommitNames::empty(alloc)
    };
    output_with(alloc, store, refs, git_ids, &names, command)
}
