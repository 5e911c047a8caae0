//! Questions of a batch: lines with a command that reads, its words separated by tabs.
use crate::arguments::{Command, UsageError, command_of};
use crate::commands::{head_list, list_bases, list_heads, name_lines, output_with};
use crate::error::CommandError;
use crate::revisions::{commit_of, commits_of, values};
use itoa::Buffer;
use jj_backend::backend::Backend;
use jj_commit_graph::CommitGraph;
use jj_excerpts::excerpt;
use jj_history::names::CommitNames;
use jj_ids::object_id::CommitId;
use std::alloc::{AllocError, AllocFailed, Global};
use std::collections::BTreeMap;
use std::str;
use thiserror::Error;

/// Why a question fails. `quoted` is in double quotes and escaped.
#[derive(Debug, Drop, Error)]
pub enum QuestionError {
    #[error("out of memory")]
    Memory,
    #[error("{quoted}: expected UTF-8")]
    NotText { quoted: String },
    #[error("unknown question {quoted}; expected one of log, heads, refs, bases, show, files, cat, diff, check, and its operands after TABs")]
    Unknown { quoted: String },
    #[error("{0}")]
    Usage(UsageError),
    #[error("{0}")]
    Command(CommandError),
}

impl From<AllocError> for QuestionError {
    fn from(_error: AllocError) -> Self {
        QuestionError::Memory
    }
}

impl<T: Drop> From<AllocFailed<T>> for QuestionError {
    fn from(_error: AllocFailed<T>) -> Self {
        QuestionError::Memory
    }
}

impl From<UsageError> for QuestionError {
    fn from(error: UsageError) -> Self {
        match error {
            UsageError::Memory => QuestionError::Memory,
            error => QuestionError::Usage(error),
        }
    }
}

impl From<CommandError> for QuestionError {
    fn from(error: CommandError) -> Self {
        match error {
            CommandError::Memory => QuestionError::Memory,
            error => QuestionError::Command(error),
        }
    }
}

fn not_text(alloc: Global, line: &[u8]) -> QuestionError {
    match excerpt(alloc, line) {
        Ok(quoted) => QuestionError::NotText { quoted },
        Err(_) => QuestionError::Memory,
    }
}

fn unknown(alloc: Global, name: &String) -> QuestionError {
    match excerpt(alloc, name.as_bytes()) {
        Ok(quoted) => QuestionError::Unknown { quoted },
        Err(_) => QuestionError::Memory,
    }
}

fn words_of(alloc: Global, line: &str) -> Result<Vec<String>, AllocError> {
    let mut words = Vec::new(alloc);
    for word in line.split('\t') {
        words.push(String::from_str(alloc, word)?)?;
    }
    Ok(words)
}

// Returns the command of a question, which reads.
fn command_in(alloc: Global, line: &[u8]) -> Result<Command, QuestionError> {
    let Ok(line) = str::from_utf8(line) else {
        return Err(not_text(alloc, line));
    };
    let words = words_of(alloc, line)?;
    let Some((name, operands)) = words.split_first() else {
        return Err(QuestionError::Memory);
    };
    if matches!(name.as_str(), "import" | "merge" | "batch") {
        return Err(unknown(alloc, name));
    }
    match command_of(alloc, name, operands)? {
        Some(command) => Ok(command),
        None => Err(unknown(alloc, name)),
    }
}

/// The names of commits, and their graph since the first question that needed it.
#[derive(Drop)]
pub struct KnownCommits {
    names: CommitNames,
    graph: Option<CommitGraph>,
}

impl KnownCommits {
    /// Returns the names of commits by these refs and ids of Git.
    pub fn new(
        alloc: Global,
        refs: &BTreeMap<String, CommitId>,
        git_ids: &BTreeMap<String, CommitId>,
    ) -> Result<Self, AllocError> {
        let names = CommitNames::new(alloc, refs, git_ids)?;
        Ok(KnownCommits { names, graph: None })
    }

    // Returns the graph of all commits that refs and ids of Git reach, which is read once.
    fn take_graph<B: Backend>(
        &mut self,
        alloc: Global,
        store: &B,
        refs: &BTreeMap<String, CommitId>,
        git_ids: &BTreeMap<String, CommitId>,
    ) -> Result<CommitGraph, CommandError> {
        if let Some(graph) = self.graph.take() {
            return Ok(graph);
        }
        let mut starts = values(alloc, refs)?;
        let mut others = values(alloc, git_ids)?;
        starts.append(&mut others)?;
        Ok(CommitGraph::read(alloc, store, &starts)?)
    }

    // Lists the merge bases of a commit and a merge of the others, as `list_bases` does.
    fn list_bases<B: Backend>(
        &mut self,
        alloc: Global,
        store: &B,
        refs: &BTreeMap<String, CommitId>,
        git_ids: &BTreeMap<String, CommitId>,
        first: &str,
        others: &[String],
    ) -> Result<String, CommandError> {
        let one = [commit_of(alloc, store, refs, git_ids, first)?];
        let more = commits_of(alloc, store, refs, git_ids, others)?;
        let mut graph = self.take_graph(alloc, store, refs, git_ids)?;
        let found = graph.merge_bases(alloc, &one, &more);
        self.graph = Some(graph);
        match found? {
            Some(bases) => Ok(name_lines(alloc, &self.names, &bases)?),
            None => list_bases(alloc, store, refs, git_ids, &self.names, first, others),
        }
    }

    // Lists the heads of the refs, as `list_heads` does.
    fn list_heads<B: Backend>(
        &mut self,
        alloc: Global,
        store: &B,
        refs: &BTreeMap<String, CommitId>,
        git_ids: &BTreeMap<String, CommitId>,
    ) -> Result<String, CommandError> {
        let tips = values(alloc, refs)?;
        let mut graph = self.take_graph(alloc, store, refs, git_ids)?;
        let found = graph.heads(alloc, &tips);
        self.graph = Some(graph);
        match found? {
            Some(heads) => Ok(head_list(alloc, &self.names, &heads)?),
            None => list_heads(alloc, store, refs, &self.names),
        }
    }
}

/// Returns the output of the command in a line, without its line feed. Fails with `NotText` if the
/// line is not UTF-8, with `Unknown` if its first word is no command that reads, with `Usage` if it
/// lacks operands or has too many, and as `output_with` does. The first question of `bases` or
/// `heads` reads all commits.
pub fn ask<B: Backend>(
    alloc: Global,
    store: &B,
    refs: &BTreeMap<String, CommitId>,
    git_ids: &BTreeMap<String, CommitId>,
    known: &mut KnownCommits,
    line: &[u8],
) -> Result<Vec<u8>, QuestionError> {
    let command = command_in(alloc, line)?;
    let output = match &command {
        Command::Bases { first, others } => known
            .list_bases(alloc, store, refs, git_ids, first.as_str(), others)?
            .into_bytes(),
        Command::Heads => known.list_heads(alloc, store, refs, git_ids)?.into_bytes(),
        command => output_with(alloc, store, refs, git_ids, &known.names, command)?,
    };
    Ok(output)
}

// Appends a line with the status and the number of bytes, the bytes, and a line feed.
fn push_answer(answers: &mut Vec<u8>, status: &[u8], bytes: &[u8]) -> Result<(), AllocError> {
    let mut digits = Buffer::new();
    answers.extend_from_slice(status)?;
    answers.extend_from_slice(b" ")?;
    answers.extend_from_slice(digits.format(bytes.len()).as_bytes())?;
    answers.extend_from_slice(b"\n")?;
    answers.extend_from_slice(bytes)?;
    answers.extend_from_slice(b"\n")
}

/// Returns the output of a question, or its error, as bytes to write: a line with `ok` or `error`
/// and the number of bytes that follow, then these and a line feed.
pub fn answer(alloc: Global, asked: Result<Vec<u8>, QuestionError>) -> Result<Vec<u8>, AllocError> {
    let mut answers = Vec::new(alloc);
    match asked {
        Ok(output) => push_answer(&mut answers, b"ok", &output)?,
        Err(error) => {
            let message = format!(in alloc; "{error}")?;
            push_answer(&mut answers, b"error", message.as_bytes())?;
        }
    }
    Ok(answers)
}
