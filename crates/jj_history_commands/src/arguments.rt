//! The command line: a database, a command and its operands.
use jj_conflicts::conflicts::ConflictMarkerStyle;
use jj_excerpts::excerpt;
use std::alloc::{AllocError, AllocFailed, Global};
use thiserror::Error;

/// A command with its operands. `files` is a file set; without one, all files are meant.
#[derive(Drop)]
pub enum Command {
    Import,
    Log {
        revisions: Vec<String>,
        files: Option<String>,
    },
    Heads,
    Refs,
    Bases {
        first: String,
        others: Vec<String>,
    },
    Show(String),
    Files {
        revision: String,
        files: Option<String>,
    },
    Cat {
        revision: String,
        path: String,
    },
    Diff {
        before: String,
        after: String,
        files: Option<String>,
        form: DiffForm,
    },
    Merge {
        first: String,
        second: String,
        style: ConflictMarkerStyle,
    },
    Check,
    /// Answers questions, each a command that reads.
    Batch,
}

/// The output of `diff`.
#[derive(Clone, Copy, Debug, PartialEq, Eq)]
pub enum DiffForm {
    /// A patch as of `git diff`.
    Patch,
    /// A line for each path, with `A`, `D`, `M` or `T`, as of `git diff --name-status`.
    Statuses,
}

/// A command line.
#[derive(Drop)]
pub enum Request {
    Help,
    Version,
    Run { database: String, command: Command },
}

/// A wrong command line. `quoted` is a word, in double quotes and escaped.
#[derive(Debug, Drop, Error)]
pub enum UsageError {
    #[error("out of memory")]
    Memory,
    #[error("no database; expected the name of a file, and a command")]
    NoDatabase,
    #[error("no command; expected one of import, log, heads, refs, bases, show, files, cat, diff, merge, check, batch")]
    NoCommand,
    #[error("unknown option {quoted}")]
    UnknownOption { quoted: String },
    #[error("unknown command {quoted}; expected one of import, log, heads, refs, bases, show, files, cat, diff, merge, check, batch")]
    UnknownCommand { quoted: String },
    #[error("too few operands; expected `{form}`")]
    Missing { form: &'static str },
    #[error("unexpected operand {quoted}; expected `{form}`")]
    Unexpected { form: &'static str, quoted: String },
    #[error("unknown style {quoted}; expected diff, snapshot or git")]
    UnknownStyle { quoted: String },
}

impl From<AllocError> for UsageError {
    fn from(_error: AllocError) -> Self {
        UsageError::Memory
    }
}

impl<T: Drop> From<AllocFailed<T>> for UsageError {
    fn from(_error: AllocFailed<T>) -> Self {
        UsageError::Memory
    }
}

fn unexpected(alloc: Global, form: &'static str, word: &String) -> UsageError {
    match excerpt(alloc, word.as_bytes()) {
        Ok(quoted) => UsageError::Unexpected { form, quoted },
        Err(_) => UsageError::Memory,
    }
}

fn unknown_command(alloc: Global, word: &String) -> UsageError {
    match excerpt(alloc, word.as_bytes()) {
        Ok(quoted) => UsageError::UnknownCommand { quoted },
        Err(_) => UsageError::Memory,
    }
}

fn unknown_option(alloc: Global, word: &String) -> UsageError {
    match excerpt(alloc, word.as_bytes()) {
        Ok(quoted) => UsageError::UnknownOption { quoted },
        Err(_) => UsageError::Memory,
    }
}

fn unknown_style(alloc: Global, word: &String) -> UsageError {
    match excerpt(alloc, word.as_bytes()) {
        Ok(quoted) => UsageError::UnknownStyle { quoted },
        Err(_) => UsageError::Memory,
    }
}

fn is_option(word: &String) -> bool {
    word.as_bytes().starts_with(b"-")
}

// Fails if the first word is an option.
fn check_no_option(alloc: Global, operands: &[String]) -> Result<(), UsageError> {
    match operands.first() {
        Some(word) if is_option(word) => Err(unknown_option(alloc, word)),
        _ => Ok(()),
    }
}

fn copies(alloc: Global, words: &[String]) -> Result<Vec<String>, AllocError> {
    let mut copies = Vec::new(alloc);
    for word in words {
        copies.push(word.clone()?)?;
    }
    Ok(copies)
}

// Returns the file set that the operands are, or that there is none.
fn files_operand(
    alloc: Global,
    form: &'static str,
    operands: &[String],
) -> Result<Option<String>, UsageError> {
    match operands {
        [] => Ok(None),
        [word] if is_option(word) => Err(unknown_option(alloc, word)),
        [files] => Ok(Some(files.clone()?)),
        [_, word, ..] => Err(unexpected(alloc, form, word)),
    }
}

fn check_none(alloc: Global, form: &'static str, operands: &[String]) -> Result<(), UsageError> {
    match operands.first() {
        Some(word) => Err(unexpected(alloc, form, word)),
        None => Ok(()),
    }
}

fn one_operand(
    alloc: Global,
    form: &'static str,
    operands: &[String],
) -> Result<String, UsageError> {
    match operands {
        [] => Err(UsageError::Missing { form }),
        [operand] => Ok(operand.clone()?),
        [_, word, ..] => Err(unexpected(alloc, form, word)),
    }
}

fn bases_of(alloc: Global, operands: &[String]) -> Result<Command, UsageError> {
    match operands {
        [first, others @ ..] if !others.is_empty() => Ok(Command::Bases {
            first: first.clone()?,
            others: copies(alloc, others)?,
        }),
        _ => Err(UsageError::Missing {
            form: "bases A B ..",
        }),
    }
}

fn cat_of(alloc: Global, operands: &[String]) -> Result<Command, UsageError> {
    let form = "cat REV PATH";
    match operands {
        [revision, path] => Ok(Command::Cat {
            revision: revision.clone()?,
            path: path.clone()?,
        }),
        [_, _, word, ..] => Err(unexpected(alloc, form, word)),
        _ => Err(UsageError::Missing { form }),
    }
}

fn log_of(alloc: Global, operands: &[String]) -> Result<Command, UsageError> {
    let form = "log [-r REV].. [FILESET]";
    let mut revisions = Vec::new(alloc);
    let mut rest = operands;
    for _ in 0..operands.len() {
        let Some((word, after)) = rest.split_first() else {
            break;
        };
        if !matches!(word.as_str(), "-r" | "--revision") {
            break;
        }
        let Some((revision, after)) = after.split_first() else {
            return Err(UsageError::Missing { form });
        };
        revisions.push(revision.clone()?)?;
        rest = after;
    }
    check_no_option(alloc, rest)?;
    let files = files_operand(alloc, form, rest)?;
    Ok(Command::Log { revisions, files })
}

fn files_of(alloc: Global, operands: &[String]) -> Result<Command, UsageError> {
    let form = "files REV [FILESET]";
    let Some((revision, rest)) = operands.split_first() else {
        return Err(UsageError::Missing { form });
    };
    let files = files_operand(alloc, form, rest)?;
    Ok(Command::Files {
        revision: revision.clone()?,
        files,
    })
}

// Returns the form of a comparison, and the operands after the option.
fn diff_form(operands: &[String]) -> (DiffForm, &[String]) {
    match operands {
        [word, rest @ ..] if word.as_str() == "--name-status" => (DiffForm::Statuses, rest),
        _ => (DiffForm::Patch, operands),
    }
}

fn diff_of(alloc: Global, operands: &[String]) -> Result<Command, UsageError> {
    let usage = "diff [--name-status] A B [FILESET]";
    let (form, operands) = diff_form(operands);
    check_no_option(alloc, operands)?;
    let [before, after, rest @ ..] = operands else {
        return Err(UsageError::Missing { form: usage });
    };
    let files = files_operand(alloc, usage, rest)?;
    Ok(Command::Diff {
        before: before.clone()?,
        after: after.clone()?,
        files,
        form,
    })
}

fn style_named(alloc: Global, word: &String) -> Result<ConflictMarkerStyle, UsageError> {
    match word.as_str() {
        "diff" => Ok(ConflictMarkerStyle::Diff),
        "snapshot" => Ok(ConflictMarkerStyle::Snapshot),
        "git" => Ok(ConflictMarkerStyle::Git),
        _ => Err(unknown_style(alloc, word)),
    }
}

fn sides_of(
    alloc: Global,
    style: ConflictMarkerStyle,
    operands: &[String],
) -> Result<Command, UsageError> {
    let form = "merge [--style STYLE] A B";
    match operands {
        [first, second] => Ok(Command::Merge {
            first: first.clone()?,
            second: second.clone()?,
            style,
        }),
        [_, _, word, ..] => Err(unexpected(alloc, form, word)),
        _ => Err(UsageError::Missing { form }),
    }
}

fn merge_of(alloc: Global, operands: &[String]) -> Result<Command, UsageError> {
    if let [option, word, rest @ ..] = operands
        && option.as_str() == "--style"
    {
        let style = style_named(alloc, word)?;
        return sides_of(alloc, style, rest);
    }
    check_no_option(alloc, operands)?;
    sides_of(alloc, ConflictMarkerStyle::Diff, operands)
}

// Returns the command without operands that has this name, and its form.
fn plain_command(name: &str) -> Option<(Command, &'static str)> {
    match name {
        "import" => Some((Command::Import, "import")),
        "heads" => Some((Command::Heads, "heads")),
        "refs" => Some((Command::Refs, "refs")),
        "check" => Some((Command::Check, "check")),
        "batch" => Some((Command::Batch, "batch")),
        _ => None,
    }
}

/// Returns the command with this name and these operands; `None` if no command has the name.
pub fn command_of(
    alloc: Global,
    name: &String,
    operands: &[String],
) -> Result<Option<Command>, UsageError> {
    if let Some((command, form)) = plain_command(name.as_str()) {
        check_none(alloc, form, operands)?;
        return Ok(Some(command));
    }
    let command = match name.as_str() {
        "log" => log_of(alloc, operands)?,
        "show" => Command::Show(one_operand(alloc, "show REV", operands)?),
        "files" => files_of(alloc, operands)?,
        "bases" => bases_of(alloc, operands)?,
        "cat" => cat_of(alloc, operands)?,
        "diff" => diff_of(alloc, operands)?,
        "merge" => merge_of(alloc, operands)?,
        _ => return Ok(None),
    };
    Ok(Some(command))
}

fn is_help(word: &String) -> bool {
    matches!(word.as_str(), "-h" | "--help")
}

/// Parses the words after the name of the program.
pub fn parse_words(alloc: Global, words: &[String]) -> Result<Request, UsageError> {
    let Some((database, words)) = words.split_first() else {
        return Err(UsageError::NoDatabase);
    };
    if is_help(database) {
        return Ok(Request::Help);
    }
    if matches!(database.as_str(), "-V" | "--version") {
        return Ok(Request::Version);
    }
    if database.as_bytes().starts_with(b"-") {
        return Err(unknown_option(alloc, database));
    }
    let Some((name, operands)) = words.split_first() else {
        return Err(UsageError::NoCommand);
    };
    if is_help(name) || operands.first().is_some_and(is_help) {
        return Ok(Request::Help);
    }
    if name.as_bytes().starts_with(b"-") {
        return Err(unknown_option(alloc, name));
    }
    match command_of(alloc, name, operands)? {
        Some(command) => Ok(Request::Run {
            database: database.clone()?,
            command,
        }),
        None => Err(unknown_command(alloc, name)),
    }
}
