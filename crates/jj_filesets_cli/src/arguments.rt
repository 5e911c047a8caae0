//! The command line: options and one expression.
ghost use Rattle.std.specs.Prelude.{◌≡◌, map, string_bytes};
ghost use Rattle.jj_filesets_cli.specs.CommandLines.{after_option, after_word, command_line, complete, is_option, no_words, option_named, with_expression};

use jj_filesets::listing::ListOptions;

// A task of the program.
#[derive(Clone, Copy, Debug, PartialEq, Eq)]
pub(crate) enum Task {
    Select,
    Help,
    Version,
}

// A command line. `expression` is the index of a word.
#[derive(Clone, Copy, Debug, PartialEq, Eq)]
pub(crate) struct CommandLine {
    pub(crate) task: Task,
    pub(crate) options: ListOptions,
    pub(crate) fails_if_none: bool,
    pub(crate) has_ended: bool,
    pub(crate) expression: Option<usize>,
}

// A wrong command line. A number is the index of the wrong word.
#[derive(Clone, Copy, Debug, PartialEq, Eq)]
pub(crate) enum UsageError {
    UnknownOption(usize),
    SecondExpression(usize),
    NoExpression,
}

#[derive(Clone, Copy)]
pub(crate) enum OptionName {
    Help,
    Version,
    Nul,
    SkipInvalid,
    FailIfNone,
    End,
}

// Parses the words after the name of the program.
pub(crate) fn parse_words(words: &[String]) -> Result<CommandLine, UsageError>
    ensures { result ≡ command_line (map (λ word. string_bytes word) words.now) }
{
    let mut line = CommandLine {
        task: Task::Select,
        options: ListOptions {
            nul: false,
            skips_invalid: false,
        },
        fails_if_none: false,
        has_ended: false,
        expression: None,
    };
    for index in 0..words.len() {
        line = after_word(line, index, words[index].as_bytes())?;
    }
    complete(line)
}

fn complete(line: CommandLine) -> Result<CommandLine, UsageError>
    ensures { result ≡ complete line }
{
    match (line.task, line.expression) {
        (Task::Select, None) => Err(UsageError::NoExpression),
        _ => Ok(line),
    }
}

fn after_word(line: CommandLine, index: usize, word: &[u8]) -> Result<CommandLine, UsageError>
    ensures { result ≡ after_word line index word.now }
{
    if line.has_ended || !is_option(word) {
        return with_expression(line, index);
    }
    match option_named(word) {
        Some(name) => Ok(after_option(line, name)),
        None => Err(UsageError::UnknownOption(index)),
    }
}

// A hyphen and more. A hyphen by itself is an expression.
fn is_option(word: &[u8]) -> bool
    ensures { result ≡ is_option word.now }
{
    word.len() > 1 && word[0] == b'-'
}

fn with_expression(line: CommandLine, index: usize) -> Result<CommandLine, UsageError>
    ensures { result ≡ with_expression line index }
{
    match line.expression {
        Some(_) => Err(UsageError::SecondExpression(index)),
        None => Ok(CommandLine {
            expression: Some(index),
            ..line
        }),
    }
}

#[tactic(auto, unfolding(crate::specs::CommandLines::option_named))]
fn option_named(word: &[u8]) -> Option<OptionName>
    ensures { result ≡ option_named word.now }
{
    if word == b"-h".as_slice() || word == b"--help".as_slice() {
        Some(OptionName::Help)
    } else if word == b"-V".as_slice() || word == b"--version".as_slice() {
        Some(OptionName::Version)
    } else if word == b"-z".as_slice() || word == b"--null".as_slice() {
        Some(OptionName::Nul)
    } else if word == b"--skip-invalid".as_slice() {
        Some(OptionName::SkipInvalid)
    } else if word == b"--fail-if-none".as_slice() {
        Some(OptionName::FailIfNone)
    } else if word == b"--".as_slice() {
        Some(OptionName::End)
    } else {
        None
    }
}

fn after_option(line: CommandLine, name: OptionName) -> CommandLine
    ensures { result ≡ after_option line name }
{
    let mut line = line;
    match name {
        OptionName::Help => line.task = Task::Help,
        OptionName::Version => line.task = Task::Version,
        OptionName::Nul => line.options.nul = true,
        OptionName::SkipInvalid => line.options.skips_invalid = true,
        OptionName::FailIfNone => line.fails_if_none = true,
        OptionName::End => line.has_ended = true,
    }
    line
}
