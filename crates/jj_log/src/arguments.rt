//! The command line: options of a drawing.
ghost use Rattle.std.specs.Prelude.{◌≡◌, ℕ, MatchOption, [], get_or, map, string_bytes};
ghost use Rattle.jj_log.specs.CommandLines.{Asks, IsMost, after_option, after_word, command_line, complete, option_named, style_named};
ghost use Rattle.jj_log.specs.declared.arguments.LogOptions.{LogOptions as LogOptionsValue};

use crate::style::Style;

/// How to read and to draw commits.
#[derive(Clone, Copy, Debug, PartialEq, Eq)]
pub struct LogOptions {
    /// The most columns of a row.
    pub max_columns: usize,
    pub style: Style,
    /// Whether each field of a commit ends in NUL, in place of lines.
    pub nul: bool,
}

/// A task of the program.
#[derive(Clone, Copy, Debug, PartialEq, Eq)]
pub enum Task {
    Draw,
    Help,
    Version,
}

// The option whose value the next word is.
#[derive(Clone, Copy, Debug, PartialEq, Eq)]
pub(crate) enum Awaited {
    Nothing,
    Columns,
    Style,
}

// A command line. `columns` is the index of a word.
#[derive(Clone, Copy, Debug, PartialEq, Eq)]
pub(crate) struct CommandLine {
    pub(crate) task: Task,
    pub(crate) columns: Option<usize>,
    pub(crate) style: Style,
    pub(crate) nul: bool,
    pub(crate) awaited: Awaited,
}

// A wrong command line. A number is the index of the wrong word.
#[derive(Clone, Copy, Debug, PartialEq, Eq)]
pub(crate) enum UsageError {
    UnknownArgument(usize),
    UnknownStyle(usize),
    NoColumns,
    NoStyle,
}

#[derive(Clone, Copy)]
pub(crate) enum OptionName {
    Help,
    Version,
    Nul,
    Columns,
    Style,
}

// Parses the words after the name of the program.
pub(crate) fn parse_words(words: &[String]) -> Result<CommandLine, UsageError>
    ensures { result ≡ command_line (map (λ word. string_bytes word) words.now) }
{
    let mut line = CommandLine {
        task: Task::Draw,
        columns: None,
        style: Style::Ascii,
        nul: false,
        awaited: Awaited::Nothing,
    };
    for index in 0..words.len() {
        line = after_word(line, index, words[index].as_bytes())?;
    }
    complete(line)
}

fn complete(line: CommandLine) -> Result<CommandLine, UsageError>
    ensures { result ≡ complete line }
{
    match line.awaited {
        Awaited::Nothing => Ok(line),
        Awaited::Columns => Err(UsageError::NoColumns),
        Awaited::Style => Err(UsageError::NoStyle),
    }
}

fn after_word(line: CommandLine, index: usize, word: &[u8]) -> Result<CommandLine, UsageError>
    ensures { result ≡ after_word line index word.now }
{
    match line.awaited {
        Awaited::Nothing => match option_named(word) {
            Some(name) => Ok(after_option(line, name)),
            None => Err(UsageError::UnknownArgument(index)),
        },
        Awaited::Columns => Ok(CommandLine {
            columns: Some(index),
            awaited: Awaited::Nothing,
            ..line
        }),
        Awaited::Style => match style_named(word) {
            Some(style) => Ok(CommandLine {
                style,
                awaited: Awaited::Nothing,
                ..line
            }),
            None => Err(UsageError::UnknownStyle(index)),
        },
    }
}

#[tactic(auto, unfolding(crate::specs::CommandLines::option_named))]
fn option_named(word: &[u8]) -> Option<OptionName>
    ensures { result ≡ option_named word.now }
{
    if word == b"-h".as_slice() || word == b"--help".as_slice() {
        Some(OptionName::Help)
    } else if word == b"-V".as_slice() || word == b"--version".as_slice() {
        Some(OptionName::Version)
    } else if word == b"-z".as_slice() || word == b"--null".as_slice() {
        Some(OptionName::Nul)
    } else if word == b"--columns".as_slice() {
        Some(OptionName::Columns)
    } else if word == b"--style".as_slice() {
        Some(OptionName::Style)
    } else {
        None
    }
}

#[tactic(auto, unfolding(crate::specs::CommandLines::style_named))]
fn style_named(word: &[u8]) -> Option<Style>
    ensures { result ≡ style_named word.now }
{
    if word == b"ascii".as_slice() {
        Some(Style::Ascii)
    } else if word == b"unicode".as_slice() {
        Some(Style::Unicode)
    } else {
        None
    }
}

fn after_option(line: CommandLine, name: OptionName) -> CommandLine
    ensures { result ≡ after_option line name }
{
    let mut line = line;
    match name {
        OptionName::Help => line.task = Task::Help,
        OptionName::Version => line.task = Task::Version,
        OptionName::Nul => line.nul = true,
        OptionName::Columns => line.awaited = Awaited::Columns,
        OptionName::Style => line.awaited = Awaited::Style,
    }
    line
}

// The number of columns that a word allows; all without a word.
fn most_of(words: &[String], columns: Option<usize>) -> Option<usize>
    ensures { MatchOption result
        ((most : ℕ) → ¬ (IsMost (map (λ word. string_bytes word) words.now) columns most))
        (IsMost (map (λ word. string_bytes word) words.now) columns) }
{
    match columns {
        Some(index) => word_at(words, index).parse::<usize>().ok(),
        None => Some(usize::MAX),
    }
}

// The word at an index, or the empty string.
pub(crate) fn word_at(words: &[String], index: usize) -> &str
    ensures { result.now ≡ get_or (map (λ word. string_bytes word) words.now) index [] }
{
    match words.get(index) {
        Some(word) => word.as_str(),
        None => "",
    }
}

// Returns the options of a drawing, unless the words ask for none or are wrong.
pub(crate) fn options_of(words: &[String]) -> Option<LogOptions>
    ensures { MatchOption result ((options : LogOptionsValue) → ¬ (Asks words.now options))
        (Asks words.now) }
{
    let Ok(line) = parse_words(words) else {
        return None;
    };
    if line.task != Task::Draw {
        return None;
    }
    let max_columns = most_of(words, line.columns)?;
    Some(LogOptions {
        max_columns,
        style: line.style,
        nul: line.nul,
    })
}
