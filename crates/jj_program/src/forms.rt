//! Line forms: a command is a table of rows, which are the word of a line, the shape of its fields
//! and its action. Parsing of a line by such a table, and of its fields to values.
ghost use Rattle.std.specs.Prelude.{◌≡◌, ◌<◌, List, ℕ, length, map, true, Ok, IfOk};
ghost use Rattle.std.specs.List.{count_by, position_or_len};
ghost use Rattle.jj_program.specs.Forms.{Kind, admits, borrowed_table, evens, form_line, form_named, line_of, odds, first_fields, second_fields, is_dash, value_at, values_at};
ghost use Rattle.jj_program.specs.Lines.{result_and_then, Agrees, texts_of};

use crate::fault::LineFault;
use jj_filter::failure::Failure;
use std::alloc::{AllocError, Global};
use std::mem::replace;

// How many fields follow the word of a line, and how they split into two lists. All fields of a
// list have one type.
#[derive(Clone, Copy, Debug, PartialEq, Eq)]
pub(crate) enum Shape {
    Empty,
    One,
    NonEmpty,
    Any,
    Odd,
    /// Fields of the two lists alternate.
    Pairs,
    /// Exactly one `-`, between the two lists.
    Dashed,
}

impl Shape {
    // Whether the number of fields is valid.
    fn admits(self, fields: &[&str]) -> bool
        ensures { result ≡ admits self (texts_of fields.now) }
    {
        match self {
            Shape::Empty => fields.is_empty(),
            Shape::One => fields.len() == 1,
            Shape::NonEmpty => !fields.is_empty(),
            Shape::Any => true,
            Shape::Odd => fields.len() % 2 == 1,
            Shape::Pairs => fields.len() % 2 == 0,
            Shape::Dashed => dash_count(fields) == 1,
        }
    }
}

// Whether a field is the separator between two lists.
pub(crate) fn is_dash(field: &str) -> bool
    ensures { result ≡ is_dash field.now }
{
    field == "-"
}

fn dash_count(fields: &[&str]) -> usize
    ensures { result ≡ count_by is_dash (texts_of fields.now) }
{
    let mut dashes = 0;
    for field in fields {
        if is_dash(field) {
            dashes += 1;
        }
    }
    dashes
}

// Returns the index of the first separator, or the number of fields.
fn dash_index(fields: &[&str]) -> usize
    ensures index { result ≡ position_or_len is_dash (texts_of fields.now) }
    ensures within { count_by is_dash (texts_of fields.now) ≡ 1
        → result < length fields.now }
{
    let mut index = 0;
    for field in fields {
        if is_dash(field) {
            return index;
        }
        index += 1;
    }
    index
}

// Splits alternating fields.
fn split_pairs<'t>(
    alloc: Global,
    fields: &[&'t str],
) -> Result<(Vec<&'t str>, Vec<&'t str>), AllocError>
    ensures firsts { IfOk result (λ pairs. texts_of pairs.0.items ≡ evens (texts_of fields.now)) }
    ensures seconds { IfOk result (λ pairs. texts_of pairs.1.items ≡ odds (texts_of fields.now)) }
{
    let mut firsts = Vec::new(alloc);
    let mut seconds = Vec::new(alloc);
    let mut rest = fields;
    while let [first, second, more @ ..] = rest {
        firsts.push(*first)?;
        seconds.push(*second)?;
        rest = more;
    }
    Ok((firsts, seconds))
}

// Finds the row of a word.
pub(crate) fn form_of<A: Copy>(forms: &[(&str, Shape, A)], word: &str) -> Option<(Shape, A)>
    ensures { result ≡ form_named (borrowed_table forms.now) word.now }
{
    for (own, shape, action) in forms {
        if *own == word {
            return Some((*shape, *action));
        }
    }
    None
}

// Finds the row of a line by its first field, and checks the number of the others. Returns the
// action, the shape and these fields.
pub(crate) fn form_line<'a, 't, A: Copy>(
    forms: &[(&str, Shape, A)],
    fields: &'a [&'t str],
) -> Result<(A, Shape, &'a [&'t str]), Failure<LineFault>>
    ensures parsed { Agrees result (λ line. (line.0, line.1, texts_of line.2.now))
        (form_line (borrowed_table forms.now) (texts_of fields.now)) }
    ensures admitted { IfOk result (λ line. admits line.1 (texts_of line.2.now) ≡ true) }
{
    let [word, fields @ ..] = fields else {
        return Err(Failure::Input(LineFault::UnknownCommand));
    };
    let Some((shape, action)) = form_of(forms, word) else {
        return Err(Failure::Input(LineFault::UnknownCommand));
    };
    if !shape.admits(fields) {
        return Err(Failure::Input(LineFault::BadFieldCount));
    }
    Ok((action, shape, fields))
}

/// A type that a field of a line can be parsed as.
pub trait Field<'t>: Drop {
    /// The model of a parsed value.
    ghost Value: { Type 0 };

    ghost value: { Self → Value };

    /// The valid fields, their values, and the fault of a line with an invalid one.
    ghost kind: { Kind Value };

    /// Parses a field.
    fn parse(alloc: Global, text: &'t str) -> Result<Self, Failure<LineFault>>
        ensures { Agrees result value (value_at kind text.now) };
}

// The values of the two lists of fields of a line.
#[derive(Drop)]
pub(crate) struct LineValues<F, G> {
    pub(crate) firsts: Vec<F>,
    pub(crate) seconds: Vec<G>,
}

impl<F: Drop, G: Drop> LineValues<F, G> {
    pub(crate) fn new(alloc: Global) -> LineValues<F, G> {
        LineValues {
            firsts: Vec::new(alloc),
            seconds: Vec::new(alloc),
        }
    }

    // Moves the first list out.
    pub(crate) fn take_firsts(&mut self, alloc: Global) -> Vec<F>
        ensures firsts { result ≡ self.old.firsts }
        ensures seconds { self.new.seconds ≡ self.old.seconds }
    {
        replace(&mut self.firsts, Vec::new(alloc))
    }

    // Moves the second list out.
    pub(crate) fn take_seconds(&mut self, alloc: Global) -> Vec<G>
        ensures seconds { result ≡ self.old.seconds }
        ensures firsts { self.new.firsts ≡ self.old.firsts }
    {
        replace(&mut self.seconds, Vec::new(alloc))
    }
}

// Replaces `values` by those of all fields, parsed as `F`s, or returns the fault of the first
// invalid field.
fn parse_fields<'t, F: Field<'t>>(
    alloc: Global,
    fields: &[&'t str],
    values: &mut Vec<F>,
) -> Result<(), Failure<LineFault>>
    ensures { Agrees result (λ _. map F.value values.new.items)
        (values_at F.kind (texts_of fields.now)) }
{
    values.clear();
    for field in fields {
        let value = F::parse(alloc, field)?;
        values.push(value)?;
    }
    Ok(())
}

// Parses two lists of fields; a fault of the first takes precedence.
fn parse_both<'t, A: Drop, F: Field<'t>, G: Field<'t>>(
    alloc: Global,
    action: A,
    firsts: &[&'t str],
    seconds: &[&'t str],
    values: &mut LineValues<F, G>,
) -> Result<A, Failure<LineFault>>
    ensures { Agrees {A = A × List F.Value × List G.Value} result
        (λ action. (
          action,
          map F.value values.new.firsts.items,
          map G.value values.new.seconds.items,
        ))
        (result_and_then (values_at F.kind (texts_of firsts.now))
        (λ xs. result_and_then (values_at G.kind (texts_of seconds.now))
        (λ ys. Ok (action, xs, ys)))) }
{
    parse_fields(alloc, firsts, &mut values.firsts)?;
    parse_fields(alloc, seconds, &mut values.seconds)?;
    Ok(action)
}

// Parses a line by a table of forms: returns its action, and replaces `values` by those of its two
// lists of fields. All lines of a command share the lists, so that a line needs no allocation of
// its own.
pub(crate) fn parse_line<'t, A: Copy + Drop, F: Field<'t>, G: Field<'t>>(
    alloc: Global,
    forms: &[(&str, Shape, A)],
    fields: &[&'t str],
    values: &mut LineValues<F, G>,
) -> Result<A, Failure<LineFault>>
    ensures { Agrees result
        (λ action. (
          action,
          map F.value values.new.firsts.items,
          map G.value values.new.seconds.items,
        ))
        (line_of F.kind G.kind (borrowed_table forms.now) (texts_of fields.now)) }
{
    let (action, shape, fields) = form_line(forms, fields)?;
    match shape {
        Shape::Pairs => {
            let (firsts, seconds) = split_pairs(alloc, fields)?;
            parse_both(alloc, action, &firsts, &seconds, values)
        }
        Shape::Dashed => {
            let index = dash_index(fields);
            parse_both(
                alloc,
                action,
                &fields[..index],
                &fields[index + 1..],
                values,
            )
        }
        _ => parse_both(alloc, action, fields, &[], values),
    }
}
