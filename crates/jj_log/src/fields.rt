//! Commits as fields that end in NUL: the name, the parents and the label of each, as of
//! `git log -z --format=%h%x00%p%x00%s`.
ghost use Rattle.std.specs.Prelude.{◌≡◌, Ok, IfOk, IfErr};
ghost use Rattle.jj_filter.specs.Runs.{IsInputFailure};
ghost use Rattle.jj_log.specs.Fields.{IsFieldsFault, after_byte, breaks, line_byte, lines_of_fields};
ghost use Rattle.jj_log.specs.declared.fields.Place.TheVariants.{Start};

use crate::fault::Fault;
use jj_filter::failure::Failure;
use std::alloc::Global;

// Where the next byte is: before a commit, or in one of its fields.
#[derive(Clone, Copy, Debug, PartialEq, Eq)]
pub(crate) enum Place {
    Start,
    Name,
    Parents,
    Label,
}

fn after_byte(place: Place, byte: u8) -> Place
    ensures { result ≡ after_byte place byte }
{
    match place {
        Place::Start | Place::Name => {
            if byte == 0 {
                Place::Parents
            } else {
                Place::Name
            }
        }
        Place::Parents => {
            if byte == 0 {
                Place::Label
            } else {
                Place::Parents
            }
        }
        Place::Label => {
            if byte == 0 {
                Place::Start
            } else {
                Place::Label
            }
        }
    }
}

// Returns the byte of the line for a byte of a field or its end.
fn line_byte(place: Place, byte: u8) -> u8
    ensures { result ≡ line_byte place byte }
{
    if byte != 0 {
        byte
    } else if place == Place::Label {
        b'\n'
    } else {
        b'\t'
    }
}

// Whether a field cannot have this byte, which would end it in a line.
fn breaks(place: Place, byte: u8) -> bool
    ensures { result ≡ breaks place byte }
{
    byte == b'\n' || byte == b'\t' && place != Place::Label
}

/// Returns the commits as lines of fields that are separated by TABs. Fails with `Fields` at the
/// first byte that a field cannot have, and at the end of an input that ends within a commit.
pub fn lines_of_fields(alloc: Global, input: &[u8]) -> Result<Vec<u8>, Failure<Fault>>
    ensures lines { IfOk result (λ lines. lines_of_fields Start 0 input.now ≡ Ok lines.items) }
    ensures error { IfErr result (IsInputFailure (IsFieldsFault input.now)) }
{
    let mut lines = Vec::new(alloc);
    let mut place = Place::Start;
    for at in 0..input.len() {
        let byte = input[at];
        if breaks(place, byte) {
            return Err(Failure::Input(Fault::Fields { at }));
        }
        lines.push(line_byte(place, byte))?;
        place = after_byte(place, byte);
    }
    if place != Place::Start {
        return Err(Failure::Input(Fault::Fields { at: input.len() }));
    }
    Ok(lines)
}
