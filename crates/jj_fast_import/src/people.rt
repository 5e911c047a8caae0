//! Lines of people: `NAME <EMAIL> SECONDS +hhmm`.
ghost use Rattle.std.specs.Prelude.{◌≡◌, IfOk};
ghost use Rattle.std.specs.Option.{option_map};
ghost use Rattle.jj_fast_import.specs.People.{name_of, person_of, time_of, two_digits, without_last_space, zone_of};
ghost use Rattle.jj_fast_import.specs.Values.{person_value};

use crate::command::{Person, Zone};
use crate::words::{number, split_once, strip};
use std::alloc::{AllocError, Global};

fn two_digits(tens: u8, ones: u8) -> Option<u8>
    ensures { result ≡ two_digits tens ones }
{
    if tens.is_ascii_digit() && ones.is_ascii_digit() {
        Some((tens - b'0') * 10 + (ones - b'0'))
    } else {
        None
    }
}

// Parses `+hhmm` or `-hhmm`.
fn zone(text: &[u8]) -> Option<Zone>
    ensures { result ≡ zone_of text.now }
{
    let [sign, a, b, c, d] = text else {
        return None;
    };
    if *sign != b'+' && *sign != b'-' {
        return None;
    }
    let hours = two_digits(*a, *b)?;
    let minutes = two_digits(*c, *d)?;
    Some(Zone {
        is_west: *sign == b'-',
        hours,
        minutes,
    })
}

fn without_last_space(text: &[u8]) -> Option<&[u8]>
    ensures { option_map (λ rest. rest.now) result ≡ without_last_space text.now }
{
    let len = text.len();
    if len > 0 && text[len - 1] == b' ' {
        Some(&text[..len - 1])
    } else {
        None
    }
}

// The bytes before `<`: nothing, or a name and a space.
fn name(alloc: Global, text: &[u8]) -> Result<Option<Option<Vec<u8>>>, AllocError>
    ensures { IfOk result (λ read. option_map (λ name. option_map (λ v. v.items) name) read
        ≡ name_of text.now) }
{
    if text.is_empty() {
        return Ok(Some(None));
    }
    match without_last_space(text) {
        Some(name) => Ok(Some(Some(Vec::from_slice(alloc, name)?))),
        None => Ok(None),
    }
}

// Parses the bytes after the email: a space, the seconds, a space and the offset.
fn time(text: &[u8]) -> Option<(u64, Zone)>
    ensures { result ≡ time_of text.now }
{
    let date = strip(text, b" ")?;
    let (seconds, offset) = split_once(date, b' ')?;
    let seconds = number(seconds)?;
    let zone = zone(offset)?;
    Some((seconds, zone))
}

// Parses the bytes after the first word of the line and a space.
pub(crate) fn person(alloc: Global, text: &[u8]) -> Result<Option<Person>, AllocError>
    ensures { IfOk result (λ read. option_map person_value read ≡ person_of text.now) }
{
    let Some((before, after)) = split_once(text, b'<') else {
        return Ok(None);
    };
    let Some(name) = name(alloc, before)? else {
        return Ok(None);
    };
    let Some((email, rest)) = split_once(after, b'>') else {
        return Ok(None);
    };
    let Some((seconds, zone)) = time(rest) else {
        return Ok(None);
    };
    Ok(Some(Person {
        name,
        email: Vec::from_slice(alloc, email)?,
        seconds,
        zone,
    }))
}
