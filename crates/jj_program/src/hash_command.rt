//! The command `hash`: prints the BLAKE2b-512 digest of the content that each line describes.
ghost use Rattle.std.specs.Prelude.{◌≡◌, ◌++◌, ℕ, List, Ok, None, false, IfOk, IfErr, IsTrue, OnOk, ok_or, option_map};
ghost use Rattle.jj_content.specs.Blake2b.{blake2b};
ghost use Rattle.jj_program.specs.declared.fault.LineFault.{LineFault};
ghost use Rattle.jj_program.specs.Lines.{IsFaultOf, Agrees, texts_of};
ghost use Rattle.jj_program.specs.HashCommand.{digest_line, hashed, bytes_of_hex, hash_step, hash_output, HasSize};
ghost use Rattle.jj_program.specs.HashViews.{HashesHex};

use crate::fault::{Fault, LineFault};
use crate::forms::{Shape, form_line};
use crate::lines::{Reading, take_lines};
use crate::merge_command::merge_of;
use jj_content::blake2b::Blake2b512;
use jj_content::content_hash::blake2b_hash;
use jj_content::hex_util::{decode_hex, encode_hex};
use jj_filter::failure::Failure;
use std::alloc::{AllocError, Global};

// The content that a line describes.
#[derive(Clone, Copy)]
pub(crate) enum HashInput {
    Raw,
    Text,
    List,
    Merge,
}

// The lines of `hash`.
pub(crate) const HASH_FORMS: &[(&str, Shape, HashInput)] = &[
    ("raw", Shape::One, HashInput::Raw),
    ("text", Shape::One, HashInput::Text),
    ("list", Shape::Any, HashInput::List),
    ("merge", Shape::Odd, HashInput::Merge),
];

// The output for the lines so far.
#[derive(Drop)]
pub(crate) struct HashReading {
    output: Vec<u8>,
}

impl HashReading {
    // Appends the digest of a line.
    fn push_line(&mut self, alloc: Global, fields: &[&str]) -> Result<(), Failure<LineFault>>
        ensures { Agrees result (λ _. self.new.output.items)
            (hash_step self.old.output.items (texts_of fields.now)) }
    {
        let (input, _shape, fields) = form_line(HASH_FORMS, fields)?;
        let digest = input_digest(alloc, input, fields)?;
        push_digest(alloc, &mut self.output, &digest)?;
        Ok(())
    }
}

impl<'t> Reading<'t> for HashReading {
    ghost State = { List ℕ };

    ghost represents = { λ reading output. reading.output.items ≡ output };

    ghost step = { hash_step };

    fn take(&mut self, alloc: Global, fields: &[&'t str]) -> Result<(), Failure<LineFault>> {
        self.push_line(alloc, fields)
    }
}

// Returns the output of `hash` for an input.
pub(crate) fn hash_output(alloc: Global, text: &str) -> Result<Vec<u8>, Failure<Fault>>
    ensures done { IfOk result (λ output. hash_output text.now ≡ Ok output.items) }
    ensures fault { IfErr result (λ fault. IsFaultOf fault (hash_output text.now)) }
{
    let mut reading = HashReading {
        output: Vec::new(alloc),
    };
    take_lines(alloc, &mut reading, text)?;
    Ok(reading.output)
}

// The digest of the content of a line with these fields.
fn input_digest(
    alloc: Global,
    input: HashInput,
    fields: &[&str],
) -> Result<[u8; 64], Failure<LineFault>>
    requires { HasSize input (texts_of fields.now) }
    ensures { Agrees result (λ digest. digest) (hashed input (texts_of fields.now)) }
{
    match input {
        HashInput::Raw => match fields {
            [text] => raw_digest(alloc, text),
            _ => unreachable!(),
        },
        HashInput::Text => match fields {
            [text] => Ok(blake2b_hash(alloc, text)?),
            _ => unreachable!(),
        },
        HashInput::List => Ok(blake2b_hash(alloc, &fields)?),
        HashInput::Merge => {
            let terms = merge_of(alloc, fields)?;
            Ok(blake2b_hash(alloc, &terms)?)
        }
    }
}

// The number of hex digits that are decoded at once, so that a long string needs little memory.
const CHUNK_DIGITS: usize = 32768;

// The digest of the bytes of a hex string.
fn raw_digest(alloc: Global, text: &str) -> Result<[u8; 64], Failure<LineFault>>
    ensures { Agrees result (λ digest. digest)
        (ok_or (option_map blake2b (bytes_of_hex text.now)) LineFault.BadHex) }
{
    let mut hasher = Blake2b512::new();
    let mut rest = text.as_bytes();
    while rest.len() > CHUNK_DIGITS {
        let (part, more) = rest.split_at(CHUNK_DIGITS);
        if !hash_hex(alloc, &mut hasher, part)? {
            return Err(Failure::Input(LineFault::BadHex));
        }
        rest = more;
    }
    if !hash_hex(alloc, &mut hasher, rest)? {
        return Err(Failure::Input(LineFault::BadHex));
    }
    Ok(hasher.finalize())
}

// Appends the bytes of a hex string to the message, and returns whether it is one.
fn hash_hex(alloc: Global, hasher: &mut Blake2b512, text: &[u8]) -> Result<bool, AllocError>
    ensures bytes { IfOk result (λ valid. IsTrue valid → HashesHex hasher.old hasher.new text.now) }
    ensures none { IfOk result (λ valid. valid ≡ false → bytes_of_hex text.now ≡ None) }
{
    let Some(bytes) = decode_hex(alloc, text)? else {
        return Ok(false);
    };
    hasher.update(&bytes);
    Ok(true)
}

// Appends a line with the digest in hex to the output.
fn push_digest(alloc: Global, output: &mut Vec<u8>, digest: &[u8; 64]) -> Result<(), AllocError>
    ensures { OnOk result (output.new.items ≡ output.old.items ++ digest_line digest.now) }
{
    output.extend_from_slice(encode_hex(alloc, digest)?.as_bytes())?;
    output.push(b'\n')?;
    Ok(())
}
