//! Parser of the input: a commit a line.
ghost use Rattle.std.specs.Prelude.{◌≡◌, ◌++◌, ◌↔◌, List, IfOk, IfErr, OnOk, map, string_bytes, true};
ghost use Rattle.std.specs.List.{AllZip};
ghost use Rattle.jj_filter.specs.Runs.{IsInputFailure};
ghost use Rattle.jj_log.specs.InputLines.{AreCommitsOf, EndsInReturn, IsCommitLine, IsFaultOf, IsLineFault, IsName, IsParseFault, numbered_line, one_word, words_of};
ghost use Rattle.jj_log.specs.declared.commits.Commit.{Commit};

use crate::commits::Commit;
use crate::fault::{Fault, LineFault, fault_at};
use jj_filter::failure::Failure;
use std::alloc::{AllocError, Global};

fn is_name(name: &str) -> bool
    ensures { (result ≡ true) ↔ IsName name.now }
{
    !name.is_empty() && !name.contains(' ')
}

fn ends_in_return(line: &str) -> bool
    ensures { (result ≡ true) ↔ EndsInReturn line.now }
{
    line.strip_suffix('\r').is_some()
}

// Appends the name unless it is empty.
fn push_name(alloc: Global, names: &mut Vec<String>, name: &str) -> Result<(), AllocError>
    ensures { OnOk result (map (λ s. string_bytes s) names.new.items
        ≡ map (λ s. string_bytes s) names.old.items ++ one_word name.now) }
{
    if !name.is_empty() {
        names.push(String::from_str(alloc, name)?)?;
    }
    Ok(())
}

fn parse_parents(alloc: Global, field: &str) -> Result<Vec<String>, AllocError>
    ensures { IfOk result (λ parents.
        map (λ s. string_bytes s) parents.items ≡ words_of field.now) }
{
    let mut parents = Vec::new(alloc);
    let mut rest = field;
    while let Some((name, later)) = rest.split_once(' ') {
        push_name(alloc, &mut parents, name)?;
        rest = later;
    }
    push_name(alloc, &mut parents, rest)?;
    Ok(parents)
}

// Parses a line: name TAB parents, and TAB label if the commit is visible.
fn parse_line(alloc: Global, number: usize, line: &str) -> Result<Commit, Failure<Fault>>
    ensures commit { IfOk result (IsCommitLine line.now) }
    ensures error { IfErr result (IsInputFailure (IsLineFault number line.now)) }
{
    if ends_in_return(line) {
        return Err(fault_at(alloc, number, LineFault::CarriageReturn, line));
    }
    let Some((name, fields)) = line.split_once('\t') else {
        return Err(fault_at(alloc, number, LineFault::MissingParents, line));
    };
    if !is_name(name) {
        return Err(fault_at(alloc, number, LineFault::BadName, line));
    }
    let (field, label) = match fields.split_once('\t') {
        Some((field, label)) => (field, Some(String::from_str(alloc, label)?)),
        None => (fields, None),
    };
    Ok(Commit {
        name: String::from_str(alloc, name)?,
        parents: parse_parents(alloc, field)?,
        label,
    })
}

// Appends the commit of the line with this number, unless the line is empty.
fn push_commit(
    alloc: Global,
    commits: &mut Vec<Commit>,
    numbers: &mut Vec<usize>,
    number: usize,
    line: &str,
) -> Result<(), Failure<Fault>>
    ensures commits { OnOk result ((added : List Commit)
        × (commits.new.items ≡ commits.old.items ++ added)
        × AllZip IsCommitLine (map (λ l. l.1) (numbered_line number line.now)) added) }
    ensures numbers { OnOk result (numbers.new.items
        ≡ numbers.old.items ++ map (λ l. l.0) (numbered_line number line.now)) }
    ensures error { IfErr result (IsInputFailure (IsFaultOf (numbered_line number line.now))) }
{
    if !line.is_empty() {
        commits.push(parse_line(alloc, number, line)?)?;
        numbers.push(number)?;
    }
    Ok(())
}

/// Parses the lines of the input. Returns the commits, the last first, and the number of the line
/// of each. Skips empty lines. Fails with `Line` at the first line that ends in a carriage return,
/// has no TAB or has a bad name, and with `Memory` if memory runs out.
pub fn parse_commits(
    alloc: Global,
    input: &str,
) -> Result<(Vec<Commit>, Vec<usize>), Failure<Fault>>
    ensures commits { IfOk result (λ parsed.
        AreCommitsOf input.now parsed.0.items parsed.1.items) }
    ensures error { IfErr result (IsInputFailure (IsParseFault input.now)) }
{
    // Each line but the last ends in a byte of the input, so the number does not overflow.
    let _len = input.len();
    let mut commits = Vec::new(alloc);
    let mut numbers = Vec::new(alloc);
    let mut rest = input;
    let mut number: usize = 1;
    while let Some((line, later)) = rest.split_once('\n') {
        push_commit(alloc, &mut commits, &mut numbers, number, line)?;
        rest = later;
        number += 1;
    }
    push_commit(alloc, &mut commits, &mut numbers, number, rest)?;
    commits.reverse();
    numbers.reverse();
    Ok((commits, numbers))
}
