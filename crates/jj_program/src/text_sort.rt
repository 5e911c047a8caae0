//! Sorting of strings by their first eight bytes as one number, and by all bytes only where these
//! are equal.
ghost use Rattle.std.specs.Prelude.{◌≡◌, ◌<◌, All, OnOk, map, slice_index};
ghost use Rattle.std.specs.List.Sorted.{IsPermutation, IsSorted};
ghost use Rattle.jj_program.specs.MergeViews.{text_cmp};
ghost use Rattle.jj_program.specs.TextKeys.{IsEntry, IsKeyOf, text_of};

use std::alloc::AllocError;

// Sorts the strings. The contents of `entries` are replaced; its memory is used again.
pub(crate) fn sort_strings<'t>(
    entries: &mut Vec<(u64, &'t str)>,
    strings: &mut Vec<&'t str>,
) -> Result<(), AllocError>
    ensures permutation { OnOk result (IsPermutation strings.old.items strings.new.items) }
    ensures sorted { OnOk result (IsSorted text_cmp strings.new.items) }
{
    list_entries(entries, strings)?;
    entries.sort_unstable();
    list_strings(strings, entries)
}

// Replaces the entries by those of these strings.
fn list_entries<'t>(
    entries: &mut Vec<(u64, &'t str)>,
    strings: &[&'t str],
) -> Result<(), AllocError>
    ensures strings { OnOk result (map text_of entries.new.items ≡ strings.now) }
    ensures keys { OnOk result (All IsEntry entries.new.items) }
{
    entries.clear();
    for string in strings {
        entries.push((key_of(string.as_bytes()), *string))?;
    }
    Ok(())
}

// Replaces the strings by those of these entries.
fn list_strings<'t>(
    strings: &mut Vec<&'t str>,
    entries: &[(u64, &'t str)],
) -> Result<(), AllocError>
    ensures { OnOk result (strings.new.items ≡ map text_of entries.now) }
{
    strings.clear();
    for entry in entries {
        strings.push(entry.1)?;
    }
    Ok(())
}

// Returns the first eight bytes as a big-endian number. Missing bytes are 0.
pub(crate) fn key_of(bytes: &[u8]) -> u64
    ensures { IsKeyOf bytes.now result }
{
    let mut key = byte_at(bytes, 0);
    key = key * 256 + byte_at(bytes, 1);
    key = key * 256 + byte_at(bytes, 2);
    key = key * 256 + byte_at(bytes, 3);
    key = key * 256 + byte_at(bytes, 4);
    key = key * 256 + byte_at(bytes, 5);
    key = key * 256 + byte_at(bytes, 6);
    key * 256 + byte_at(bytes, 7)
}

// Returns a byte, or 0 past the end.
fn byte_at(bytes: &[u8], index: usize) -> u64
    ensures value { result ≡ slice_index bytes.now index }
    ensures byte { result < 256 }
{
    if index < bytes.len() {
        bytes[index] as u64
    } else {
        0
    }
}
