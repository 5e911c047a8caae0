//! Knuth-Morris-Pratt search that ignores ASCII case. A border of a string is shorter than it, and
//! both its prefix and its suffix.
ghost use Rattle.std.specs.Prelude.{◌≡◌, ◌↔◌, ℕ, ◌+◌, ◌<◌, ◌≤◌, List, IsTrue, IfOk, length, slice_index};
ghost use Rattle.bstr.specs.Text.{Contains};
ghost use Rattle.jj_strings.specs.CaseFolding.{lowercase};
ghost use Rattle.jj_strings.specs.KmpTable.{AreBorders, IsBorderTable, IsLongestPrefixAt};

use std::alloc::{AllocError, Global};

// Returns the table of the search: for each nonempty prefix of the needle, the length of its
// longest border. O(needle) time.
pub(crate) fn border_table(alloc: Global, needle: &[u8]) -> Result<Vec<usize>, AllocError>
    ensures { IfOk result (λ borders. IsBorderTable (lowercase needle.now) borders.items) }
{
    let mut borders = Vec::with_capacity(alloc, needle.len())?;
    if needle.is_empty() {
        return Ok(borders);
    }
    borders.push(0)?;
    let mut len = 0;
    for at in 1..needle.len() {
        let byte = needle[at].to_ascii_lowercase();
        len = next_prefix_len(needle, borders.as_slice(), len, byte);
        borders.push(len)?;
    }
    Ok(borders)
}

// Whether the bytes contain the needle, whose table this is. O(bytes) time: no byte is read twice.
pub(crate) fn contains_by_borders(bytes: &[u8], needle: &[u8], borders: &[usize]) -> bool
    requires some { 0 < length needle.now }
    requires borders { IsBorderTable (lowercase needle.now) borders.now }
    ensures { IsTrue result ↔ Contains (lowercase bytes.now) (lowercase needle.now) }
{
    let mut len = 0;
    for (at, byte) in bytes.iter().enumerate() {
        len = next_prefix_len(needle, borders, len, byte.to_ascii_lowercase());
        if len == needle.len() {
            return true;
        }
    }
    false
}

// Returns the length of the longest prefix of the needle that ends after this byte, from that of
// the longest one that ends before it.
fn next_prefix_len(needle: &[u8], borders: &[usize], len: usize, byte: u8) -> usize
    requires shorter { len < length needle.now }
    requires enough { len ≤ length borders.now }
    requires borders { AreBorders (lowercase needle.now) borders.now }
    ensures { (bytes : List ℕ) (at : ℕ) → IsLongestPrefixAt bytes at (lowercase needle.now) len
        → slice_index bytes at ≡ byte
        → IsLongestPrefixAt bytes (at + 1) (lowercase needle.now) result }
{
    let mut prefix = len;
    while needle[prefix].to_ascii_lowercase() != byte {
        if prefix == 0 {
            return 0;
        }
        prefix = borders[prefix - 1];
    }
    prefix + 1
}
