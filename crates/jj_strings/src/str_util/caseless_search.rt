//! Substring search that ignores ASCII case: direct comparison, a search in lower-case windows on
//! the stack, or Knuth-Morris-Pratt, by the lengths.
ghost use Rattle.std.specs.Prelude.{◌≡◌, ◌↔◌, ◌+◌, ◌<◌, ◌≤◌, IsTrue, length, take};
ghost use Rattle.bstr.specs.Find.{OccursAt};
ghost use Rattle.bstr.specs.Text.{Contains};
ghost use Rattle.jj_strings.specs.KmpTable.{IsBorderTable};
ghost use Rattle.jj_strings.specs.CaseFolding.{lowercase};

use crate::str_util::kmp::contains_by_borders;
use bstr::ByteSlice;

// A needle with at most this many offsets is compared at each.
const FEW_OFFSETS: usize = 16;

// The longest needle that is searched in the short window.
const SHORT: usize = 256;

const SHORT_WINDOW: usize = 512;

// The longest needle that is searched in windows; longer ones use Knuth-Morris-Pratt.
pub(crate) const LONG: usize = 4_096;

const LONG_WINDOW: usize = 8_192;

// Whether the bytes contain the needle, ignoring ASCII case. A needle longer than `LONG` comes with
// its table. The time is linear in the length of the bytes, whatever the needle.
pub(crate) fn contains_ignore_case(bytes: &[u8], needle: &[u8], borders: &[usize]) -> bool
    requires { LONG < length needle.now → IsBorderTable (lowercase needle.now) borders.now }
    ensures { IsTrue result ↔ Contains (lowercase bytes.now) (lowercase needle.now) }
{
    if bytes.len().saturating_sub(needle.len()) < FEW_OFFSETS {
        contains_at_any_offset(bytes, needle)
    } else if needle.len() <= SHORT {
        contains_on_stack::<SHORT, SHORT_WINDOW>(bytes, needle)
    } else if needle.len() <= LONG {
        contains_on_stack::<LONG, LONG_WINDOW>(bytes, needle)
    } else {
        contains_by_borders(bytes, needle, borders)
    }
}

// Whether the bytes contain the needle. The lower-case needle and window are arrays of these
// lengths on the stack.
#[inline(never)]
fn contains_on_stack<const NEEDLE: usize, const WINDOW: usize>(bytes: &[u8], needle: &[u8]) -> bool
    requires needle { length needle.now ≤ NEEDLE }
    requires window { NEEDLE < WINDOW }
    requires limit { WINDOW ≤ LONG_WINDOW }
    ensures { IsTrue result ↔ Contains (lowercase bytes.now) (lowercase needle.now) }
{
    let mut lower = [0; NEEDLE];
    let mut window = [0; WINDOW];
    contains_in_windows(bytes, needle, &mut lower, &mut window)
}

// Searches the needle in lower-case windows, each of which overlaps the next one by one byte less
// than the needle.
fn contains_in_windows(bytes: &[u8], needle: &[u8], lower: &mut [u8], window: &mut [u8]) -> bool
    requires lower { length needle.now ≤ length lower.old }
    requires window { length needle.now < length window.old }
    ensures { IsTrue result ↔ Contains (lowercase bytes.now) (lowercase needle.now) }
{
    lowercase_into(needle, lower);
    let lower = &lower[..needle.len()];
    let mut from = 0;
    while from <= bytes.len() && needle.len() <= bytes.len() - from {
        let len = window.len().min(bytes.len() - from);
        lowercase_into(&bytes[from..from + len], window);
        let here = &window[..len];
        if here.contains_str(lower) {
            return true;
        }
        from += len - needle.len() + 1;
    }
    false
}

// Writes the bytes in lower case to the start of `lowered`.
fn lowercase_into(bytes: &[u8], lowered: &mut [u8])
    requires { length bytes.now ≤ length lowered.old }
    ensures prefix { take (length bytes.now) lowered.new ≡ lowercase bytes.now }
    ensures len { length lowered.new ≡ length lowered.old }
{
    for (at, byte) in bytes.iter().enumerate() {
        lowered[at] = byte.to_ascii_lowercase();
    }
}

// Compares the needle at each offset.
fn contains_at_any_offset(bytes: &[u8], needle: &[u8]) -> bool
    ensures { IsTrue result ↔ Contains (lowercase bytes.now) (lowercase needle.now) }
{
    if needle.len() > bytes.len() {
        return false;
    }
    for at in 0..bytes.len() - needle.len() + 1 {
        if occurs_at(bytes, needle, at) {
            return true;
        }
    }
    false
}

// Whether the needle occurs at this offset, ignoring ASCII case.
fn occurs_at(bytes: &[u8], needle: &[u8], at: usize) -> bool
    requires { at + length needle.now ≤ length bytes.now }
    ensures { IsTrue result ↔ OccursAt (lowercase bytes.now) (lowercase needle.now) at }
{
    bytes[at..at + needle.len()].eq_ignore_ascii_case(needle)
}
