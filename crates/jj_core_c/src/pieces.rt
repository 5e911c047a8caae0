//! Joined lists: their concatenation, and the index at which each of them ends.
ghost use Rattle.std.specs.Prelude.{◌≡◌, ◌<◌, ◌≤◌, length, true, Some, slice_get, slice_index};
ghost use Rattle.jj_core_c.specs.Pieces.{are_ends, pieces_of, start_of};

// Returns whether the ends divide a list of `len` items.
pub(crate) fn are_ends(len: usize, ends: &[usize]) -> bool
    ensures { result ≡ are_ends len ends.now }
{
    let mut start = 0;
    for end in ends {
        if *end < start || len < *end {
            return false;
        }
        start = *end;
    }
    true
}

// Returns the indices at which a piece of a list of `len` items begins and ends.
fn piece_range(len: usize, ends: &[usize], index: usize) -> (usize, usize)
    requires divided { are_ends len ends.now ≡ true }
    requires in_range { index < length ends.now }
    ensures start { result.0 ≡ start_of 0 ends.now index }
    ensures end { result.1 ≡ slice_index ends.now index }
    ensures ordered { result.0 ≤ result.1 }
    ensures within { result.1 ≤ len }
{
    let start = if index == 0 { 0 } else { ends[index - 1] };
    (start, ends[index])
}

// Returns the piece at an index.
pub(crate) fn piece_at<'a, T>(items: &'a [T], ends: &[usize], index: usize) -> &'a [T]
    requires divided { are_ends (length items.now) ends.now ≡ true }
    requires in_range { index < length ends.now }
    ensures { slice_get (pieces_of items.now ends.now) index ≡ Some result.now }
{
    let (start, end) = piece_range(items.len(), ends, index);
    &items[start..end]
}
