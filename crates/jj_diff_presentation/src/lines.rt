//! The lines of a byte string. A line ends with its LF.
ghost use Rattle.std.specs.Prelude.{◌≡◌, ◌<◌, ◌≤◌, ◌∷◌, length};
ghost use Rattle.jj_diff_presentation.specs.Lines.{split_lines, is_terminated};

/// Splits off the first line, with its LF.
#[tactic(auto, using(crate::proofs::LineLaws::split_at_newline, crate::proofs::LineLaws::split_without_newline))]
pub fn split_first_line(text: &[u8]) -> (&[u8], &[u8])
    requires { 0 < length text.now }
    ensures lines { split_lines text.now ≡ result.0.now ∷ split_lines result.1.now }
    ensures shorter { length result.1.now < length text.now }
    ensures nonempty { 0 < length result.0.now }
{
    for (index, byte) in text.iter().enumerate() {
        if *byte == b'\n' {
            return text.split_at(index + 1);
        }
    }
    text.split_at(text.len())
}

/// Returns whether the byte string is empty or ends in LF.
#[tactic(auto, using(crate::proofs::LineLaws::terminated_at_end, crate::proofs::LineLaws::terminated_empty))]
pub fn is_terminated(text: &[u8]) -> bool
    ensures { result ≡ is_terminated text.now }
{
    if text.is_empty() {
        return true;
    }
    text[text.len() - 1] == b'\n'
}
