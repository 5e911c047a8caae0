//! Words of a line.
ghost use Rattle.std.specs.Prelude.{◌≡◌};
ghost use Rattle.std.specs.Option.{option_map};
ghost use Rattle.std.specs.Str.{bytes_eq};
ghost use Rattle.jj_fast_import.specs.Words.{number_of, push_digit, split_once, strip};

// Splits at the first `byte`: the bytes before it and those after it.
pub(crate) fn split_once(bytes: &[u8], byte: u8) -> Option<(&[u8], &[u8])>
    ensures { option_map (λ parts. (parts.0.now, parts.1.now)) result
        ≡ split_once byte bytes.now }
{
    let mut len = 0;
    while len < bytes.len() {
        if bytes[len] == byte {
            return Some((&bytes[..len], &bytes[len + 1..]));
        }
        len += 1;
    }
    None
}

// The bytes after the prefix `word`, if they begin with it.
pub(crate) fn strip<'a>(bytes: &'a [u8], word: &[u8]) -> Option<&'a [u8]>
    ensures { option_map (λ rest. rest.now) result ≡ strip word.now bytes.now }
{
    if bytes.starts_with(word) {
        Some(&bytes[word.len()..])
    } else {
        None
    }
}

pub(crate) fn is_word(text: &[u8], word: &[u8]) -> bool
    ensures { result ≡ bytes_eq text.now word.now }
{
    text == word
}

// The number with one more digit, if it fits.
fn push_digit(number: u64, byte: u8) -> Option<u64>
    ensures { result ≡ push_digit number byte }
{
    if !byte.is_ascii_digit() {
        return None;
    }
    let longer = number as u128 * 10 + (byte - b'0') as u128;
    if longer > u64::MAX as u128 {
        return None;
    }
    Some(longer as u64)
}

// The number that the decimal digits represent, if it fits.
pub(crate) fn number(text: &[u8]) -> Option<u64>
    ensures { result ≡ number_of text.now }
{
    if text.is_empty() {
        return None;
    }
    let mut number = 0;
    let mut rest = text;
    while let Some((byte, after)) = rest.split_first() {
        number = match push_digit(number, *byte) {
            Some(longer) => longer,
            None => return None,
        };
        rest = after;
    }
    Some(number)
}
