//! Little-endian integers.
ghost use Rattle.std.specs.Prelude.{◌≡◌, ℕ, ◌<◌, ◌≤◌, ◌^◌, ◌∷◌, [], length, IfOk, IfErr};
ghost use Rattle.jj_content.specs.Content.{u32_content, u64_content};
ghost use Rattle.jj_decode.specs.Decoding.{IsContentAt, IsErrorAt};
ghost use Rattle.jj_decode.specs.Errors.{IntegerErrors};

use crate::error::DecodeError;

/// Reads a byte. Returns it and the offset after it.
pub fn read_u8(bytes: &[u8], start: usize) -> Result<(u8, usize), DecodeError>
    requires { start ≤ length bytes.now }
    ensures decoded { IfOk result (λ decoded.
        IsContentAt (λ n. n < 2 ^ 8) (λ n. n ∷ []) bytes.now start decoded.0 decoded.1) }
    ensures malformed { IfErr result
        (IsErrorAt (λ n. n < 2 ^ 8) (λ n. n ∷ []) bytes.now start) }
    ensures error { IfErr result (IntegerErrors 1 bytes.now start) }
{
    if start < bytes.len() {
        Ok((bytes[start], start + 1))
    } else {
        Err(DecodeError::truncated(start))
    }
}

/// Reads four bytes, the low byte first. Returns the integer and the offset after it.
pub fn read_u32(bytes: &[u8], start: usize) -> Result<(u32, usize), DecodeError>
    requires { start ≤ length bytes.now }
    ensures decoded { IfOk result (λ decoded.
        IsContentAt (λ n. n < 2 ^ 32) u32_content bytes.now start decoded.0 decoded.1) }
    ensures malformed { IfErr result (IsErrorAt (λ n. n < 2 ^ 32) u32_content bytes.now start) }
    ensures error { IfErr result (IntegerErrors 4 bytes.now start) }
{
    if bytes.len() - start < 4 {
        return Err(DecodeError::truncated(start));
    }
    let digits = &bytes[start..start + 4];
    let number = u32::from_le_bytes([digits[0], digits[1], digits[2], digits[3]]);
    Ok((number, start + 4))
}

/// Reads eight bytes, the low byte first. Returns the integer and the offset after it.
pub fn read_u64(bytes: &[u8], start: usize) -> Result<(u64, usize), DecodeError>
    requires { start ≤ length bytes.now }
    ensures decoded { IfOk result (λ decoded.
        IsContentAt (λ n. n < 2 ^ 64) u64_content bytes.now start decoded.0 decoded.1) }
    ensures malformed { IfErr result (IsErrorAt (λ n. n < 2 ^ 64) u64_content bytes.now start) }
    ensures error { IfErr result (IntegerErrors 8 bytes.now start) }
{
    if bytes.len() - start < 8 {
        return Err(DecodeError::truncated(start));
    }
    let digits = &bytes[start..start + 8];
    let number = u64::from_le_bytes([
        digits[0], digits[1], digits[2], digits[3], digits[4], digits[5], digits[6], digits[7],
    ]);
    Ok((number, start + 8))
}
