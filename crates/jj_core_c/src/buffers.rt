//! Writes results to the first items of a buffer.
ghost use Rattle.std.specs.Prelude.{◌≤◌, length};
ghost use Rattle.jj_core_c.specs.Buffers.{Writes};

pub(crate) fn write_bytes(buffer: &mut [u8], bytes: &[u8]) -> usize
    requires { length bytes.now ≤ length buffer.old }
    ensures { Writes buffer.old buffer.new bytes.now result }
{
    buffer[..bytes.len()].copy_from_slice(bytes);
    bytes.len()
}

pub(crate) fn write_flags(buffer: &mut [bool], flags: &[bool]) -> usize
    requires { length flags.now ≤ length buffer.old }
    ensures { Writes buffer.old buffer.new flags.now result }
{
    buffer[..flags.len()].copy_from_slice(flags);
    flags.len()
}

pub(crate) fn write_indices(buffer: &mut [usize], indices: &[usize]) -> usize
    requires { length indices.now ≤ length buffer.old }
    ensures { Writes buffer.old buffer.new indices.now result }
{
    buffer[..indices.len()].copy_from_slice(indices);
    indices.len()
}
