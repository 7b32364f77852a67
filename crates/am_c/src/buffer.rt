//! The caller's buffer.

ghost use Rattle.std.specs.Prelude.{◌≡◌};
ghost use Rattle.am_c.specs.Buffer.{with_front};

/// Puts bytes at the front of a buffer, as many as it has room for.
pub(crate) fn put_front(bytes: &[u8], buffer: &mut [u8])
    ensures { buffer.new ≡ with_front bytes.now buffer.old }
{
    let count = bytes.len().min(buffer.len());
    buffer[..count].copy_from_slice(&bytes[..count]);
}
