//! Copying bytes out into a caller's room.
ghost use Rattle.std.specs.Prelude.{◌≡◌, length};
ghost use Rattle.pb_c.specs.Copied.{copied_into};

/// Copies as many of the bytes as the room takes, and answers how many bytes there are in all.
pub(crate) fn copy_out(bytes: &[u8], room: &mut [u8]) -> usize
    ensures all { result ≡ length bytes.now }
    ensures copied { room.new ≡ copied_into room.old bytes.now }
{
    let fits = bytes.len().min(room.len());
    room[..fits].copy_from_slice(&bytes[..fits]);
    bytes.len()
}
