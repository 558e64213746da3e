//! The bytes that a helper writes to the stack.
ghost use Rattle.std.specs.Prelude.{◌≡◌, if◌then◌else◌, length};
ghost use Rattle.machine_spec.specs.Machine.{has_part, part_of, padded};

/// Whether there are `count` bytes from a place on. The sum does not wrap.
pub(crate) fn has_part(bytes: &[u8], at: u64, count: u64) -> bool
    ensures { result ≡ has_part bytes.now at count }
{
    at as u128 + count as u128 <= bytes.len() as u128
}

/// Copies the part of a key or a value that begins at a place and is as long as the room, and
/// returns 0. Where there is no such part it fills the room with zeros and returns 1.
pub fn load_part(bytes: &[u8], at: u64, room: &mut [u8]) -> u64
    ensures answer { result ≡ (if has_part bytes.now at (length room.old) then 0 else 1) }
    ensures room { room.new ≡ part_of bytes.now at (length room.old) }
{
    if has_part(bytes, at, room.len() as u64) {
        let start = at as usize;
        room.copy_from_slice(&bytes[start..start + room.len()]);
        0
    } else {
        room.fill(0);
        1
    }
}

/// Copies as many bytes as fit to the room, with zeros after their end.
pub fn fill_room(bytes: &[u8], room: &mut [u8])
    ensures { room.new ≡ padded (length room.old) bytes.now }
{
    if bytes.len() < room.len() {
        room[..bytes.len()].copy_from_slice(bytes);
        room[bytes.len()..].fill(0);
    } else {
        room.copy_from_slice(&bytes[..room.len()]);
    }
}
