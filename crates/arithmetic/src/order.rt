//! Changes of byte order. Numbers are little-endian, so big-endian is the swapped order.
ghost use Rattle.std.specs.Prelude.{◌≡◌};
ghost use Rattle.machine_spec.specs.Arithmetic.{number_in_order};

use crate::low::{low_16, low_32};
use machine_spec::{ByteOrder, SwappedWidth};

/// The low 16, 32 or 64 bits, and 0 above them: a little-endian order (RFC 9669, section 4.2).
#[inline(always)]
pub fn keep(width: SwappedWidth, a: u64) -> u64
    ensures { result ≡ number_in_order ByteOrder.LittleEndian width a }
{
    match width {
        SwappedWidth::Bits16 => low_16(a) as u64,
        SwappedWidth::Bits32 => low_32(a) as u64,
        SwappedWidth::Bits64 => a,
    }
}

/// The low 2, 4 or 8 bytes in reverse order, and 0 above them: a big-endian order, and a swap (RFC
/// 9669, section 4.2).
#[inline(always)]
pub fn swap(width: SwappedWidth, a: u64) -> u64
    ensures { result ≡ number_in_order ByteOrder.Swapped width a }
{
    match width {
        SwappedWidth::Bits16 => low_16(a).swap_bytes() as u64,
        SwappedWidth::Bits32 => low_32(a).swap_bytes() as u64,
        SwappedWidth::Bits64 => a.swap_bytes(),
    }
}
