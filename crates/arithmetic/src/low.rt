//! The low bits of a number.
ghost use Rattle.std.specs.Prelude.{◌≡◌, ◌%◌, ◌^◌};

/// The low 8 bits.
#[inline(always)]
pub fn low_8(a: u64) -> u8
    ensures { result ≡ a % 2 ^ 8 }
{
    (a % 0x100) as u8
}

/// The low 16 bits.
#[inline(always)]
pub fn low_16(a: u64) -> u16
    ensures { result ≡ a % 2 ^ 16 }
{
    (a % 0x1_0000) as u16
}

/// The low 32 bits.
#[inline(always)]
pub fn low_32(a: u64) -> u32
    ensures { result ≡ a % 2 ^ 32 }
{
    (a % 0x1_0000_0000) as u32
}
