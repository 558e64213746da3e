ghost use Rattle.std.specs.Prelude.{◌≡◌, ◌+◌, ◌≤◌, ◌++◌, length, OnOk};
ghost use Rattle.std.specs.Int.{w16, w32, w64, to_be_bytes};
ghost use Rattle.wire_spec.specs.BatchSpelling.{signed};
ghost use Rattle.wire_spec.specs.BatchReading.{number_at, signed_at};

use byteorder::{BigEndian, ByteOrder};
use std::alloc::AllocError;

/// The number of 16 bits at a place, its highest byte first.
pub fn u16_at(bytes: &[u8], at: usize) -> u16
    requires { at + 2 ≤ length bytes.now }
    ensures { result ≡ number_at w16 at bytes.now }
{
    BigEndian::read_u16(&bytes[at..])
}

/// The number of 32 bits at a place, its highest byte first.
pub fn u32_at(bytes: &[u8], at: usize) -> u32
    requires { at + 4 ≤ length bytes.now }
    ensures { result ≡ number_at w32 at bytes.now }
{
    BigEndian::read_u32(&bytes[at..])
}

/// The signed number of 16 bits at a place, its highest byte first.
pub fn i16_at(bytes: &[u8], at: usize) -> i16
    requires { at + 2 ≤ length bytes.now }
    ensures { result ≡ signed_at w16 at bytes.now }
{
    BigEndian::read_i16(&bytes[at..])
}

/// The signed number of 32 bits at a place, its highest byte first.
pub fn i32_at(bytes: &[u8], at: usize) -> i32
    requires { at + 4 ≤ length bytes.now }
    ensures { result ≡ signed_at w32 at bytes.now }
{
    BigEndian::read_i32(&bytes[at..])
}

fn u64_at(bytes: &[u8], at: usize) -> u64
    requires { at + 8 ≤ length bytes.now }
    ensures { result ≡ number_at w64 at bytes.now }
{
    BigEndian::read_u64(&bytes[at..])
}

/// The signed number of 64 bits at a place, its highest byte first.
pub fn i64_at(bytes: &[u8], at: usize) -> i64
    requires { at + 8 ≤ length bytes.now }
    ensures { result ≡ signed_at w64 at bytes.now }
{
    u64_at(bytes, at).cast_signed()
}

/// Writes a signed number of 16 bits at the end, its highest byte first. It fails only where memory
/// runs out; no contract says what is written then.
pub fn put_i16(out: &mut Vec<u8>, number: i16) -> Result<(), AllocError>
    ensures { OnOk result (out.new.items ≡ out.old.items ++ signed w16 number) }
{
    let mut bytes = [0; 2];
    BigEndian::write_i16(&mut bytes, number);
    out.extend_from_slice(&bytes)
}

/// Writes a number of 32 bits at the end, its highest byte first. It fails only where memory runs
/// out; no contract says what is written then.
pub fn put_u32(out: &mut Vec<u8>, number: u32) -> Result<(), AllocError>
    ensures { OnOk result (out.new.items ≡ out.old.items ++ to_be_bytes w32 number) }
{
    let mut bytes = [0; 4];
    BigEndian::write_u32(&mut bytes, number);
    out.extend_from_slice(&bytes)
}

/// Writes a signed number of 32 bits at the end, its highest byte first. It fails only where memory
/// runs out; no contract says what is written then.
pub fn put_i32(out: &mut Vec<u8>, number: i32) -> Result<(), AllocError>
    ensures { OnOk result (out.new.items ≡ out.old.items ++ signed w32 number) }
{
    let mut bytes = [0; 4];
    BigEndian::write_i32(&mut bytes, number);
    out.extend_from_slice(&bytes)
}

/// Writes a signed number of 64 bits at the end, its highest byte first. It fails only where memory
/// runs out; no contract says what is written then.
pub fn put_i64(out: &mut Vec<u8>, number: i64) -> Result<(), AllocError>
    ensures { OnOk result (out.new.items ≡ out.old.items ++ signed w64 number) }
{
    let mut bytes = [0; 8];
    BigEndian::write_i64(&mut bytes, number);
    out.extend_from_slice(&bytes)
}
