//! The numbers before an image.

ghost use Rattle.std.specs.Prelude.{◌≡◌, ◌+◌, ◌≤◌, length};
ghost use Rattle.program_file.specs.Reading as definitions;

/// The bytes that a program file begins with.
pub const MARK: [u8; 4] = *b"KLOG";

/// The version of program files.
pub const VERSION: u32 = 1;

/// How many bytes are before the image.
pub const HEADER: usize = 16;

/// Whether bytes begin as a program file. Those of an image never do.
pub fn is_program_file(bytes: &[u8]) -> bool
    ensures { result ≡ definitions.is_program_file bytes.now }
{
    bytes.starts_with(&MARK)
}

/// The number in the 32 bits at a place, the lowest byte first.
pub fn number_at(bytes: &[u8], at: usize) -> u32
    requires { at + 4 ≤ length bytes.now }
    ensures { result ≡ definitions.number_at at bytes.now }
{
    u32::from_le_bytes([bytes[at], bytes[at + 1], bytes[at + 2], bytes[at + 3]])
}
