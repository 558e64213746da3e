//! The fields of a batch's header, and the line that shows them.

ghost use Rattle.std.specs.Prelude.{◌≡◌, ◌+◌, ◌≤◌, ◌++◌, length, OnOk, IfOk, string_bytes};
ghost use Rattle.std.specs.Int.{w16, w32, w64};
ghost use Rattle.wire_spec.specs.BatchReading.{signed_at};
ghost use Rattle.batch_text.specs.Lines.{count_field, field, place_part, time_part, producer_part, batch_line};

use batch::{i16_at, i32_at, i64_at, u32_at};
use std::alloc::{AllocError, Global};

/// Appends a number after its name to a text. It fails only where memory runs out.
#[tactic(auto, unfolding(crate::specs::Lines::count_field))]
pub(crate) fn push_count(text: &mut String, name: &str, number: u64) -> Result<(), AllocError>
    ensures { OnOk result (string_bytes text.new ≡ string_bytes text.old ++ count_field name.now number) }
{
    write!(text, "{name}{number}")
}

/// Appends the signed number of 64 bits at a place of some bytes after its name. It fails only where
/// memory runs out.
#[tactic(auto, unfolding(crate::specs::Lines::field))]
pub(crate) fn push_long(
    text: &mut String,
    name: &str,
    bytes: &[u8],
    at: usize,
) -> Result<(), AllocError>
    requires { at + 8 ≤ length bytes.now }
    ensures { OnOk result (string_bytes text.new ≡ string_bytes text.old ++ field name.now (signed_at w64 at bytes.now)) }
{
    let number = i64_at(bytes, at);
    write!(text, "{name}{number}")
}

/// The same of a signed number of 32 bits.
#[tactic(auto, unfolding(crate::specs::Lines::field))]
pub(crate) fn push_int(
    text: &mut String,
    name: &str,
    bytes: &[u8],
    at: usize,
) -> Result<(), AllocError>
    requires { at + 4 ≤ length bytes.now }
    ensures { OnOk result (string_bytes text.new ≡ string_bytes text.old ++ field name.now (signed_at w32 at bytes.now)) }
{
    let number = i32_at(bytes, at);
    write!(text, "{name}{number}")
}

/// The same of a signed number of 16 bits.
#[tactic(auto, unfolding(crate::specs::Lines::field))]
fn push_short(text: &mut String, name: &str, bytes: &[u8], at: usize) -> Result<(), AllocError>
    requires { at + 2 ≤ length bytes.now }
    ensures { OnOk result (string_bytes text.new ≡ string_bytes text.old ++ field name.now (signed_at w16 at bytes.now)) }
{
    let number = i16_at(bytes, at);
    write!(text, "{name}{number}")
}

fn push_place(text: &mut String, position: u64, bytes: &[u8]) -> Result<(), AllocError>
    requires { 61 ≤ length bytes.now }
    ensures { OnOk result (string_bytes text.new ≡ string_bytes text.old ++ place_part position bytes.now) }
{
    push_count(text, "position: ", position)?;
    push_long(text, " baseOffset: ", bytes, 0)?;
    push_count(text, " count: ", u32_at(bytes, 57) as u64)?;
    push_count(text, " size: ", bytes.len() as u64)
}

fn push_times(text: &mut String, bytes: &[u8]) -> Result<(), AllocError>
    requires { 61 ≤ length bytes.now }
    ensures { OnOk result (string_bytes text.new ≡ string_bytes text.old ++ time_part bytes.now) }
{
    push_long(text, " baseTimestamp: ", bytes, 27)?;
    push_long(text, " maxTimestamp: ", bytes, 35)
}

fn push_producer(text: &mut String, bytes: &[u8]) -> Result<(), AllocError>
    requires { 61 ≤ length bytes.now }
    ensures { OnOk result (string_bytes text.new ≡ string_bytes text.old ++ producer_part bytes.now) }
{
    push_int(text, " partitionLeaderEpoch: ", bytes, 12)?;
    push_long(text, " producerId: ", bytes, 43)?;
    push_short(text, " producerEpoch: ", bytes, 51)?;
    push_int(text, " baseSequence: ", bytes, 53)
}

/// The line of a batch with these bytes, at least 61, that begins at a position of a file: the fields of
/// its header by the names that Kafka's tools give them. It fails only where memory runs out.
pub fn batch_text(alloc: Global, position: u64, bytes: &[u8]) -> Result<String, AllocError>
    requires { 61 ≤ length bytes.now }
    ensures { IfOk result (λ text. string_bytes text ≡ batch_line position bytes.now) }
{
    let mut text = String::new(alloc);
    push_place(&mut text, position, bytes)?;
    push_times(&mut text, bytes)?;
    push_producer(&mut text, bytes)?;
    text.push_str("\n")?;
    Ok(text)
}
