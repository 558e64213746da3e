//! The lines that commands print.

ghost use Rattle.std.specs.Prelude.{◌≡◌, ◌<◌, ◌++◌, IfOk, OnOk, option_map, string_bytes};
ghost use Rattle.script.specs.Texts.{load_line, deploy_line, append_line, close_line, fetch_line, row_line, bytes_text, found_text, hex_text, byte_text, hex_glyph};

use bytes::Bytes;
use kafka_record::HeadersRef;
use log_spec::RowRef;
use std::alloc::{AllocError, Global};

/// The line that reports a load. It fails only where memory runs out.
pub fn load_text(alloc: Global, name: &str, version: u32) -> Result<String, AllocError>
    ensures { IfOk result (λ text. string_bytes text ≡ load_line name.now version) }
{
    format!(in alloc; "load {name} version {version}\n")
}

/// The line that reports a deployment: the mark's index in the input's log. It fails only where
/// memory runs out.
pub fn deploy_text(
    alloc: Global,
    input: u64,
    index: usize,
    name: &str,
    version: u32,
) -> Result<String, AllocError>
    ensures { IfOk result (λ text. string_bytes text ≡ deploy_line input index name.now version) }
{
    format!(in alloc; "deploy {input} index {index} {name} version {version}\n")
}

/// The line that reports an appended batch: its index in the input's log, and the offset of its
/// first record. It fails only where memory runs out.
pub fn append_text(alloc: Global, input: u64, index: usize, base: u64) -> Result<String, AllocError>
    ensures { IfOk result (λ text. string_bytes text ≡ append_line input index base) }
{
    format!(in alloc; "append {input} index {index} base {base}\n")
}

/// The line that reports a closed log: the index of its end. It fails only where memory runs out.
pub fn close_text(alloc: Global, input: u64, index: usize) -> Result<String, AllocError>
    ensures { IfOk result (λ text. string_bytes text ≡ close_line input index) }
{
    format!(in alloc; "close {input} index {index}\n")
}

fn glyph(digit: u8) -> u8
    requires { digit < 16 }
    ensures { result ≡ hex_glyph digit }
{
    if digit < 10 {
        b'0' + digit
    } else {
        b'a' + (digit - 10)
    }
}

fn push_byte(text: &mut String, byte: u8) -> Result<(), AllocError>
    ensures { OnOk result (string_bytes text.new ≡ string_bytes text.old ++ byte_text byte) }
{
    text.push(glyph(byte / 16) as char)?;
    text.push(glyph(byte % 16) as char)
}

/// Appends bytes in hex to a text, two digits each. It fails only where memory runs out; the text may
/// then end among them.
pub fn push_hex(text: &mut String, bytes: &[u8]) -> Result<(), AllocError>
    ensures { OnOk result (string_bytes text.new ≡ string_bytes text.old ++ hex_text bytes.now) }
{
    for byte in bytes {
        push_byte(text, *byte)?;
    }
    Ok(())
}

/// Appends a key or a value to a text: `-` where it is null, `.` where it has no bytes, else its bytes in
/// hex. It fails only where memory runs out; the text may then end among them.
pub fn push_bytes(text: &mut String, bytes: &Option<Bytes>) -> Result<(), AllocError>
    ensures { OnOk result (string_bytes text.new ≡ string_bytes text.old ++ bytes_text bytes.now) }
{
    match bytes {
        None => push_part(text, None),
        Some(bytes) => push_part(text, Some(bytes.as_slice())),
    }
}

fn push_part(text: &mut String, part: Option<&[u8]>) -> Result<(), AllocError>
    ensures { OnOk result (string_bytes text.new ≡ string_bytes text.old ++ bytes_text (option_map (λ bytes. bytes.now) part.entry)) }
{
    match part {
        None => text.push_str("-"),
        Some(bytes) => {
            if bytes.is_empty() {
                text.push_str(".")
            } else {
                push_hex(text, bytes)
            }
        }
    }
}

fn push_found(text: &mut String, found: &Option<Vec<u8>>) -> Result<(), AllocError>
    ensures { OnOk result (string_bytes text.new ≡ string_bytes text.old ++ found_text (option_map (λ bytes. bytes.items) found.now)) }
{
    match found {
        None => text.push_str("none"),
        Some(bytes) => push_hex(text, bytes.as_slice()),
    }
}

/// The line that says what a fetch returned: the bytes of a batch in hex, or `none`. It fails only
/// where memory runs out.
pub fn fetch_text(alloc: Global, found: &Option<Vec<u8>>) -> Result<String, AllocError>
    ensures { IfOk result (λ text. string_bytes text ≡ fetch_line (option_map (λ bytes. bytes.items) found.now)) }
{
    let mut text = String::new(alloc);
    push_found(&mut text, found)?;
    text.push_str("\n")?;
    Ok(text)
}

/// Appends the line of a row with these parts.
fn push_line(
    text: &mut String,
    output: usize,
    row: &RowRef,
    key: Option<&[u8]>,
    value: Option<&[u8]>,
    headers: &HeadersRef,
) -> Result<(), AllocError>
    ensures { OnOk result (string_bytes text.new ≡ string_bytes text.old ++ row_line output (record { input = row.now.input; number = row.now.number; offset = row.now.offset; timestamp = row.now.timestamp; key = option_map (λ k. k.now) key.entry; value = option_map (λ v. v.now) value.entry; headers = headers.now })) }
{
    let input = row.input;
    let offset = row.offset;
    let number = row.number;
    let timestamp = row.timestamp;
    let headers = headers.len();
    write!(text, "row {output} {input} {offset} {number} {timestamp} ")?;
    push_part(text, key)?;
    text.push_str(" ")?;
    push_part(text, value)?;
    write!(text, " {headers}\n")
}

/// Appends the line of a row of an output partition to a text. It fails only where memory runs out;
/// the text may then end within the line.
pub fn push_row(text: &mut String, output: usize, row: &RowRef) -> Result<(), AllocError>
    ensures { OnOk result (string_bytes text.new ≡ string_bytes text.old ++ row_line output row.now) }
{
    let headers = row.headers();
    push_line(text, output, row, row.key(), row.value(), &headers)
}
