//! Numbers, texts and parts as they are printed.

ghost use Rattle.std.specs.Prelude.{◌≡◌, ◌<◌, ◌++◌, OnOk, decimal};
ghost use Rattle.std.specs.List.{flat_map};
ghost use Rattle.std.specs.Char.{digit_char};
ghost use Rattle.rules.specs.Writing as definitions;

use crate::rule::{Part, Text};
use std::alloc::{AllocError, Global};

fn hex_digit(digit: u8) -> u8
    requires { digit < 16 }
    ensures { result ≡ digit_char digit }
{
    if digit < 10 {
        b'0' + digit
    } else {
        b'a' + (digit - 10)
    }
}

fn push_byte(out: &mut Vec<u8>, byte: u8) -> Result<(), AllocError>
    ensures { OnOk result (out.new.items ≡ out.old.items ++ definitions.byte_text byte) }
{
    if byte == b'"' || byte == b'\\' {
        out.extend_from_slice(&[b'\\', byte])
    } else if byte == b'\n' {
        out.extend_from_slice(b"\\n")
    } else if byte == b'\t' {
        out.extend_from_slice(b"\\t")
    } else if b' ' <= byte && byte < 127 {
        out.extend_from_slice(&[byte])
    } else {
        out.extend_from_slice(&[b'\\', b'x', hex_digit(byte / 16), hex_digit(byte % 16)])
    }
}

fn push_bytes(out: &mut Vec<u8>, bytes: &[u8]) -> Result<(), AllocError>
    ensures { OnOk result (out.new.items ≡ out.old.items ++ flat_map definitions.byte_text bytes.now) }
{
    for byte in bytes {
        push_byte(out, *byte)?;
    }
    Ok(())
}

/// A text in quotes.
#[tactic(auto, unfolding(crate::specs::Writing::quoted_text))]
pub fn push_text(out: &mut Vec<u8>, text: &Text) -> Result<(), AllocError>
    ensures { OnOk result (out.new.items ≡ out.old.items ++ definitions.quoted_text text.now) }
{
    out.push(b'"')?;
    push_bytes(out, &text.bytes)?;
    out.push(b'"')?;
    Ok(())
}

/// A number in decimal.
pub fn push_number(alloc: Global, out: &mut Vec<u8>, number: u64) -> Result<(), AllocError>
    ensures { OnOk result (out.new.items ≡ out.old.items ++ decimal number) }
{
    let text = format!(in alloc; "{number}")?;
    out.extend_from_slice(text.as_bytes())
}

/// A part.
pub fn push_part(out: &mut Vec<u8>, part: &Part) -> Result<(), AllocError>
    ensures { OnOk result (out.new.items ≡ out.old.items ++ definitions.part_text part.now) }
{
    match part {
        Part::Value => out.extend_from_slice(b"value"),
        Part::Key => out.extend_from_slice(b"key"),
        Part::Header(name) => {
            out.extend_from_slice(b"header ")?;
            push_text(out, name)
        }
    }
}

/// A part after an opening parenthesis.
pub fn push_argument(out: &mut Vec<u8>, part: &Part) -> Result<(), AllocError>
    ensures { OnOk result (out.new.items ≡ out.old.items ++ definitions.argument_text part.now) }
{
    out.extend_from_slice(b"(")?;
    push_part(out, part)
}
