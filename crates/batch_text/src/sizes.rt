//! What is wrong with a record: that it is cut, the part that is past its limit, or that it has another form.

ghost use Rattle.std.specs.Prelude.{◌≡◌, ◌≤◌, ◌++◌, length, IfOk, OnOk, option_map, string_bytes};
ghost use Rattle.wire_spec.specs.RecordReading.{varint_at, varlong_at};
ghost use Rattle.batch_text.specs.Causes as definitions;
ghost use Rattle.batch_text.specs.Causes.{at_least_0, after_part, after_record, after_records, sizes_at, is_cut};

use crate::fields::push_count;
use batch::{HEADER, u32_at};
use std::alloc::{AllocError, Global};
use varint::{read32, read64};
use wire_spec::{MAX_HEADERS, MAX_KEY, MAX_VALUE, VarintFault};

/// The lengths of a record's key and value, 0 for null, and its number of headers.
#[derive(Clone, Copy)]
pub struct Sizes {
    pub key: u32,
    pub value: u32,
    pub headers: u32,
}

/// The part of a record that is past its limit.
#[derive(Clone, Copy)]
pub enum Past {
    Key,
    Value,
    Headers,
    /// None of these.
    Other,
}

/// The varint at the front of some bytes, and the bytes after it.
fn varint(bytes: &[u8]) -> Option<(i32, &[u8])>
    ensures { option_map (λ x. (x.0, x.1.now)) result ≡ varint_at bytes.now }
{
    match read32(bytes) {
        Ok((number, used)) => Some((number, &bytes[used..])),
        Err(_) => None,
    }
}

/// The bytes after the varlong at the front of some bytes.
fn after_varlong(bytes: &[u8]) -> Option<&[u8]>
    ensures { option_map (λ rest. rest.now) result ≡ option_map (λ x. x.1) (varlong_at bytes.now) }
{
    match read64(bytes) {
        Ok((_, used)) => Some(&bytes[used..]),
        Err(_) => None,
    }
}

/// The bytes after a part of this length; null takes none.
fn after_part(size: i32, bytes: &[u8]) -> &[u8]
    ensures { result.now ≡ after_part size bytes.now }
{
    if size < 0 {
        return bytes;
    }
    &bytes[(size as usize).min(bytes.len())..]
}

/// A length, 0 where it is negative.
fn at_least_0(size: i32) -> u32
    ensures { result ≡ at_least_0 size }
{
    if size < 0 { 0 } else { size as u32 }
}

/// The bytes after the record at the front, by its length.
#[tactic(auto, unfolding(crate::specs::Causes::after_record))]
fn after_record(bytes: &[u8]) -> Option<&[u8]>
    ensures { option_map (λ rest. rest.now) result ≡ after_record bytes.now }
{
    let (size, rest) = varint(bytes)?;
    Some(after_part(size, rest))
}

/// The bytes after this number of records.
fn after_records(number: u32, bytes: &[u8]) -> Option<&[u8]>
    ensures { option_map (λ rest. rest.now) result ≡ after_records number bytes.now }
{
    let mut rest = bytes;
    for _ in 0..number {
        rest = after_record(rest)?;
    }
    Some(rest)
}

/// The sizes that a record states, whether or not it has as many bytes.
#[tactic(auto, unfolding(crate::specs::Causes::sizes_at))]
fn sizes_of(bytes: &[u8]) -> Option<Sizes>
    ensures { result ≡ sizes_at bytes.now }
{
    let (_, record) = varint(bytes)?;
    let rest = after_varlong(after_part(1, record))?;
    let (_, rest) = varint(rest)?;
    let (key, rest) = varint(rest)?;
    let (value, rest) = varint(after_part(key, rest))?;
    let (headers, _) = varint(after_part(value, rest))?;
    Some(Sizes {
        key: at_least_0(key),
        value: at_least_0(value),
        headers: at_least_0(headers),
    })
}

/// The part of a record that is past its limit, if one is.
fn past_of(sizes: Sizes) -> Past
    ensures { result ≡ definitions.past_of sizes }
{
    if sizes.key as usize > MAX_KEY {
        Past::Key
    } else if sizes.value as usize > MAX_VALUE {
        Past::Value
    } else if sizes.headers as usize > MAX_HEADERS {
        Past::Headers
    } else {
        Past::Other
    }
}

fn push_past(text: &mut String, sizes: Sizes, past: Past) -> Result<(), AllocError>
    ensures { OnOk result (string_bytes text.new ≡ string_bytes text.old ++ definitions.past_cause sizes past) }
{
    match past {
        Past::Key => {
            push_count(text, " has a key of ", sizes.key as u64)?;
            text.push_str(" bytes, 4096 at most")
        }
        Past::Value => {
            push_count(text, " has a value of ", sizes.value as u64)?;
            text.push_str(" bytes, 1048576 at most")
        }
        Past::Headers => {
            push_count(text, " has ", sizes.headers as u64)?;
            text.push_str(" headers, 16 at most")
        }
        Past::Other => text.push_str(" has another form"),
    }
}

#[tactic(auto, unfolding(crate::specs::Causes::sizes_cause))]
fn push_sizes(text: &mut String, sizes: Option<Sizes>) -> Result<(), AllocError>
    ensures { OnOk result (string_bytes text.new ≡ string_bytes text.old ++ definitions.sizes_cause sizes) }
{
    match sizes {
        None => text.push_str(" has another form"),
        Some(sizes) => push_past(text, sizes, past_of(sizes)),
    }
}

/// Whether the bytes end inside the record at their front: inside its length, or before as many bytes as it says.
fn is_cut(bytes: &[u8]) -> bool
    ensures { result ≡ is_cut bytes.now }
{
    match read32(bytes) {
        Ok((size, used)) => at_least_0(size) as usize > bytes.len() - used,
        Err(VarintFault::Short) => true,
        Err(VarintFault::Long | VarintFault::NotShortest) => false,
    }
}

/// Appends what is wrong with the record at the front of these bytes, which there are unless a length before it
/// can't be read.
fn push_fault(text: &mut String, bytes: Option<&[u8]>) -> Result<(), AllocError>
    ensures { OnOk result (string_bytes text.new
        ≡ string_bytes text.old ++ definitions.fault_cause (option_map (λ rest. rest.now) bytes.entry)) }
{
    match bytes {
        None => text.push_str(" has another form"),
        Some(bytes) if is_cut(bytes) => text.push_str(" is cut"),
        Some(bytes) => push_sizes(text, sizes_of(bytes)),
    }
}

/// Why a record of a batch is none, in words.
pub fn record_cause(alloc: Global, number: u32, bytes: &[u8]) -> Result<String, AllocError>
    requires { 61 ≤ length bytes.now }
    ensures { IfOk result (λ text. string_bytes text ≡ definitions.record_cause number bytes.now) }
{
    if number == u32_at(bytes, 57) {
        return String::from_str(alloc, "bytes follow the last record");
    }
    let mut text = String::new(alloc);
    push_count(&mut text, "record ", number as u64)?;
    push_fault(&mut text, after_records(number, &bytes[HEADER..]))?;
    Ok(text)
}
