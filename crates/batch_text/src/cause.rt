//! Why bytes begin with no batch, in words.

ghost use Rattle.std.specs.Prelude.{◌≡◌, ◌≤◌, length, IfOk, string_bytes};
ghost use Rattle.batch_text.specs.Causes as definitions;
ghost use Rattle.batch_text.specs.Causes.{are_zeros, is_old, attribute_cause};

use crate::fields::{push_int, push_long};
use crate::sizes::record_cause;
use batch::{FRONT, HEADER, i32_at, u16_at, u32_at};
use std::alloc::{AllocError, Global};
use wire_spec::BatchFault;

/// Whether all bytes are 0.
fn are_zeros(bytes: &[u8]) -> bool
    ensures { result ≡ are_zeros bytes.now }
{
    bytes.iter().all(|byte| *byte == 0)
}

/// Whether the bytes are of an older format, where they reach its field magic.
fn is_old(bytes: &[u8]) -> bool
    ensures { result ≡ is_old bytes.now }
{
    bytes.len() > 16 && bytes[16] < 2
}

fn short_cause(alloc: Global, bytes: &[u8]) -> Result<String, AllocError>
    ensures { IfOk result (λ text. string_bytes text ≡ definitions.short_cause bytes.now) }
{
    let size = bytes.len();
    if size < HEADER {
        return format!(in alloc; "the file ends after {size} of the 61 bytes of its header");
    }
    let length = i32_at(bytes, 8);
    format!(in alloc; "the file ends after {size} bytes, and batchLength is {length}")
}

fn magic_cause(alloc: Global, bytes: &[u8]) -> Result<String, AllocError>
    requires { 17 ≤ length bytes.now }
    ensures { IfOk result (λ text. string_bytes text ≡ definitions.magic_cause bytes.now) }
{
    let magic = bytes[16];
    if magic < 2 {
        format!(in alloc; "magic {magic}, a message set of Kafka before 0.11")
    } else {
        format!(in alloc; "magic {magic}, which no Kafka writes")
    }
}

fn length_cause(alloc: Global, bytes: &[u8]) -> Result<String, AllocError>
    requires { 12 ≤ length bytes.now }
    ensures { IfOk result (λ text. string_bytes text ≡ definitions.length_cause bytes.now) }
{
    if are_zeros(bytes) {
        return String::from_str(alloc, "zeros, as at the end of a preallocated segment");
    }
    if is_old(bytes) {
        return magic_cause(alloc, bytes);
    }
    let length = i32_at(bytes, 8);
    format!(in alloc; "batchLength is {length}, and 49 is the least")
}

fn large_cause(alloc: Global, bytes: &[u8]) -> Result<String, AllocError>
    requires { 12 ≤ length bytes.now }
    ensures { IfOk result (λ text. string_bytes text ≡ definitions.large_cause bytes.now) }
{
    if is_old(bytes) {
        return magic_cause(alloc, bytes);
    }
    let length = i32_at(bytes, 8);
    format!(in alloc; "batchLength is {length}, and 4194292 is the most")
}

fn crc_words(alloc: Global, crc: u32, sum: u32) -> Result<String, AllocError>
    ensures { IfOk result (λ text. string_bytes text ≡ definitions.crc_words crc sum) }
{
    format!(in alloc; "crc is {crc}, and the sum of the bytes is {sum}")
}

fn crc_cause(alloc: Global, bytes: &[u8]) -> Result<String, AllocError>
    requires { 61 ≤ length bytes.now }
    ensures { IfOk result (λ text. string_bytes text ≡ definitions.crc_cause bytes.now) }
{
    crc_words(alloc, u32_at(bytes, 17), crc32c::sum(&bytes[21..]))
}

/// What the attributes of a batch say that is not read.
fn attribute_words(attributes: u16) -> &'static str
    ensures { result.now ≡ attribute_cause attributes }
{
    if attributes % 8 == 1 {
        "compressed with gzip"
    } else if attributes % 8 == 2 {
        "compressed with snappy"
    } else if attributes % 8 == 3 {
        "compressed with lz4"
    } else if attributes % 8 == 4 {
        "compressed with zstd"
    } else if attributes % 8 > 0 {
        "compressed in an unknown way"
    } else if attributes / 8 % 2 == 1 {
        "has the time of its append"
    } else if attributes / 16 % 2 == 1 {
        "part of a transaction"
    } else if attributes / 32 % 2 == 1 {
        "a control batch"
    } else if attributes / 64 % 2 == 1 {
        "has a delete horizon"
    } else {
        "has unknown attributes"
    }
}

fn count_cause(alloc: Global, bytes: &[u8]) -> Result<String, AllocError>
    requires { 61 ≤ length bytes.now }
    ensures { IfOk result (λ text. string_bytes text ≡ definitions.count_cause bytes.now) }
{
    let mut text = String::new(alloc);
    push_int(&mut text, "the number of records is ", bytes, 57)?;
    push_int(&mut text, ", and lastOffsetDelta ", bytes, 23)?;
    Ok(text)
}

fn timestamp_cause(alloc: Global, bytes: &[u8]) -> Result<String, AllocError>
    requires { 61 ≤ length bytes.now }
    ensures { IfOk result (λ text. string_bytes text ≡ definitions.timestamp_cause bytes.now) }
{
    let mut text = String::new(alloc);
    push_long(&mut text, "baseTimestamp is ", bytes, 27)?;
    push_long(&mut text, ", maxTimestamp ", bytes, 35)?;
    Ok(text)
}

/// The words of a fault of a batch's header or records, which are there.
fn whole_cause(alloc: Global, fault: BatchFault, bytes: &[u8]) -> Result<String, AllocError>
    requires { 61 ≤ length bytes.now }
    ensures { IfOk result (λ text. string_bytes text ≡ definitions.whole_cause fault bytes.now) }
{
    match fault {
        BatchFault::Short => short_cause(alloc, bytes),
        BatchFault::Length => length_cause(alloc, bytes),
        BatchFault::TooLarge => large_cause(alloc, bytes),
        BatchFault::Magic => magic_cause(alloc, bytes),
        BatchFault::Crc => crc_cause(alloc, bytes),
        BatchFault::Attributes => { String::from_str(alloc, attribute_words(u16_at(bytes, 21))) }
        BatchFault::Count => count_cause(alloc, bytes),
        BatchFault::Record(number) => record_cause(alloc, number, bytes),
        BatchFault::Timestamp => timestamp_cause(alloc, bytes),
        BatchFault::Memory => String::from_str(alloc, "memory"),
    }
}

/// The words of a fault of bytes that are fewer than a header has.
fn header_cause(alloc: Global, fault: BatchFault, bytes: &[u8]) -> Result<String, AllocError>
    ensures { IfOk result (λ text. string_bytes text ≡ definitions.header_cause fault bytes.now) }
{
    if bytes.len() < FRONT {
        return short_cause(alloc, bytes);
    }
    match fault {
        BatchFault::Length => length_cause(alloc, bytes),
        BatchFault::TooLarge => large_cause(alloc, bytes),
        BatchFault::Short
        | BatchFault::Magic
        | BatchFault::Crc
        | BatchFault::Attributes
        | BatchFault::Count
        | BatchFault::Record(_)
        | BatchFault::Timestamp
        | BatchFault::Memory => short_cause(alloc, bytes),
    }
}

/// Why bytes begin with no batch, in words: the bytes are the first of those, as many as show the fault. It
/// fails only where memory runs out.
pub fn cause_text(alloc: Global, fault: BatchFault, bytes: &[u8]) -> Result<String, AllocError>
    ensures { IfOk result (λ text. string_bytes text ≡ definitions.cause fault bytes.now) }
{
    if bytes.len() < HEADER {
        header_cause(alloc, fault, bytes)
    } else {
        whole_cause(alloc, fault, bytes)
    }
}
