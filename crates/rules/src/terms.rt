//! The numbers that a record has.

ghost use Rattle.std.specs.Prelude.{◌≡◌, length};
ghost use Rattle.rules.specs.Meaning as definitions;

use crate::digits::digits_number;
use crate::parts::part_bytes;
use crate::rule::{Layout, Term};
use kafka_record::RecordRef;
use machine_spec::Place;

fn layout_size(layout: Layout) -> usize
    ensures { result ≡ definitions.layout_size layout }
{
    match layout {
        Layout::Byte => 1,
        Layout::U16Be | Layout::U16Le => 2,
        Layout::U32Be | Layout::U32Le => 4,
        Layout::U64Be | Layout::U64Le => 8,
    }
}

/// The number that so many bytes are.
fn layout_number(layout: Layout, b: &[u8]) -> u64
    requires { length b.now ≡ definitions.layout_size layout }
    ensures { result ≡ definitions.layout_number layout b.now }
{
    match layout {
        Layout::Byte => u64::from(b[0]),
        Layout::U16Be => u64::from(u16::from_be_bytes([b[0], b[1]])),
        Layout::U32Be => u64::from(u32::from_be_bytes([b[0], b[1], b[2], b[3]])),
        Layout::U64Be => u64::from_be_bytes([b[0], b[1], b[2], b[3], b[4], b[5], b[6], b[7]]),
        Layout::U16Le => u64::from(u16::from_le_bytes([b[0], b[1]])),
        Layout::U32Le => u64::from(u32::from_le_bytes([b[0], b[1], b[2], b[3]])),
        Layout::U64Le => u64::from_le_bytes([b[0], b[1], b[2], b[3], b[4], b[5], b[6], b[7]]),
    }
}

/// The number from a byte on, if all its bytes are there.
fn number_at(layout: Layout, place: u32, bytes: &[u8]) -> Option<u64>
    ensures { result ≡ definitions.number_at layout place bytes.now }
{
    let place = place as usize;
    let size = layout_size(layout);
    if place + size > bytes.len() {
        return None;
    }
    Some(layout_number(layout, &bytes[place..place + size]))
}

/// The number that so many digits spell, from a byte on, if they are all there.
fn decimal_at(place: u32, count: u32, bytes: &[u8]) -> Option<u64>
    ensures { result ≡ definitions.decimal_at place count bytes.now }
{
    let place = place as usize;
    let end = place + count as usize;
    if end > bytes.len() {
        return None;
    }
    digits_number(&bytes[place..end], 10)
}

/// The value of a term, if the record has it.
pub fn term_value(term: &Term, given: &RecordRef, place: &Place) -> Option<u64>
    ensures { result ≡ definitions.term_value term.now given.now place.now }
{
    match term {
        Term::Length(part) => Some(part_bytes(part, given)?.len() as u64),
        Term::Number(layout, part, at) => number_at(*layout, *at, part_bytes(part, given)?),
        Term::Decimal(part, at, count) => decimal_at(*at, *count, part_bytes(part, given)?),
        Term::Offset => Some(place.offset),
        Term::Timestamp => Some(place.timestamp),
        Term::Partition => Some(place.partition as u64),
        Term::Headers => Some(given.headers().len() as u64),
    }
}
