//! Terms as they are printed.

ghost use Rattle.std.specs.Prelude.{◌≡◌, ◌++◌, OnOk};
ghost use Rattle.rules.specs.Writing as definitions;

use crate::rule::{Layout, Part, Term};
use crate::writing::pieces::{push_argument, push_number};
use std::alloc::{AllocError, Global};

fn layout_word(layout: Layout) -> &'static [u8]
    ensures { result.now ≡ definitions.layout_word layout }
{
    match layout {
        Layout::Byte => b"byte",
        Layout::U16Be => b"u16be",
        Layout::U32Be => b"u32be",
        Layout::U64Be => b"u64be",
        Layout::U16Le => b"u16le",
        Layout::U32Le => b"u32le",
        Layout::U64Le => b"u64le",
    }
}

fn push_next(alloc: Global, out: &mut Vec<u8>, number: u32) -> Result<(), AllocError>
    ensures { OnOk result (out.new.items ≡ out.old.items ++ definitions.next_text number) }
{
    out.extend_from_slice(b", ")?;
    push_number(alloc, out, u64::from(number))
}

fn push_length(out: &mut Vec<u8>, part: &Part) -> Result<(), AllocError>
    ensures { OnOk result (out.new.items ≡ out.old.items ++ definitions.length_text part.now) }
{
    out.extend_from_slice(b"length")?;
    push_argument(out, part)?;
    out.extend_from_slice(b")")
}

fn push_layout_term(
    alloc: Global,
    out: &mut Vec<u8>,
    layout: Layout,
    part: &Part,
    place: u32,
) -> Result<(), AllocError>
    ensures { OnOk result (out.new.items ≡ out.old.items ++ definitions.layout_term_text layout part.now place) }
{
    out.extend_from_slice(layout_word(layout))?;
    push_argument(out, part)?;
    push_next(alloc, out, place)?;
    out.extend_from_slice(b")")
}

fn push_decimal(
    alloc: Global,
    out: &mut Vec<u8>,
    part: &Part,
    place: u32,
    count: u32,
) -> Result<(), AllocError>
    ensures { OnOk result (out.new.items ≡ out.old.items ++ definitions.decimal_text part.now place count) }
{
    out.extend_from_slice(b"decimal")?;
    push_argument(out, part)?;
    push_next(alloc, out, place)?;
    push_next(alloc, out, count)?;
    out.extend_from_slice(b")")
}

/// A term.
#[tactic(auto, unfolding(crate::specs::Writing::term_text))]
pub fn push_term(alloc: Global, out: &mut Vec<u8>, term: &Term) -> Result<(), AllocError>
    ensures { OnOk result (out.new.items ≡ out.old.items ++ definitions.term_text term.now) }
{
    match term {
        Term::Length(part) => push_length(out, part),
        Term::Number(layout, part, place) => push_layout_term(alloc, out, *layout, part, *place),
        Term::Decimal(part, place, count) => push_decimal(alloc, out, part, *place, *count),
        Term::Offset => out.extend_from_slice(b"offset"),
        Term::Timestamp => out.extend_from_slice(b"timestamp"),
        Term::Partition => out.extend_from_slice(b"partition"),
        Term::Headers => out.extend_from_slice(b"headers"),
    }
}
