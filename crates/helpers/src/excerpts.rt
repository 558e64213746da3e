//! Excerpts of the record: what most programs emit.
ghost use Rattle.std.specs.Prelude.{◌≡◌, IfSome, Some, None};
ghost use Rattle.helpers.specs.Excerpts.{slice_of, source_part};

use crate::slices::PartSlice;
use machine_spec::Part;

/// What an excerpt has as its value.
#[derive(Clone, Copy, Debug)]
pub enum Source {
    /// The record's value as it is.
    Whole,
    /// A slice of the value.
    Value,
    /// A slice of the key.
    Key,
    /// A slice of the key of the header at this position.
    HeaderKey(u8),
    /// A slice of its value.
    HeaderValue(u8),
}

/// An emission whose parts are the record's: its key, its headers, and as value its own or a slice of one of its parts.
/// A block keeps one for each of its records, and a row one for itself, so it takes twelve bytes.
#[derive(Clone, Copy, Debug)]
pub struct Excerpt {
    /// Where the slice begins, if it has one.
    pub place: u32,
    /// How many bytes the slice has.
    pub count: u32,
    /// The output partition.
    pub out: u16,
    pub source: Source,
}

/// A number in two bytes, where it has room there.
#[inline(always)]
fn short(number: u64) -> Option<u16>
    ensures { IfSome result (λ short. short ≡ number) }
{
    if number <= u16::MAX as u64 {
        Some(number as u16)
    } else {
        None
    }
}

/// A slice of a part, where a header's position has room in a byte.
#[inline(always)]
fn source_of(part: Part) -> Option<Source>
    ensures { IfSome result (λ source. source_part source ≡ Some part) }
{
    match part {
        Part::Value => Some(Source::Value),
        Part::Key => Some(Source::Key),
        Part::HeaderKey(position) if position <= u8::MAX as u64 => Some(Source::HeaderKey(
            position as u8,
        )),
        Part::HeaderValue(position) if position <= u8::MAX as u64 => Some(Source::HeaderValue(
            position as u8,
        )),
        _ => None,
    }
}

/// The part that an excerpt has a slice of.
#[inline(always)]
fn part_of(source: Source) -> Option<Part>
    ensures { result ≡ source_part source }
{
    match source {
        Source::Whole => None,
        Source::Value => Some(Part::Value),
        Source::Key => Some(Part::Key),
        Source::HeaderKey(position) => Some(Part::HeaderKey(position as u64)),
        Source::HeaderValue(position) => Some(Part::HeaderValue(position as u64)),
    }
}

impl Excerpt {
    /// The record as it is, to an output partition, where that has room in an excerpt.
    #[inline(always)]
    pub fn whole(out: u64) -> Option<Excerpt>
        ensures { IfSome result (λ excerpt. (excerpt.out ≡ out) × (slice_of excerpt ≡ None)) }
    {
        Some(Excerpt {
            place: 0,
            count: 0,
            out: short(out)?,
            source: Source::Whole,
        })
    }

    /// The record with a slice of one of its parts as its value, where that has room in an excerpt.
    #[inline(always)]
    pub fn cut(out: u64, slice: &PartSlice) -> Option<Excerpt>
        ensures { IfSome result (λ excerpt. (excerpt.out ≡ out) × (slice_of excerpt ≡ Some slice.now)) }
    {
        if slice.place > u32::MAX as u64 || slice.count > u32::MAX as u64 {
            return None;
        }
        Some(Excerpt {
            place: slice.place as u32,
            count: slice.count as u32,
            out: short(out)?,
            source: source_of(slice.part)?,
        })
    }

    /// The output partition.
    #[inline(always)]
    pub fn out(&self) -> usize
        ensures { result ≡ self.now.out }
    {
        self.out as usize
    }

    /// The slice that is its value; `None` for the record as it is.
    #[inline(always)]
    pub fn slice(&self) -> Option<PartSlice>
        ensures { result ≡ slice_of self.now }
    {
        Some(PartSlice {
            part: part_of(self.source)?,
            place: self.place as u64,
            count: self.count as u64,
        })
    }
}
