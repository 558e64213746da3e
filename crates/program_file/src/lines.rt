//! The lines after an image.

ghost use Rattle.std.specs.Prelude.{◌≡◌, ◌≤◌, length, drop, slice_range, Ok};
ghost use Rattle.std.specs.Option.{ok_or};
ghost use Rattle.wire_spec.specs.Memory.{AnswersAs};
ghost use Rattle.program_file.specs.Reading.{if_place, read_place, places_of};
ghost use Rattle.program_file.specs.declared.fault.FileFault.TheVariants as faults;

use crate::fault::FileFault;
use crate::file::{Place, Places};
use crate::fitting::is_place;
use crate::slot_number::slot_named;
use bytes::{ByteStr, Bytes};
use memchr::memchr;
use std::alloc::Global;

/// The place with a slot and a text, if there may be one.
#[tactic(auto, using(crate::proofs::LineTexts::no_text))]
fn place_of(slot: u32, text: Bytes, least: usize, slots: usize) -> Result<Place, FileFault>
    ensures { result ≡ ok_or (if_place least slots (record { slot = slot; text = text })) faults.Lines }
{
    let Ok(text) = ByteStr::from_utf8(text) else {
        return Err(FileFault::Lines);
    };
    let place = Place { slot, text };
    if is_place(&place, least, slots) {
        Ok(place)
    } else {
        Err(FileFault::Lines)
    }
}

/// The place that the line between two places in the bytes says.
fn place_in(
    bytes: &Bytes,
    start: usize,
    end: usize,
    least: usize,
    slots: usize,
) -> Result<Place, FileFault>
    requires order { start ≤ end }
    requires within { end ≤ length bytes.now }
    ensures { AnswersAs faults.Memory (λ p. p) result (ok_or (read_place least slots (slice_range bytes.now start end)) faults.Lines) }
{
    let line = &bytes.as_slice()[start..end];
    let Some(space) = memchr(b' ', line) else {
        return Err(FileFault::Lines);
    };
    let Some(slot) = slot_named(&line[..space]) else {
        return Err(FileFault::Lines);
    };
    let text = bytes.slice(start + space + 1..end)?;
    place_of(slot, text, least, slots)
}

/// The places that the bytes from a place on say, of an image of this many slots.
pub fn places_from(
    alloc: Global,
    bytes: &Bytes,
    start: usize,
    slots: usize,
) -> Result<Places, FileFault>
    requires { start ≤ length bytes.now }
    ensures { AnswersAs faults.Memory (λ ps. ps) result (ok_or (places_of slots (drop start bytes.now)) faults.Lines) }
{
    let mut list = Vec::new(alloc);
    let mut least = 0;
    let mut at = start;
    while at < bytes.len() {
        let Some(size) = memchr(b'\n', &bytes.as_slice()[at..]) else {
            return Err(FileFault::Lines);
        };
        let place = place_in(bytes, at, at + size, least, slots)?;
        least = place.slot as usize + 1;
        at += size + 1;
        list.push(place)?;
    }
    Ok(Places { list })
}
