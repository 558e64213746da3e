//! Which programs have a file.

ghost use Rattle.std.specs.Prelude.{◌≡◌, ◌<◌, ◌^◌, not};
ghost use Rattle.std.specs.List.{list_all};
ghost use Rattle.program_file.specs.Spelling as definitions;
ghost use Rattle.program_file.specs.Spelling.{is_line_feed};

use crate::file::{Place, ProgramFile};
use bytes::ByteStr;
use memchr::memchr;

/// Whether a text is within one line.
fn is_one_line(text: &[u8]) -> bool
    ensures { result ≡ list_all (λ byte. not (is_line_feed byte)) text.now }
{
    memchr(b'\n', text).is_none()
}

/// Whether a place may say a text.
#[tactic(auto, using(crate::proofs::Searches::place_text))]
fn is_place_text(text: &ByteStr) -> bool
    ensures { result ≡ definitions.is_place_text text.now }
{
    let bytes = text.as_bytes();
    !bytes.is_empty() && is_one_line(bytes)
}

/// Whether a place may stand after those of slots below the least one, of an image of this many slots.
pub fn is_place(place: &Place, least: usize, slots: usize) -> bool
    ensures { result ≡ definitions.is_place least slots place.now }
{
    let slot = place.slot as usize;
    slot >= least && slot < slots && is_place_text(&place.text)
}

/// Whether places may follow one another, of an image of this many slots.
fn are_places(places: &[Place], slots: usize) -> bool
    ensures { result ≡ definitions.are_places 0 slots places.now }
{
    let mut least = 0;
    for place in places {
        if !is_place(place, least, slots) {
            return false;
        }
        least = place.slot as usize + 1;
    }
    true
}

/// Whether a number is a table's.
pub fn is_table(number: u32) -> bool
    ensures { result ≡ definitions.is_table number }
{
    1 <= number && number <= 3
}

/// Whether a program has a file: its table is one of 1 to 3, 32 bits hold its image's length, and its
/// places have texts of one line each and rising slots, which the image has.
pub fn fits(file: &ProgramFile) -> bool
    ensures { result ≡ definitions.fits file.now }
{
    let size = file.image.len();
    is_table(file.table) && size < 0x1_0000_0000 && are_places(&file.places.list, size / 8)
}
