//! The texts of faults.

ghost use Rattle.std.specs.Prelude.{◌≡◌, IfOk, string_bytes};
ghost use Rattle.klog_c.specs.Texts as definitions;

use crate::faults::MEMORY;
use c_outcomes::copy;
use std::alloc::{AllocError, Global};

fn name_of(number: u32) -> &'static str
    ensures { result.now ≡ definitions.name_of number }
{
    match number {
        1 => "memory ran out",
        2 => "a handle of nothing, or of another kind",
        3 => "a number is out of its range",
        4 => "a key or a value is too long",
        5 => "a buffer is too short",
        6 => "a null pointer, or a handle given twice",
        7 => "the offsets of records are used up",
        8 => "a header's key is not UTF-8",
        9 => "the rows take more bytes than the limit",
        101 => "I1 Size",
        102 => "I2 Opcode",
        103 => "I3 Register",
        104 => "I4 Unused",
        105 => "I5 Wide",
        106 => "I6 NotInProfile",
        201 => "V1 JumpTarget",
        202 => "V2 BackJump",
        203 => "V3 RunsOff",
        204 => "V4 Unset",
        205 => "V5 Type",
        206 => "V6 Frame",
        207 => "V7 RecordBounds",
        208 => "V8 StackBounds",
        209 => "V9 StackUnset",
        210 => "V10 ReadOnly",
        211 => "V11 Helper",
        212 => "V12 HelperArg",
        213 => "V13 Exit",
        301 => "B1 Short",
        302 => "B2 Length",
        303 => "B3 TooLarge",
        304 => "B4 Magic",
        305 => "B5 Crc",
        306 => "B6 Attributes",
        307 => "B7 Count",
        308 => "B8 Record",
        309 => "B9 Timestamp",
        401 => "G1 Short",
        402 => "G2 Version",
        403 => "G3 Table",
        404 => "G4 Lines",
        501 => "E1 Word",
        502 => "E2 Number",
        503 => "E3 Text",
        504 => "E4 Long",
        505 => "E5 Deep",
        506 => "E6 Many",
        507 => "E7 End",
        509 => "E9 Slots",
        _ => "no fault",
    }
}

/// What a fault's place counts, in a word; of a fault without a place there is none.
fn place_word(number: u32) -> &'static str
    ensures { result.now ≡ definitions.place_word number }
{
    match number {
        102..=106 => " slot ",
        201..=213 => " at ",
        308 => " record ",
        501..=507 => " at column ",
        _ => "",
    }
}

/// The text of a fault: its name, and its place where it has one.
fn fault_text(alloc: Global, number: u32, place: usize) -> Result<String, AllocError>
    ensures { IfOk result (λ text. string_bytes text ≡ definitions.fault_text number place) }
{
    let name = name_of(number);
    let word = place_word(number);
    if word.is_empty() {
        format!(in alloc; "{name}")
    } else {
        format!(in alloc; "{name}{word}{place}")
    }
}

/// Writes the text of a fault at the front of a buffer, and its length.
pub(crate) fn write_fault(
    alloc: Global,
    number: u32,
    place: usize,
    buffer: &mut [u8],
    length: &mut usize,
) -> u32
    ensures { definitions.Writes (definitions.fault_text number place) buffer.old buffer.new length.old length.new result }
{
    let Ok(text) = fault_text(alloc, number, place) else {
        return MEMORY;
    };
    *length = text.len();
    copy(text.as_bytes(), buffer)
}
