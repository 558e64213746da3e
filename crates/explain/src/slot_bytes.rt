//! The bytes of an image from a slot on, and the instruction that they are with 0 in some fields.

ghost use Rattle.std.specs.Prelude.{◌≡◌, ◌*◌, ◌≤◌, if◌then◌else◌, drop, slice_index};
ghost use Rattle.explain.specs.SlotBytes as definitions;

use bpf_isa::{Instruction, form_at};

/// Which fields of a slot are made 0.
#[derive(Clone, Copy)]
pub struct Cleared {
    pub dst: bool,
    pub src: bool,
    pub offset: bool,
    pub imm: bool,
}

/// Every field.
const ALL: Cleared = Cleared {
    dst: true,
    src: true,
    offset: true,
    imm: true,
};

/// The bytes of an image from a slot on.
#[tactic(auto, using(std::proofs::lemmas::List::drop_all))]
pub fn from_slot(image: &[u8], slot: usize) -> &[u8]
    ensures { result.now ≡ drop (8 * slot) image.now }
{
    if slot <= image.len() / 8 {
        &image[8 * slot..]
    } else {
        &[]
    }
}

/// Byte number i of some bytes, 0 past their end.
#[tactic(auto, using(std::proofs::lemmas::List::get_or_past))]
pub fn byte_at(bytes: &[u8], i: usize) -> u8
    ensures { result ≡ slice_index bytes.now i }
{
    if i < bytes.len() { bytes[i] } else { 0 }
}

fn kept_byte(is_cleared: bool, byte: u8) -> u8
    ensures is { result ≡ definitions.kept_byte is_cleared byte }
    ensures is_within { result ≤ byte }
{
    if is_cleared { 0 } else { byte }
}

/// The byte of both registers.
fn registers(cleared: Cleared, byte: u8) -> u8
    ensures { result ≡ definitions.registers cleared byte }
{
    kept_byte(cleared.dst, byte % 16) + kept_byte(cleared.src, byte / 16 * 16)
}

/// The first two slots of some bytes with 0 in some fields, and in the first four bytes of the
/// second.
fn cleared_slots(bytes: &[u8], cleared: Cleared) -> [u8; 16]
    ensures { result ≡ definitions.cleared_slots bytes.now cleared }
{
    [
        byte_at(bytes, 0),
        registers(cleared, byte_at(bytes, 1)),
        kept_byte(cleared.offset, byte_at(bytes, 2)),
        kept_byte(cleared.offset, byte_at(bytes, 3)),
        kept_byte(cleared.imm, byte_at(bytes, 4)),
        kept_byte(cleared.imm, byte_at(bytes, 5)),
        kept_byte(cleared.imm, byte_at(bytes, 6)),
        kept_byte(cleared.imm, byte_at(bytes, 7)),
        0,
        0,
        0,
        0,
        byte_at(bytes, 12),
        byte_at(bytes, 13),
        byte_at(bytes, 14),
        byte_at(bytes, 15),
    ]
}

/// The instruction that some bytes begin with, with 0 in some fields, if they are one then.
#[tactic(auto, unfolding(crate::specs::SlotBytes::mended_instruction))]
pub fn mended_instruction(bytes: &[u8], cleared: Cleared) -> Option<Instruction>
    ensures { result ≡ definitions.mended_instruction bytes.now cleared }
{
    form_at(&cleared_slots(bytes, cleared), 0)
}

/// One field less is cleared where the bytes are an instruction with the field's own value.
fn fields_to_clear(bytes: &[u8], cleared: Cleared, less: Cleared) -> Cleared
    ensures { result ≡ definitions.fields_to_clear bytes.now cleared less }
{
    if mended_instruction(bytes, less).is_some() {
        less
    } else {
        cleared
    }
}

/// The fields with which some bytes are no instruction.
pub fn wrong_fields(bytes: &[u8]) -> Cleared
    ensures { result ≡ definitions.wrong_fields bytes.now }
{
    let c = fields_to_clear(bytes, ALL, Cleared { imm: false, ..ALL });
    let c = fields_to_clear(bytes, c, Cleared { offset: false, ..c });
    let c = fields_to_clear(bytes, c, Cleared { src: false, ..c });
    fields_to_clear(bytes, c, Cleared { dst: false, ..c })
}
