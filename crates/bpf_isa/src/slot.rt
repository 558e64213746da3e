//! One slot of an image: its fields, and the instruction that they encode.

ghost use Rattle.std.specs.Prelude.{◌≡◌, ◌<◌};
ghost use Rattle.machine_spec.specs.Image.{slot_count, word_at, upper_at, fields_at, if_filled, read_slot, checked_instruction};
ghost use Rattle.bpf_isa.specs.Views.{view};

use crate::{form, opcode};
use machine_spec::{Instruction, IsaFault};

/// The fields of a basic instruction (RFC 9669, section 3.1).
#[derive(Clone, Copy)]
pub struct SlotFields {
    pub opcode: u8,
    pub dst: u8,
    pub src: u8,
    pub offset: i16,
    pub imm: i32,
    /// Of a 64-bit immediate the upper half of its number, if its second slot has one.
    pub upper: Option<u32>,
}

/// The number in the first four bytes of a slot.
fn first_word(image: &[u8], slot: usize) -> u32
    requires { slot < slot_count image.now }
    ensures { result ≡ word_at image.now slot 0 }
{
    let at = 8 * slot;
    u32::from_le_bytes([image[at], image[at + 1], image[at + 2], image[at + 3]])
}

/// The number in the last four bytes of a slot.
fn last_word(image: &[u8], slot: usize) -> u32
    requires { slot < slot_count image.now }
    ensures { result ≡ word_at image.now slot 4 }
{
    let at = 8 * slot;
    u32::from_le_bytes([image[at + 4], image[at + 5], image[at + 6], image[at + 7]])
}

/// The upper half that a 64-bit immediate has in its second slot, if there is such a slot and its
/// first four bytes are 0.
fn upper(image: &[u8], slot: usize) -> Option<u32>
    ensures { result ≡ upper_at image.now slot }
{
    if slot < image.len() / 8 && first_word(image, slot) == 0 {
        Some(last_word(image, slot))
    } else {
        None
    }
}

/// The fields of a slot, which the image has whole.
fn fields(image: &[u8], slot: usize) -> SlotFields
    requires { slot < slot_count image.now }
    ensures { view result ≡ fields_at image.now slot }
{
    let at = 8 * slot;
    let opcode = image[at];
    let registers = image[at + 1];
    SlotFields {
        opcode,
        dst: registers % 16,
        src: registers / 16,
        offset: i16::from_le_bytes([image[at + 2], image[at + 3]]),
        imm: last_word(image, slot).cast_signed(),
        upper: if opcode == 0x18 {
            upper(image, slot + 1)
        } else {
            None
        },
    }
}

/// What the fields of a slot encode; a 64-bit immediate without an upper half encodes nothing.
fn if_filled(
    slot: usize,
    fields: SlotFields,
    filled: Option<Instruction>,
) -> Result<Instruction, IsaFault>
    ensures { result ≡ if_filled slot (view fields) filled }
{
    match filled {
        Some(instruction) => Ok(instruction),
        None => Err(if fields.opcode == 0x18 {
            IsaFault::Wide(slot)
        } else {
            IsaFault::Unused(slot)
        }),
    }
}

/// The instruction that a template makes of the fields of a slot, or the first thing that is wrong
/// with them.
fn accepted(
    slot: usize,
    fields: SlotFields,
    template: Option<Instruction>,
) -> Result<Instruction, IsaFault>
    ensures { result ≡ checked_instruction slot (view fields) template }
{
    let Some(template) = template else {
        return Err(if opcode::is_left_out(fields.opcode) {
            IsaFault::NotInProfile(slot)
        } else {
            IsaFault::Opcode(slot)
        });
    };
    let uses = form::uses(template);
    if !form::has_registers(uses, fields) {
        return Err(IsaFault::Register(slot));
    }
    if !form::has_zeros(uses, fields) {
        return Err(IsaFault::Unused(slot));
    }
    if_filled(slot, fields, form::with_fields(template, fields))
}

/// The instruction at a slot, or the slot's refusal, the first of opcode, registers, unused fields
/// and second slot.
#[tactic(auto, unfolding(machine_spec::specs::Image::read_slot, machine_spec::specs::Image::read_fields))]
pub fn read(image: &[u8], slot: usize) -> Result<Instruction, IsaFault>
    requires { slot < slot_count image.now }
    ensures { result ≡ read_slot image.now slot }
{
    let fields = fields(image, slot);
    accepted(slot, fields, opcode::template_of(fields))
}
