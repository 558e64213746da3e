//! Opcodes (RFC 9669, sections 3.3 to 5): that of each instruction, and the instruction of each.

ghost use Rattle.std.specs.Prelude.{◌≡◌, ◌≤◌, ◌==◌, find};
ghost use Rattle.std.specs.List.{list_any, position_or_len, slice_get};
ghost use Rattle.machine_spec.specs.declared.opcode.TheConstants.{TEMPLATES};
ghost use Rattle.machine_spec.specs.Opcodes as definitions;
ghost use Rattle.machine_spec.specs.Opcodes.{opcode_of};
ghost use Rattle.bpf_isa.specs.Views.{view};

use crate::slot::SlotFields;
use machine_spec::{
    ByteOrder, Change, Distance, Extension, Instruction, Operation, Size, Source, TEMPLATES, Test,
    Width,
};

fn arithmetic_class(width: Width) -> u8
    ensures is { result ≡ definitions.arithmetic_class width }
    ensures is_small { result ≤ 7 }
{
    match width {
        Width::Bits32 => 4,
        Width::Bits64 => 7,
    }
}

fn jump_class(width: Width) -> u8
    ensures is { result ≡ definitions.jump_class width }
    ensures is_small { result ≤ 7 }
{
    match width {
        Width::Bits32 => 6,
        Width::Bits64 => 5,
    }
}

fn operation_code(operation: Operation) -> u8
    ensures is { result ≡ definitions.operation_code operation }
    ensures is_small { result ≤ 13 }
{
    match operation {
        Operation::Add => 0,
        Operation::Sub => 1,
        Operation::Mul => 2,
        Operation::Div => 3,
        Operation::SignedDiv => 3,
        Operation::Or => 4,
        Operation::And => 5,
        Operation::LeftShift => 6,
        Operation::RightShift => 7,
        Operation::Mod => 9,
        Operation::SignedMod => 9,
        Operation::Xor => 10,
        Operation::ArithmeticRightShift => 12,
    }
}

fn test_code(test: Test) -> u8
    ensures is { result ≡ definitions.test_code test }
    ensures is_small { result ≤ 13 }
{
    match test {
        Test::Equal => 1,
        Test::Greater => 2,
        Test::GreaterOrEqual => 3,
        Test::AnyBit => 4,
        Test::NotEqual => 5,
        Test::SignedGreater => 6,
        Test::SignedGreaterOrEqual => 7,
        Test::Less => 10,
        Test::LessOrEqual => 11,
        Test::SignedLess => 12,
        Test::SignedLessOrEqual => 13,
    }
}

fn size_bits(size: Size) -> u8
    ensures is { result ≡ definitions.size_bits size }
    ensures is_small { result ≤ 24 }
{
    match size {
        Size::Word => 0,
        Size::Half => 8,
        Size::Byte => 16,
        Size::Double => 24,
    }
}

fn load_mode(extension: Extension) -> u8
    ensures is { result ≡ definitions.load_mode extension }
    ensures is_small { result ≤ 0x81 }
{
    match extension {
        Extension::Zero => 0x61,
        Extension::Sign => 0x81,
    }
}

fn store_class(source: Source) -> u8
    ensures is { result ≡ definitions.store_class source }
    ensures is_small { result ≤ 3 }
{
    match source {
        Source::Immediate(_) => 2,
        Source::Register(_) => 3,
    }
}

fn source_bit(source: Source) -> u8
    ensures is { result ≡ definitions.source_bit source }
    ensures is_small { result ≤ 8 }
{
    match source {
        Source::Register(_) => 8,
        Source::Immediate(_) => 0,
    }
}

fn opcode_byte(code: u8, source: Source, class: u8) -> u8
    requires code { code ≤ 13 }
    requires class { class ≤ 7 }
    ensures { result ≡ definitions.opcode_byte code source class }
{
    16 * code + (source_bit(source) + class)
}

fn order_opcode(order: ByteOrder) -> u8
    ensures { result ≡ definitions.order_opcode order }
{
    match order {
        ByteOrder::LittleEndian => 0xd4,
        ByteOrder::BigEndian => 0xdc,
        ByteOrder::Swapped => 0xd7,
    }
}

/// The opcode of a change of one number.
pub fn change_opcode(change: Change) -> u8
    ensures { result ≡ definitions.change_opcode change }
{
    match change {
        Change::Negate(width) => opcode_byte(8, Source::Immediate(0), arithmetic_class(width)),
        Change::Order(order, _) => order_opcode(order),
        Change::SignExtend(width, _) => opcode_byte(
            11,
            Source::Register(0),
            arithmetic_class(width),
        ),
    }
}

/// The opcode of an instruction, whatever its fields.
pub fn opcode_of(instruction: Instruction) -> u8
    ensures { result ≡ opcode_of instruction }
{
    match instruction {
        Instruction::Move(width, _, source) => opcode_byte(11, source, arithmetic_class(width)),
        Instruction::Compute(width, operation, _, source) => {
            opcode_byte(operation_code(operation), source, arithmetic_class(width))
        }
        Instruction::Load(size, extension, _, _, _) => load_mode(extension) + size_bits(size),
        Instruction::Unary(change, _, _) => change_opcode(change),
        Instruction::Store(size, _, _, source) => 0x60 + (store_class(source) + size_bits(size)),
        Instruction::JumpIf(width, test, _, source, _) => {
            opcode_byte(test_code(test), source, jump_class(width))
        }
        Instruction::Jump(Distance::Short(_)) => 0x05,
        Instruction::Jump(Distance::Long(_)) => 0x06,
        Instruction::Wide(_, _) => 0x18,
        Instruction::Call(_) => 0x85,
        Instruction::Exit => 0x95,
    }
}

// The place among `TEMPLATES` of each opcode's template, or their number where it has none. A row has
// the opcodes with the same high four bits.
#[rattlefmt::skip]
static PLACES: [u8; 256] = [
    117, 117, 117, 117, 16, 87, 88, 91, 117, 117, 117, 117, 17, 117, 117, 92,
    117, 117, 117, 117, 18, 43, 65, 93, 0, 117, 117, 117, 19, 44, 66, 94,
    117, 117, 117, 117, 20, 47, 69, 95, 117, 117, 117, 117, 21, 48, 70, 96,
    117, 117, 117, 117, 22, 49, 71, 97, 117, 117, 117, 117, 23, 50, 72, 98,
    117, 117, 117, 117, 24, 55, 77, 99, 117, 117, 117, 117, 25, 56, 78, 100,
    117, 117, 117, 117, 26, 45, 67, 101, 117, 117, 117, 117, 27, 46, 68, 102,
    117, 3, 10, 14, 28, 57, 79, 103, 117, 2, 9, 13, 29, 58, 80, 104,
    117, 1, 8, 12, 30, 59, 81, 105, 117, 4, 11, 15, 31, 60, 82, 106,
    117, 7, 117, 117, 38, 89, 117, 113, 117, 6, 117, 117, 117, 117, 117, 117,
    117, 5, 117, 117, 32, 90, 117, 107, 117, 117, 117, 117, 33, 117, 117, 108,
    117, 117, 117, 117, 34, 51, 73, 109, 117, 117, 117, 117, 35, 52, 74, 110,
    117, 117, 117, 117, 39, 53, 75, 114, 117, 117, 117, 117, 40, 54, 76, 115,
    117, 117, 117, 117, 36, 61, 83, 111, 117, 117, 117, 117, 37, 62, 84, 112,
    117, 117, 117, 117, 41, 63, 85, 116, 117, 117, 117, 117, 42, 64, 86, 117,
    117, 117, 117, 117, 117, 117, 117, 117, 117, 117, 117, 117, 117, 117, 117, 117,
    117, 117, 117, 117, 117, 117, 117, 117, 117, 117, 117, 117, 117, 117, 117, 117,
];

/// The place of an opcode's template among `TEMPLATES`, or their number if it has none.
fn place(opcode: u8) -> usize
    ensures { result ≡ position_or_len (λ template. opcode_of template == opcode) TEMPLATES }
{
    PLACES[opcode as usize] as usize
}

/// The instruction at a place, if there is one.
fn at_place(instructions: &[Instruction], place: usize) -> Option<Instruction>
    ensures { result ≡ slice_get instructions.now place }
{
    instructions.get(place).copied()
}

/// The first template that has an opcode.
fn first_with(opcode: u8) -> Option<Instruction>
    ensures { result ≡ find (λ template. opcode_of template == opcode) TEMPLATES }
{
    at_place(&TEMPLATES, place(opcode))
}

/// Whether it is a call or a 64-bit immediate of another kind than the profile's.
fn is_other_kind(fields: SlotFields) -> bool
    ensures { result ≡ definitions.is_other_kind (view fields) }
{
    (fields.opcode == 0x18 || fields.opcode == 0x85) && fields.src != 0
}

/// The profile's instruction with the opcode of some fields, with 0 in its own; the first where an
/// opcode has several.
#[tactic(auto, unfolding(machine_spec::specs::Opcodes::template_of))]
pub fn template_of(fields: SlotFields) -> Option<Instruction>
    ensures { result ≡ definitions.template_of (view fields) }
{
    if is_other_kind(fields) {
        None
    } else {
        first_with(fields.opcode)
    }
}

fn is_one_of(opcodes: &[u8], opcode: u8) -> bool
    ensures { result ≡ list_any (λ known. known == opcode) opcodes.now }
{
    opcodes.iter().any(|known| *known == opcode)
}

/// Whether RFC 9669 has the opcode for an instruction that the profile leaves out.
#[tactic(auto, unfolding(machine_spec::specs::Opcodes::is_left_out))]
pub fn is_left_out(opcode: u8) -> bool
    ensures { result ≡ definitions.is_left_out opcode }
{
    is_one_of(
        &[0x18, 0x20, 0x28, 0x30, 0x40, 0x48, 0x50, 0x85, 0xc3, 0xdb],
        opcode,
    )
}
