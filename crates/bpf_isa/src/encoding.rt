//! From code to its image.

ghost use Rattle.std.specs.Prelude.{◌≡◌, ◌/◌, ◌%◌, ◌^◌, ◌≤◌, ◌++◌, IfOk, OnOk, List, ℕ, pos, None};
ghost use Rattle.machine_spec.specs.Arithmetic.{swapped_bits, extended_bits};
ghost use Rattle.machine_spec.specs.Image.{IsCodeOf};
ghost use Rattle.bpf_isa.specs.Code.{AreBytes};
ghost use Rattle.bpf_isa.specs.Spelling as spells;
ghost use Rattle.bpf_isa.specs.Spelling.{spelled_fields, first_bytes, second_bytes, spelling, HasRegisters};
ghost use Rattle.bpf_isa.specs.Views.{view};

use crate::code::Code;
use crate::opcode::{change_opcode, opcode_of};
use crate::slot::SlotFields;
use machine_spec::{Change, Distance, ExtendedWidth, Instruction, Operation, Source, SwappedWidth};
use std::alloc::{AllocError, Global};

/// The fields of an instruction with a second operand.
fn operand_fields(opcode: u8, dst: u8, source: Source, offset: i16) -> SlotFields
    ensures { view result ≡ record { opcode = opcode; dst = dst; src = spells.source_register source; offset = offset; imm = spells.source_imm source; upper = None } }
{
    match source {
        Source::Register(src) => SlotFields {
            opcode,
            dst,
            src,
            offset,
            imm: 0,
            upper: None,
        },
        Source::Immediate(imm) => SlotFields {
            opcode,
            dst,
            src: 0,
            offset,
            imm,
            upper: None,
        },
    }
}

/// The offset that selects a signed quotient or remainder.
fn operation_offset(operation: Operation) -> i16
    ensures { result ≡ spells.operation_offset operation }
{
    match operation {
        Operation::SignedDiv | Operation::SignedMod => 1,
        Operation::Add
        | Operation::Sub
        | Operation::Mul
        | Operation::Div
        | Operation::Or
        | Operation::And
        | Operation::LeftShift
        | Operation::RightShift
        | Operation::Mod
        | Operation::Xor
        | Operation::ArithmeticRightShift => 0,
    }
}

fn swapped_bits(width: SwappedWidth) -> i32
    ensures { result ≡ pos (swapped_bits width) }
{
    match width {
        SwappedWidth::Bits16 => 16,
        SwappedWidth::Bits32 => 32,
        SwappedWidth::Bits64 => 64,
    }
}

fn extended_bits(part: ExtendedWidth) -> i16
    ensures { result ≡ pos (extended_bits part) }
{
    match part {
        ExtendedWidth::Bits8 => 8,
        ExtendedWidth::Bits16 => 16,
        ExtendedWidth::Bits32 => 32,
    }
}

fn change_fields(change: Change, dst: u8, src: u8) -> SlotFields
    ensures { view result ≡ spelled_fields (Instruction.Unary change dst src) }
{
    let opcode = change_opcode(change);
    match change {
        Change::Negate(_) => operand_fields(opcode, dst, Source::Immediate(0), 0),
        Change::Order(_, width) => {
            operand_fields(opcode, dst, Source::Immediate(swapped_bits(width)), 0)
        }
        Change::SignExtend(_, part) => {
            operand_fields(opcode, dst, Source::Register(src), extended_bits(part))
        }
    }
}

fn lower_half(number: u64) -> u32
    ensures { result ≡ number % 2 ^ 32 }
{
    (number % 0x1_0000_0000) as u32
}

fn upper_half(number: u64) -> u32
    ensures { result ≡ number / 2 ^ 32 }
{
    (number / 0x1_0000_0000) as u32
}

fn distance_fields(distance: Distance) -> SlotFields
    ensures { view result ≡ spelled_fields (Instruction.Jump distance) }
{
    match distance {
        Distance::Short(slots) => operand_fields(0x05, 0, Source::Immediate(0), slots),
        Distance::Long(slots) => operand_fields(0x06, 0, Source::Immediate(slots), 0),
    }
}

fn wide_fields(dst: u8, number: u64) -> SlotFields
    ensures { view result ≡ spelled_fields (Instruction.Wide dst number) }
{
    SlotFields {
        opcode: 0x18,
        dst,
        src: 0,
        offset: 0,
        imm: lower_half(number).cast_signed(),
        upper: Some(upper_half(number)),
    }
}

/// The fields of an instruction; those that it does not use are 0.
fn fields(instruction: Instruction) -> SlotFields
    ensures { view result ≡ spelled_fields instruction }
{
    let opcode = opcode_of(instruction);
    match instruction {
        Instruction::Move(_, dst, source) => operand_fields(opcode, dst, source, 0),
        Instruction::Compute(_, operation, dst, source) => {
            operand_fields(opcode, dst, source, operation_offset(operation))
        }
        Instruction::Load(_, _, dst, base, offset) => {
            operand_fields(opcode, dst, Source::Register(base), offset)
        }
        Instruction::Unary(change, dst, src) => change_fields(change, dst, src),
        Instruction::Store(_, base, offset, source) => {
            operand_fields(opcode, base, source, offset)
        }
        Instruction::JumpIf(_, _, dst, source, offset) => {
            operand_fields(opcode, dst, source, offset)
        }
        Instruction::Jump(distance) => distance_fields(distance),
        Instruction::Wide(dst, number) => wide_fields(dst, number),
        Instruction::Call(number) => operand_fields(opcode, 0, Source::Immediate(number), 0),
        Instruction::Exit => operand_fields(opcode, 0, Source::Immediate(0), 0),
    }
}

/// The 8 bytes of the first slot with these fields.
fn first_slot(fields: SlotFields) -> [u8; 8]
    requires dst { fields.dst ≤ 10 }
    requires src { fields.src ≤ 10 }
    ensures { result ≡ first_bytes (view fields) }
{
    let offset = fields.offset.to_le_bytes();
    let imm = fields.imm.to_le_bytes();
    [
        fields.opcode,
        fields.dst + 16 * fields.src,
        offset[0],
        offset[1],
        imm[0],
        imm[1],
        imm[2],
        imm[3],
    ]
}

/// Appends the second slot of a 64-bit immediate.
fn put_second(out: &mut Vec<u8>, upper: Option<u32>) -> Result<(), AllocError>
    ensures { OnOk result (out.new.items ≡ out.old.items ++ second_bytes upper) }
{
    match upper {
        Some(upper) => {
            let upper = upper.to_le_bytes();
            let bytes = [0, 0, 0, 0, upper[0], upper[1], upper[2], upper[3]];
            out.extend_from_slice(&bytes)
        }
        None => Ok(()),
    }
}

/// Appends the bytes of an instruction: 8, of a 64-bit immediate 16. It fails only where memory
/// runs out; some of the bytes may then be there.
#[tactic(auto, unfolding(crate::specs::Spelling::spelling))]
pub fn put(out: &mut Vec<u8>, instruction: Instruction) -> Result<(), AllocError>
    requires { HasRegisters instruction }
    ensures { OnOk result (out.new.items ≡ out.old.items ++ spelling instruction) }
{
    let fields = fields(instruction);
    let bytes = first_slot(fields);
    out.extend_from_slice(&bytes)?;
    put_second(out, fields.upper)?;
    Ok(())
}

/// The one image that has this code. It fails only where memory runs out.
pub fn encode(alloc: Global, code: &Code) -> Result<Vec<u8>, AllocError>
    // The code is the image's.
    ensures is_code { IfOk result (λ v. IsCodeOf v.items code.now) }
    // No other image has it.
    ensures only { IfOk result (λ v. (image : List ℕ) → AreBytes image → IsCodeOf image code.now → v.items ≡ image) }
{
    let count = code.len();
    let mut out = Vec::with_capacity(alloc, 8 * count)?;
    for k in 0..count {
        put(&mut out, code.instr(k))?;
    }
    Ok(out)
}
