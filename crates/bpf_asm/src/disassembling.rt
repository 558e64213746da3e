//! From code to its text.

ghost use Rattle.std.specs.Prelude.{◌≡◌, ◌++◌, [], ◌∷◌, IfOk, OnOk, string_bytes, decimal};
ghost use Rattle.std.specs.Fmt.{signed_decimal};
ghost use Rattle.machine_spec.specs.Image.{IsCodeOf};
ghost use Rattle.bpf_asm.specs.Numbers.{distance_text};
ghost use Rattle.bpf_asm.specs.Operands.{register_text, source_text, place_text};
ghost use Rattle.bpf_asm.specs.Writing as definitions;
ghost use Rattle.bpf_asm.specs.Writing.{operands_of, operands_text, line_text, text_of};

use crate::operand::{push_distance, push_place, push_register, push_source};
use crate::word::word_of;
use bpf_isa::Code;
use machine_spec::{Change, Distance, Instruction, Source};
use std::alloc::{AllocError, Global};

fn push_register_and_source(text: &mut String, dst: u8, source: Source) -> Result<(), AllocError>
    ensures { OnOk result (string_bytes text.new ≡ string_bytes text.old ++ operands_text (register_text dst ∷ source_text source ∷ [])) }
{
    text.push_str(" ")?;
    push_register(text, dst)?;
    text.push_str(", ")?;
    push_source(text, source)
}

fn push_register_and_place(
    text: &mut String,
    dst: u8,
    base: u8,
    offset: i16,
) -> Result<(), AllocError>
    ensures { OnOk result (string_bytes text.new ≡ string_bytes text.old ++ operands_text (register_text dst ∷ place_text base offset ∷ [])) }
{
    text.push_str(" ")?;
    push_register(text, dst)?;
    text.push_str(", ")?;
    push_place(text, base, offset)
}

fn push_place_and_source(
    text: &mut String,
    base: u8,
    offset: i16,
    source: Source,
) -> Result<(), AllocError>
    ensures { OnOk result (string_bytes text.new ≡ string_bytes text.old ++ operands_text (place_text base offset ∷ source_text source ∷ [])) }
{
    text.push_str(" ")?;
    push_place(text, base, offset)?;
    text.push_str(", ")?;
    push_source(text, source)
}

fn push_condition(text: &mut String, dst: u8, source: Source, offset: i16) -> Result<(), AllocError>
    ensures { OnOk result (string_bytes text.new ≡ string_bytes text.old ++ operands_text (register_text dst ∷ source_text source ∷ distance_text offset ∷ [])) }
{
    push_register_and_source(text, dst, source)?;
    text.push_str(", ")?;
    push_distance(text, i32::from(offset))
}

fn push_one_register(text: &mut String, register: u8) -> Result<(), AllocError>
    ensures { OnOk result (string_bytes text.new ≡ string_bytes text.old ++ operands_text (register_text register ∷ [])) }
{
    text.push_str(" ")?;
    push_register(text, register)
}

fn push_change(text: &mut String, change: Change, dst: u8, src: u8) -> Result<(), AllocError>
    ensures { OnOk result (string_bytes text.new ≡ string_bytes text.old ++ operands_text (definitions.change_operands change dst src)) }
{
    match change {
        Change::Negate(_) | Change::Order(_, _) => push_one_register(text, dst),
        Change::SignExtend(_, _) => { push_register_and_source(text, dst, Source::Register(src)) }
    }
}

fn push_jump(text: &mut String, distance: Distance) -> Result<(), AllocError>
    ensures { OnOk result (string_bytes text.new ≡ string_bytes text.old ++ operands_text (definitions.jump_text distance ∷ [])) }
{
    text.push_str(" ")?;
    match distance {
        Distance::Short(offset) => push_distance(text, i32::from(offset)),
        Distance::Long(offset) => push_distance(text, offset),
    }
}

fn push_wide(text: &mut String, dst: u8, number: u64) -> Result<(), AllocError>
    ensures { OnOk result (string_bytes text.new ≡ string_bytes text.old ++ operands_text (register_text dst ∷ decimal number ∷ [])) }
{
    push_one_register(text, dst)?;
    write!(text, ", {number}")
}

fn push_call(text: &mut String, number: i32) -> Result<(), AllocError>
    ensures { OnOk result (string_bytes text.new ≡ string_bytes text.old ++ operands_text (signed_decimal number ∷ [])) }
{
    write!(text, " {number}")
}

/// Appends the operands of an instruction, with a space before them.
fn push_operands(text: &mut String, instruction: Instruction) -> Result<(), AllocError>
    ensures { OnOk result (string_bytes text.new ≡ string_bytes text.old ++ operands_text (operands_of instruction)) }
{
    match instruction {
        Instruction::Move(_, dst, source) => push_register_and_source(text, dst, source),
        Instruction::Compute(_, _, dst, source) => push_register_and_source(text, dst, source),
        Instruction::Load(_, _, dst, base, offset) => {
            push_register_and_place(text, dst, base, offset)
        }
        Instruction::Unary(change, dst, src) => push_change(text, change, dst, src),
        Instruction::Store(_, base, offset, source) => {
            push_place_and_source(text, base, offset, source)
        }
        Instruction::JumpIf(_, _, dst, source, offset) => {
            push_condition(text, dst, source, offset)
        }
        Instruction::Jump(distance) => push_jump(text, distance),
        Instruction::Wide(dst, number) => push_wide(text, dst, number),
        Instruction::Call(number) => push_call(text, number),
        Instruction::Exit => Ok(()),
    }
}

/// Appends the line of an instruction. It fails only where memory runs out; the text may then end
/// within the line.
#[tactic(auto, unfolding(crate::specs::Writing::line_text))]
pub fn push_line(text: &mut String, instruction: Instruction) -> Result<(), AllocError>
    ensures { OnOk result (string_bytes text.new ≡ string_bytes text.old ++ line_text instruction) }
{
    text.push_str(word_of(instruction))?;
    push_operands(text, instruction)?;
    text.push_str("\n")
}

/// The text of code: a line for each instruction. It fails only where memory runs out.
pub fn disassemble(alloc: Global, code: &Code) -> Result<String, AllocError>
    ensures { IfOk result (λ text. string_bytes text ≡ text_of code.now) }
{
    let mut text = String::new(alloc);
    for k in 0..code.len() {
        push_line(&mut text, code.instr(k))?;
    }
    Ok(text)
}
