//! The instruction that a line says.

ghost use Rattle.std.specs.Prelude.{◌≡◌, option_map};
ghost use Rattle.bpf_asm.specs.Reading as definitions;
ghost use Rattle.bpf_asm.specs.Reading.{operands_in, rest_of, is_space, single, pair, triple, with_one, with_two, with_three};
ghost use Rattle.bpf_asm.specs.Operands as operands;
ghost use Rattle.bpf_asm.specs.Words as words;
ghost use Rattle.std.specs.List.{before_first};

use crate::fault::{LineFault, both};
use crate::line::{one, three, trimmed, two, word_and_rest};
use crate::operand::{immediate, long, place, register, short, source, wide};
use crate::word::form_named;
use machine_spec::{Change, Distance, Instruction, Source};

/// The one operand, which is a register.
fn one_register(rest: Option<&[u8]>) -> Result<u8, LineFault>
    ensures { result ≡ with_one operands.read_register (single (operands_in (option_map (λ r. r.now) rest.entry))) }
{
    match one(rest) {
        Some(text) => register(text),
        None => Err(LineFault::Operand),
    }
}

/// A register and a register or a number.
fn register_and_source(rest: Option<&[u8]>) -> Result<(u8, Source), LineFault>
    ensures { result ≡ with_two operands.read_register operands.read_source (pair (operands_in (option_map (λ r. r.now) rest.entry))) }
{
    match two(rest) {
        Some((dst, operand)) => both(register(dst), source(operand)),
        None => Err(LineFault::Operand),
    }
}

fn change(change: Change, rest: Option<&[u8]>) -> Result<Instruction, LineFault>
    ensures { result ≡ definitions.read_change change (operands_in (option_map (λ r. r.now) rest.entry)) }
{
    match change {
        Change::Negate(_) | Change::Order(_, _) => {
            let dst = one_register(rest)?;
            Ok(Instruction::Unary(change, dst, dst))
        }
        Change::SignExtend(_, _) => match two(rest) {
            Some((dst, src)) => {
                let (dst, src) = both(register(dst), register(src))?;
                Ok(Instruction::Unary(change, dst, src))
            }
            None => Err(LineFault::Operand),
        },
    }
}

/// What a store stores, which the form says to be a register or a number.
fn with_source(source: Source, text: &[u8]) -> Result<Source, LineFault>
    ensures { result ≡ definitions.read_stored source text.now }
{
    match source {
        Source::Register(_) => Ok(Source::Register(register(text)?)),
        Source::Immediate(_) => Ok(Source::Immediate(immediate(text)?)),
    }
}

fn place_and_stored(source: Source, rest: Option<&[u8]>) -> Result<((u8, i16), Source), LineFault>
    ensures { result ≡ with_two operands.read_place (definitions.read_stored source) (pair (operands_in (option_map (λ r. r.now) rest.entry))) }
{
    match two(rest) {
        Some((base, operand)) => both(place(base), with_source(source, operand)),
        None => Err(LineFault::Operand),
    }
}

fn register_and_place(rest: Option<&[u8]>) -> Result<(u8, (u8, i16)), LineFault>
    ensures { result ≡ with_two operands.read_register operands.read_place (pair (operands_in (option_map (λ r. r.now) rest.entry))) }
{
    match two(rest) {
        Some((dst, operand)) => both(register(dst), place(operand)),
        None => Err(LineFault::Operand),
    }
}

fn register_and_wide(rest: Option<&[u8]>) -> Result<(u8, u64), LineFault>
    ensures { result ≡ with_two operands.read_register operands.read_wide (pair (operands_in (option_map (λ r. r.now) rest.entry))) }
{
    match two(rest) {
        Some((dst, number)) => both(register(dst), wide(number)),
        None => Err(LineFault::Operand),
    }
}

/// A register, a register or a number, and a distance.
fn condition(rest: Option<&[u8]>) -> Result<((u8, Source), i16), LineFault>
    ensures { result ≡ with_three operands.read_register operands.read_source operands.read_short (triple (operands_in (option_map (λ r. r.now) rest.entry))) }
{
    match three(rest) {
        Some((dst, operand, offset)) => {
            both(both(register(dst), source(operand)), short(offset))
        }
        None => Err(LineFault::Operand),
    }
}

fn read_distance(distance: Distance, text: &[u8]) -> Result<Distance, LineFault>
    ensures { result ≡ definitions.read_distance distance text.now }
{
    match distance {
        Distance::Short(_) => Ok(Distance::Short(short(text)?)),
        Distance::Long(_) => Ok(Distance::Long(long(text)?)),
    }
}

fn jump(distance: Distance, rest: Option<&[u8]>) -> Result<Distance, LineFault>
    ensures { result ≡ with_one (definitions.read_distance distance) (single (operands_in (option_map (λ r. r.now) rest.entry))) }
{
    match one(rest) {
        Some(text) => read_distance(distance, text),
        None => Err(LineFault::Operand),
    }
}

fn call(rest: Option<&[u8]>) -> Result<i32, LineFault>
    ensures { result ≡ with_one operands.read_immediate (single (operands_in (option_map (λ r. r.now) rest.entry))) }
{
    match one(rest) {
        Some(text) => immediate(text),
        None => Err(LineFault::Operand),
    }
}

/// The instruction of a form, with these operands.
fn with_operands(form: Instruction, rest: Option<&[u8]>) -> Result<Instruction, LineFault>
    ensures { result ≡ definitions.read_operands form (operands_in (option_map (λ r. r.now) rest.entry)) }
{
    match form {
        Instruction::Move(width, _, _) => {
            let (dst, source) = register_and_source(rest)?;
            Ok(Instruction::Move(width, dst, source))
        }
        Instruction::Compute(width, operation, _, _) => {
            let (dst, source) = register_and_source(rest)?;
            Ok(Instruction::Compute(width, operation, dst, source))
        }
        Instruction::Load(size, extension, _, _, _) => {
            let (dst, (base, offset)) = register_and_place(rest)?;
            Ok(Instruction::Load(size, extension, dst, base, offset))
        }
        Instruction::Unary(form, _, _) => change(form, rest),
        Instruction::Store(size, _, _, source) => {
            let ((base, offset), source) = place_and_stored(source, rest)?;
            Ok(Instruction::Store(size, base, offset, source))
        }
        Instruction::JumpIf(width, test, _, _, _) => {
            let ((dst, source), offset) = condition(rest)?;
            Ok(Instruction::JumpIf(width, test, dst, source, offset))
        }
        Instruction::Jump(distance) => Ok(Instruction::Jump(jump(distance, rest)?)),
        Instruction::Wide(_, _) => {
            let (dst, number) = register_and_wide(rest)?;
            Ok(Instruction::Wide(dst, number))
        }
        Instruction::Call(_) => Ok(Instruction::Call(call(rest)?)),
        Instruction::Exit => match rest {
            Some(_) => Err(LineFault::Operand),
            None => Ok(Instruction::Exit),
        },
    }
}

/// The instruction of a line with neither spaces at its ends nor a comment, or the line's fault.
fn instruction(line: &[u8]) -> Result<Instruction, LineFault>
    ensures { result ≡ definitions.read_form (words.form_named (before_first is_space line.now)) (rest_of line.now) }
{
    let (word, rest) = word_and_rest(line);
    match form_named(word) {
        Some(form) => with_operands(form, rest),
        None => Err(LineFault::Word),
    }
}

/// The instruction that a line says, if it says one, or the line's fault.
#[tactic(auto, unfolding(crate::specs::Reading::read_line))]
pub fn read(line: &[u8]) -> Result<Option<Instruction>, LineFault>
    ensures { result ≡ definitions.read_line line.now }
{
    let line = trimmed(line);
    if line.is_empty() || line[0] == b'#' {
        return Ok(None);
    }
    Ok(Some(instruction(line)?))
}
