//! Which fields an instruction uses, and the instruction that a template makes of them.

ghost use Rattle.std.specs.Prelude.{◌≡◌, ◌+◌, ◌*◌, ◌^◌, option_map};
ghost use Rattle.std.specs.Int.{w32, cast_unsigned};
ghost use Rattle.machine_spec.specs.Opcodes as definitions;
ghost use Rattle.bpf_isa.specs.Views.{view, view_uses};

use crate::slot::SlotFields;
use machine_spec::{
    ByteOrder, Change, Distance, ExtendedWidth, Instruction, Operation, Source, SwappedWidth, Width,
};

/// The fields beside the opcode that an instruction uses.
#[derive(Clone, Copy)]
pub struct UsedFields {
    pub dst: bool,
    pub src: bool,
    pub offset: bool,
    pub imm: bool,
}

fn source_uses(source: Source, offset: bool) -> UsedFields
    ensures { view_uses result ≡ definitions.uses_source source offset }
{
    match source {
        Source::Register(_) => UsedFields {
            dst: true,
            src: true,
            offset,
            imm: false,
        },
        Source::Immediate(_) => UsedFields {
            dst: true,
            src: false,
            offset,
            imm: true,
        },
    }
}

fn is_register(source: Source) -> bool
    ensures { result ≡ definitions.is_register source }
{
    match source {
        Source::Register(_) => true,
        Source::Immediate(_) => false,
    }
}

/// Whether an operation is a quotient or a remainder, which has a signed form.
fn has_signed_form(operation: Operation) -> bool
    ensures { result ≡ definitions.has_signed_form operation }
{
    match operation {
        Operation::Div | Operation::SignedDiv | Operation::Mod | Operation::SignedMod => true,
        Operation::Add
        | Operation::Sub
        | Operation::Mul
        | Operation::Or
        | Operation::And
        | Operation::LeftShift
        | Operation::RightShift
        | Operation::Xor
        | Operation::ArithmeticRightShift => false,
    }
}

fn change_uses(change: Change) -> UsedFields
    ensures { view_uses result ≡ definitions.change_uses change }
{
    match change {
        Change::Negate(_) => UsedFields {
            dst: true,
            src: false,
            offset: false,
            imm: false,
        },
        Change::Order(_, _) => UsedFields {
            dst: true,
            src: false,
            offset: false,
            imm: true,
        },
        Change::SignExtend(_, _) => UsedFields {
            dst: true,
            src: true,
            offset: true,
            imm: false,
        },
    }
}

/// A short distance is in the offset, a long one in the immediate.
fn distance_uses(distance: Distance) -> UsedFields
    ensures { view_uses result ≡ definitions.uses_of (Instruction.Jump distance) }
{
    match distance {
        Distance::Short(_) => UsedFields {
            dst: false,
            src: false,
            offset: true,
            imm: false,
        },
        Distance::Long(_) => UsedFields {
            dst: false,
            src: false,
            offset: false,
            imm: true,
        },
    }
}

/// The fields that an instruction uses.
pub fn uses(instruction: Instruction) -> UsedFields
    ensures { view_uses result ≡ definitions.uses_of instruction }
{
    match instruction {
        Instruction::Move(_, _, source) => source_uses(source, is_register(source)),
        Instruction::Compute(_, operation, _, source) => {
            source_uses(source, has_signed_form(operation))
        }
        Instruction::Load(_, _, _, _, _) => UsedFields {
            dst: true,
            src: true,
            offset: true,
            imm: false,
        },
        Instruction::Unary(change, _, _) => change_uses(change),
        Instruction::Store(_, _, _, source) | Instruction::JumpIf(_, _, _, source, _) => {
            source_uses(source, true)
        }
        Instruction::Jump(distance) => distance_uses(distance),
        Instruction::Wide(_, _) => UsedFields {
            dst: true,
            src: false,
            offset: false,
            imm: true,
        },
        Instruction::Call(_) => UsedFields {
            dst: false,
            src: false,
            offset: false,
            imm: true,
        },
        Instruction::Exit => UsedFields {
            dst: false,
            src: false,
            offset: false,
            imm: false,
        },
    }
}

/// Whether the register fields that are used name r0 to r10.
pub fn has_registers(uses: UsedFields, fields: SlotFields) -> bool
    ensures { result ≡ definitions.has_registers (view_uses uses) (view fields) }
{
    (!uses.dst || fields.dst <= 10) && (!uses.src || fields.src <= 10)
}

/// Whether the fields that are not used are 0.
pub fn has_zeros(uses: UsedFields, fields: SlotFields) -> bool
    ensures { result ≡ definitions.has_zeros (view_uses uses) (view fields) }
{
    (uses.dst || fields.dst == 0)
        && (uses.src || fields.src == 0)
        && (uses.offset || fields.offset == 0)
        && (uses.imm || fields.imm == 0)
}

fn filled_source(source: Source, fields: SlotFields) -> Source
    ensures { result ≡ definitions.filled_source source (view fields) }
{
    match source {
        Source::Register(_) => Source::Register(fields.src),
        Source::Immediate(_) => Source::Immediate(fields.imm),
    }
}

/// The unsigned operation at offset 0, the signed one at offset 1.
fn signed_where(unsigned: Operation, signed: Operation, offset: i16) -> Option<Operation>
    ensures { result ≡ definitions.signed_where unsigned signed offset }
{
    match offset {
        0 => Some(unsigned),
        1 => Some(signed),
        _ => None,
    }
}

/// The operation that an offset selects.
fn chosen_operation(operation: Operation, offset: i16) -> Option<Operation>
    ensures { result ≡ definitions.chosen_operation operation offset }
{
    match operation {
        Operation::Div | Operation::SignedDiv => {
            signed_where(Operation::Div, Operation::SignedDiv, offset)
        }
        Operation::Mod | Operation::SignedMod => {
            signed_where(Operation::Mod, Operation::SignedMod, offset)
        }
        Operation::Add
        | Operation::Sub
        | Operation::Mul
        | Operation::Or
        | Operation::And
        | Operation::LeftShift
        | Operation::RightShift
        | Operation::Xor
        | Operation::ArithmeticRightShift => Some(operation),
    }
}

/// How many bits an offset has a move extend.
fn extended_by(offset: i16) -> Option<ExtendedWidth>
    ensures { result ≡ definitions.extended_by offset }
{
    if offset == 8 {
        Some(ExtendedWidth::Bits8)
    } else if offset == 16 {
        Some(ExtendedWidth::Bits16)
    } else if offset == 32 {
        Some(ExtendedWidth::Bits32)
    } else {
        None
    }
}

/// The move that extends `part` bits; one of 32 bits extends fewer.
fn extending(width: Width, dst: u8, src: u8, part: Option<ExtendedWidth>) -> Option<Instruction>
    ensures { result ≡ definitions.extending width dst src part }
{
    let part = part?;
    match (width, part) {
        (Width::Bits32, ExtendedWidth::Bits32) => None,
        (_, _) => Some(Instruction::Unary(Change::SignExtend(width, part), dst, src)),
    }
}

/// A move from a register, which an offset may have extend some bits.
fn moving(width: Width, dst: u8, src: u8, offset: i16) -> Option<Instruction>
    ensures { result ≡ definitions.moving width dst src offset }
{
    if offset == 0 {
        Some(Instruction::Move(width, dst, Source::Register(src)))
    } else {
        extending(width, dst, src, extended_by(offset))
    }
}

/// How many bits an immediate has a byte order keep.
fn swapped_by(imm: i32) -> Option<SwappedWidth>
    ensures { result ≡ definitions.swapped_by imm }
{
    if imm == 16 {
        Some(SwappedWidth::Bits16)
    } else if imm == 32 {
        Some(SwappedWidth::Bits32)
    } else if imm == 64 {
        Some(SwappedWidth::Bits64)
    } else {
        None
    }
}

fn computing(
    width: Width,
    dst: u8,
    source: Source,
    operation: Option<Operation>,
) -> Option<Instruction>
    ensures { result ≡ option_map (λ o. Instruction.Compute width o dst source) operation }
{
    match operation {
        Some(operation) => Some(Instruction::Compute(width, operation, dst, source)),
        None => None,
    }
}

fn ordering(order: ByteOrder, dst: u8, width: Option<SwappedWidth>) -> Option<Instruction>
    ensures { result ≡ option_map (λ w. Instruction.Unary (Change.Order order w) dst dst) width }
{
    match width {
        Some(width) => Some(Instruction::Unary(Change::Order(order, width), dst, dst)),
        None => None,
    }
}

fn changing(change: Change, fields: SlotFields) -> Option<Instruction>
    ensures { result ≡ definitions.changing change (view fields) }
{
    match change {
        Change::Negate(width) => Some(Instruction::Unary(
            Change::Negate(width),
            fields.dst,
            fields.dst,
        )),
        Change::Order(order, _) => ordering(order, fields.dst, swapped_by(fields.imm)),
        Change::SignExtend(width, _) => moving(width, fields.dst, fields.src, fields.offset),
    }
}

fn filled_move(width: Width, source: Source, fields: SlotFields) -> Option<Instruction>
    ensures { result ≡ definitions.filled_move width source (view fields) }
{
    match source {
        Source::Register(_) => moving(width, fields.dst, fields.src, fields.offset),
        Source::Immediate(_) => Some(Instruction::Move(
            width,
            fields.dst,
            Source::Immediate(fields.imm),
        )),
    }
}

fn filled_distance(distance: Distance, fields: SlotFields) -> Option<Instruction>
    ensures { result ≡ definitions.with_fields (Instruction.Jump distance) (view fields) }
{
    Some(Instruction::Jump(match distance {
        Distance::Short(_) => Distance::Short(fields.offset),
        Distance::Long(_) => Distance::Long(fields.imm),
    }))
}

/// The number with these halves.
fn wide_number(upper: u32, lower: u32) -> u64
    ensures { result ≡ upper * 2 ^ 32 + lower }
{
    u64::from(upper) * 0x1_0000_0000 + u64::from(lower)
}

/// A 64-bit immediate, if its second slot gives the upper half.
fn widening(dst: u8, imm: i32, upper: Option<u32>) -> Option<Instruction>
    ensures { result ≡ option_map (λ u. Instruction.Wide dst (u * 2 ^ 32 + cast_unsigned w32 imm)) upper }
{
    match upper {
        Some(upper) => Some(Instruction::Wide(dst, wide_number(upper, imm.cast_unsigned()))),
        None => None,
    }
}

/// A template with these fields in place of its own, if they encode an instruction.
pub fn with_fields(template: Instruction, fields: SlotFields) -> Option<Instruction>
    ensures { result ≡ definitions.with_fields template (view fields) }
{
    let dst = fields.dst;
    let offset = fields.offset;
    match template {
        Instruction::Move(width, _, source) => filled_move(width, source, fields),
        Instruction::Compute(width, operation, _, source) => computing(
            width,
            dst,
            filled_source(source, fields),
            chosen_operation(operation, offset),
        ),
        Instruction::Load(size, extension, _, _, _) => {
            Some(Instruction::Load(size, extension, dst, fields.src, offset))
        }
        Instruction::Unary(change, _, _) => changing(change, fields),
        Instruction::Store(size, _, _, source) => Some(Instruction::Store(
            size,
            dst,
            offset,
            filled_source(source, fields),
        )),
        Instruction::JumpIf(width, test, _, source, _) => Some(Instruction::JumpIf(
            width,
            test,
            dst,
            filled_source(source, fields),
            offset,
        )),
        Instruction::Jump(distance) => filled_distance(distance, fields),
        Instruction::Wide(_, _) => widening(dst, fields.imm, fields.upper),
        Instruction::Call(_) => Some(Instruction::Call(fields.imm)),
        Instruction::Exit => Some(Instruction::Exit),
    }
}
