//! The word of each instruction, and the instruction of each word.

ghost use Rattle.std.specs.Prelude.{◌≡◌, ◌++◌, codes, find};
ghost use Rattle.std.specs.Str.{bytes_eq};
ghost use Rattle.bpf_asm.specs.Words as definitions;
ghost use Rattle.machine_spec.specs.declared.operation.Width.TheVariants as widths;
ghost use Rattle.machine_spec.specs.declared.operation.Change.TheVariants as changes;

use machine_spec::{
    ByteOrder, Change, Distance, ExtendedWidth, Extension, Instruction, Operation, Size, Source,
    SwappedWidth, TEMPLATES, Test, Width,
};

const NUMBER: Source = Source::Immediate(0);

/// Where an opcode is that of several instructions, those that `TEMPLATES` leaves out, with 0 in
/// their fields; where a second operand may be a number or a register, a number.
const OTHER_FORMS: [Instruction; 15] = [
    Instruction::Compute(Width::Bits32, Operation::SignedDiv, 0, NUMBER),
    Instruction::Compute(Width::Bits32, Operation::SignedMod, 0, NUMBER),
    Instruction::Unary(
        Change::SignExtend(Width::Bits32, ExtendedWidth::Bits8),
        0,
        0,
    ),
    Instruction::Unary(
        Change::SignExtend(Width::Bits32, ExtendedWidth::Bits16),
        0,
        0,
    ),
    Instruction::Unary(
        Change::Order(ByteOrder::LittleEndian, SwappedWidth::Bits32),
        0,
        0,
    ),
    Instruction::Unary(
        Change::Order(ByteOrder::LittleEndian, SwappedWidth::Bits64),
        0,
        0,
    ),
    Instruction::Unary(
        Change::Order(ByteOrder::BigEndian, SwappedWidth::Bits32),
        0,
        0,
    ),
    Instruction::Unary(
        Change::Order(ByteOrder::BigEndian, SwappedWidth::Bits64),
        0,
        0,
    ),
    Instruction::Compute(Width::Bits64, Operation::SignedDiv, 0, NUMBER),
    Instruction::Compute(Width::Bits64, Operation::SignedMod, 0, NUMBER),
    Instruction::Unary(
        Change::SignExtend(Width::Bits64, ExtendedWidth::Bits8),
        0,
        0,
    ),
    Instruction::Unary(
        Change::SignExtend(Width::Bits64, ExtendedWidth::Bits16),
        0,
        0,
    ),
    Instruction::Unary(
        Change::SignExtend(Width::Bits64, ExtendedWidth::Bits32),
        0,
        0,
    ),
    Instruction::Unary(
        Change::Order(ByteOrder::Swapped, SwappedWidth::Bits32),
        0,
        0,
    ),
    Instruction::Unary(
        Change::Order(ByteOrder::Swapped, SwappedWidth::Bits64),
        0,
        0,
    ),
];

fn operation_word_32(operation: Operation) -> &'static str
    ensures { result.now ≡ definitions.operation_text operation ++ definitions.width_text widths.Bits32 }
{
    match operation {
        Operation::Add => "add32",
        Operation::Sub => "sub32",
        Operation::Mul => "mul32",
        Operation::Div => "div32",
        Operation::SignedDiv => "sdiv32",
        Operation::Or => "or32",
        Operation::And => "and32",
        Operation::LeftShift => "lsh32",
        Operation::RightShift => "rsh32",
        Operation::Mod => "mod32",
        Operation::SignedMod => "smod32",
        Operation::Xor => "xor32",
        Operation::ArithmeticRightShift => "arsh32",
    }
}

fn operation_word_64(operation: Operation) -> &'static str
    ensures { result.now ≡ definitions.operation_text operation ++ definitions.width_text widths.Bits64 }
{
    match operation {
        Operation::Add => "add64",
        Operation::Sub => "sub64",
        Operation::Mul => "mul64",
        Operation::Div => "div64",
        Operation::SignedDiv => "sdiv64",
        Operation::Or => "or64",
        Operation::And => "and64",
        Operation::LeftShift => "lsh64",
        Operation::RightShift => "rsh64",
        Operation::Mod => "mod64",
        Operation::SignedMod => "smod64",
        Operation::Xor => "xor64",
        Operation::ArithmeticRightShift => "arsh64",
    }
}

fn test_word_32(test: Test) -> &'static str
    ensures { result.now ≡ definitions.test_text test ++ definitions.width_text widths.Bits32 }
{
    match test {
        Test::Equal => "jeq32",
        Test::NotEqual => "jne32",
        Test::Greater => "jgt32",
        Test::GreaterOrEqual => "jge32",
        Test::Less => "jlt32",
        Test::LessOrEqual => "jle32",
        Test::AnyBit => "jset32",
        Test::SignedGreater => "jsgt32",
        Test::SignedGreaterOrEqual => "jsge32",
        Test::SignedLess => "jslt32",
        Test::SignedLessOrEqual => "jsle32",
    }
}

fn test_word_64(test: Test) -> &'static str
    ensures { result.now ≡ definitions.test_text test ++ definitions.width_text widths.Bits64 }
{
    match test {
        Test::Equal => "jeq64",
        Test::NotEqual => "jne64",
        Test::Greater => "jgt64",
        Test::GreaterOrEqual => "jge64",
        Test::Less => "jlt64",
        Test::LessOrEqual => "jle64",
        Test::AnyBit => "jset64",
        Test::SignedGreater => "jsgt64",
        Test::SignedGreaterOrEqual => "jsge64",
        Test::SignedLess => "jslt64",
        Test::SignedLessOrEqual => "jsle64",
    }
}

fn move_word(width: Width) -> &'static str
    ensures { result.now ≡ codes "mov" ++ definitions.width_text width }
{
    match width {
        Width::Bits32 => "mov32",
        Width::Bits64 => "mov64",
    }
}

fn compute_word(width: Width, operation: Operation) -> &'static str
    ensures { result.now ≡ definitions.operation_text operation ++ definitions.width_text width }
{
    match width {
        Width::Bits32 => operation_word_32(operation),
        Width::Bits64 => operation_word_64(operation),
    }
}

fn jump_word(width: Width, test: Test) -> &'static str
    ensures { result.now ≡ definitions.test_text test ++ definitions.width_text width }
{
    match width {
        Width::Bits32 => test_word_32(test),
        Width::Bits64 => test_word_64(test),
    }
}

fn negate_word(width: Width) -> &'static str
    ensures { result.now ≡ definitions.change_word (changes.Negate width) }
{
    match width {
        Width::Bits32 => "neg32",
        Width::Bits64 => "neg64",
    }
}

fn order_word(order: ByteOrder, width: SwappedWidth) -> &'static str
    ensures { result.now ≡ definitions.change_word (changes.Order order width) }
{
    match (order, width) {
        (ByteOrder::LittleEndian, SwappedWidth::Bits16) => "le16",
        (ByteOrder::LittleEndian, SwappedWidth::Bits32) => "le32",
        (ByteOrder::LittleEndian, SwappedWidth::Bits64) => "le64",
        (ByteOrder::BigEndian, SwappedWidth::Bits16) => "be16",
        (ByteOrder::BigEndian, SwappedWidth::Bits32) => "be32",
        (ByteOrder::BigEndian, SwappedWidth::Bits64) => "be64",
        (ByteOrder::Swapped, SwappedWidth::Bits16) => "swap16",
        (ByteOrder::Swapped, SwappedWidth::Bits32) => "swap32",
        (ByteOrder::Swapped, SwappedWidth::Bits64) => "swap64",
    }
}

fn extend_word(width: Width, part: ExtendedWidth) -> &'static str
    ensures { result.now ≡ definitions.change_word (changes.SignExtend width part) }
{
    match (width, part) {
        (Width::Bits32, ExtendedWidth::Bits8) => "movsx32.8",
        (Width::Bits32, ExtendedWidth::Bits16) => "movsx32.16",
        (Width::Bits32, ExtendedWidth::Bits32) => "movsx32.32",
        (Width::Bits64, ExtendedWidth::Bits8) => "movsx64.8",
        (Width::Bits64, ExtendedWidth::Bits16) => "movsx64.16",
        (Width::Bits64, ExtendedWidth::Bits32) => "movsx64.32",
    }
}

fn change_word(change: Change) -> &'static str
    ensures { result.now ≡ definitions.change_word change }
{
    match change {
        Change::Negate(width) => negate_word(width),
        Change::Order(order, width) => order_word(order, width),
        Change::SignExtend(width, part) => extend_word(width, part),
    }
}

fn load_word(size: Size, extension: Extension) -> &'static str
    ensures { result.now ≡ definitions.load_text extension ++ definitions.size_text size }
{
    match (extension, size) {
        (Extension::Zero, Size::Byte) => "ld8",
        (Extension::Zero, Size::Half) => "ld16",
        (Extension::Zero, Size::Word) => "ld32",
        (Extension::Zero, Size::Double) => "ld64",
        (Extension::Sign, Size::Byte) => "lds8",
        (Extension::Sign, Size::Half) => "lds16",
        (Extension::Sign, Size::Word) => "lds32",
        (Extension::Sign, Size::Double) => "lds64",
    }
}

fn store_word(size: Size, source: Source) -> &'static str
    ensures { result.now ≡ definitions.store_text source ++ definitions.size_text size }
{
    match (source, size) {
        (Source::Immediate(_), Size::Byte) => "st8",
        (Source::Immediate(_), Size::Half) => "st16",
        (Source::Immediate(_), Size::Word) => "st32",
        (Source::Immediate(_), Size::Double) => "st64",
        (Source::Register(_), Size::Byte) => "stx8",
        (Source::Register(_), Size::Half) => "stx16",
        (Source::Register(_), Size::Word) => "stx32",
        (Source::Register(_), Size::Double) => "stx64",
    }
}

/// The word of an instruction, whatever its fields.
pub fn word_of(instruction: Instruction) -> &'static str
    ensures { result.now ≡ definitions.word_of instruction }
{
    match instruction {
        Instruction::Move(width, _, _) => move_word(width),
        Instruction::Compute(width, operation, _, _) => compute_word(width, operation),
        Instruction::Load(size, extension, _, _, _) => load_word(size, extension),
        Instruction::Unary(change, _, _) => change_word(change),
        Instruction::Store(size, _, _, source) => store_word(size, source),
        Instruction::JumpIf(width, test, _, _, _) => jump_word(width, test),
        Instruction::Jump(Distance::Short(_)) => "ja",
        Instruction::Jump(Distance::Long(_)) => "jal",
        Instruction::Wide(_, _) => "imm64",
        Instruction::Call(_) => "call",
        Instruction::Exit => "exit",
    }
}

fn has_word(form: Instruction, word: &[u8]) -> bool
    ensures { result ≡ bytes_eq (definitions.word_of form) word.now }
{
    word_of(form).as_bytes() == word
}

/// The first of some instructions that has a word.
fn first_named(word: &[u8], forms: &[Instruction]) -> Option<Instruction>
    ensures { result ≡ find (λ form. bytes_eq (definitions.word_of form) word.now) forms.now }
{
    for form in forms {
        if has_word(*form, word) {
            return Some(*form);
        }
    }
    None
}

/// The instruction that has a word, with 0 in its fields; where a second operand may be an
/// immediate or a register, with an immediate.
#[tactic(auto, unfolding(crate::specs::Words::form_named))]
pub fn form_named(word: &[u8]) -> Option<Instruction>
    ensures { result ≡ definitions.form_named word.now }
{
    match first_named(word, &TEMPLATES) {
        Some(form) => Some(form),
        None => first_named(word, &OTHER_FORMS),
    }
}
