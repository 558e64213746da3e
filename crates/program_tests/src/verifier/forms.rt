//! Instructions as the interpreter takes them.

use crate::programs::{instruction_of, program_of};
use crate::tables::{all_hold, three};
use machine_spec::{Instruction, Source, Table, Test, Width};
use predecode::{Decoded, paired, predecode};
use std::alloc::{AllocError, Global};
use std::test::*;

/// The forms of a program's instructions, one a line.
fn forms_text(alloc: Global, forms: &[Decoded]) -> Result<String, AllocError> {
    let mut text = String::new(alloc);
    for form in forms {
        let line = format!(in alloc; "{form:?}\n")?;
        text.push_str(line.as_str())?;
    }
    Ok(text)
}

/// A load from the value has its region, and the jump over it the number of the exit as its last field.
static FORMS: &str = "\
Set(0, 0)
IfStrictNumber(false, 2, 1, 1, 3)
LoadValueByte(0, 1, 0)
Exit
";

/// Whether a program is predecoded so, and needs no stack.
fn is_predecoded(alloc: Global, program: &str, want: &str) -> Option<bool> {
    let verified = program_of(alloc, program, Table::One)?;
    let text = forms_text(alloc, verified.decoded()).ok()?;
    Some(text.as_str() == want && !verified.needs_stack())
}

#[test]
fn a_program_is_predecoded(rt: HostRuntime) {
    let program = "mov64 r0, 0; jlt64 r2, 1, +1; ld8 r0, [r1+0]; exit";
    assert!(rt; is_predecoded(rt.alloc(), program, FORMS) == Some(true));
}

/// A store, a call of helper 1 or 2, and a call of helper 4 or 5 with bytes of the stack, also with
/// none, need a stack where they are reached. Emissions of the record's own bytes do not.
static STACKS: &str = "\
mov64 r0, 0; exit | false
st8 [r10-1], 0; mov64 r0, 0; exit | true
mov64 r0, 0; ja +1; st8 [r10-1], 0; exit | false
mov64 r1, 0; call 3; exit | false
mov64 r1, r10; add64 r1, -8; mov64 r2, 0; mov64 r3, 8; call 2; exit | true
mov64 r3, r2; mov64 r2, r1; mov64 r1, 0; call 4; exit | false
mov64 r2, r10; mov64 r1, 0; mov64 r3, 0; call 4; exit | true
mov64 r2, r3; mov64 r3, r4; mov64 r4, r10; mov64 r1, 0; mov64 r5, 0; call 5; exit | true
call 10; exit | false
mov64 r1, r10; add64 r1, -8; mov64 r2, 0; mov64 r3, 8; call 12; exit | true
";

/// Whether a row's program is loaded, and needs a stack as the row says.
fn needs_stack(alloc: Global, row: &str) -> Option<bool> {
    let (program, want) = row.split_once(" | ")?;
    let verified = program_of(alloc, program, Table::Two)?;
    Some(
        want == if verified.needs_stack() {
            "true"
        } else {
            "false"
        },
    )
}

#[test]
fn programs_that_need_a_stack(rt: HostRuntime) {
    all_hold(&rt, STACKS, |row| needs_stack(rt.alloc(), row));
}

fn is_form(alloc: Global, form: Decoded, want: &str) -> bool {
    match format!(in alloc; "{form:?}") {
        Ok(text) => text.as_str() == want,
        Err(_) => false,
    }
}

/// Instructions, the number of the instruction that a jump leads to, and the form. A number of 64 bits is in two
/// halves; a jump has its target, and a comparison of 32 bits its width.
static SINGLE: &str = "\
imm64 r1, 1234605616436508552 | 0 | Rare(Wide(1, 1432778632, 287454020))
ja +2 | 9 | Rare(Jump(9, Short(2)))
jlt32 r3, r4, +5 | 7 | Rare(JumpIf(Bits32, Less, 3, 4, 5, 7))
";

fn is_single(alloc: Global, row: &str) -> Option<bool> {
    let (line, target, want) = three(row)?;
    let instruction = instruction_of(alloc, line)?;
    let form = predecode(instruction, (None, None), target.parse().ok()?);
    Some(is_form(alloc, form, want))
}

#[test]
fn single_instructions(rt: HostRuntime) {
    all_hold(&rt, SINGLE, |row| is_single(rt.alloc(), row));
}

/// A load of a byte of the value.
const LOAD: Decoded = Decoded::LoadValueByte(3, 1, 7);

/// The range of bytes of which the test of a jump on r3 holds, as a load and a jump in one have it.
fn range_of(jump: Instruction) -> Option<(u8, u8)> {
    match paired(LOAD, jump, 9) {
        Decoded::ByteIn { low, span, .. } => Some((low, span)),
        _ => None,
    }
}

/// Jumps, and the first byte of which the test holds with how many more there are.
static RANGES: &str = "\
jeq64 r3, 65, +4 | Some((65, 0))
jne64 r3, 65, +4 | Some((66, 254))
jne64 r3, 255, +4 | Some((0, 254))
jgt64 r3, 65, +4 | Some((66, 189))
jgt64 r3, 255, +4 | None
jge64 r3, 65, +4 | Some((65, 190))
jge64 r3, 0, +4 | Some((0, 255))
jlt64 r3, 65, +4 | Some((0, 64))
jlt64 r3, 0, +4 | None
jle64 r3, 65, +4 | Some((0, 65))
jlt64 r3, 256, +4 | None
jne64 r3, -1, +4 | None
jset64 r3, 1, +4 | None
jslt64 r3, 65, +4 | None
";

fn has_range(alloc: Global, row: &str) -> Option<bool> {
    let (line, want) = row.split_once(" | ")?;
    let range = range_of(instruction_of(alloc, line)?);
    let text = format!(in alloc; "{range:?}").ok()?;
    Some(text.as_str() == want)
}

/// A jump on a number in this register.
fn jump_on(dst: u8) -> Instruction {
    Instruction::JumpIf(Width::Bits64, Test::Equal, dst, Source::Immediate(65), 4)
}

const BOTH: &str =
    "ByteIn { dst: 3, base: 1, low: 65, span: 0, test: Equal, number: 65, offset: 7, slots: 4, \
    target: 9 }";

/// A load of a byte and a jump on it are one where the bytes that take the jump are a range; a jump on
/// another register stays by itself.
#[test]
fn a_load_and_its_jump_are_one(rt: HostRuntime) {
    let alloc = rt.alloc();
    all_hold(&rt, RANGES, |row| has_range(alloc, row));
    let load = "LoadValueByte(3, 1, 7)";
    assert!(rt; is_form(alloc, paired(LOAD, jump_on(4), 9), load));
    assert!(rt; is_form(alloc, paired(LOAD, jump_on(3), 9), BOTH));
}
