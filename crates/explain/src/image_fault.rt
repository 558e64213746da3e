//! What is said of an image that has no code.

ghost use Rattle.std.specs.Prelude.{◌≡◌, ◌++◌, IfOk, OnOk, string_bytes};
ghost use Rattle.explain.specs.ImageFaults as definitions;

use crate::slot_bytes::{Cleared, byte_at, from_slot, mended_instruction, wrong_fields};
use bpf_asm::push_line;
use bpf_isa::Instruction;
use machine_spec::{IsaFault, MAX_SLOTS};
use std::alloc::{AllocError, Global};

// ---- bytes and fields

/// Appends a byte as two hexadecimal digits, after a space.
#[tactic(auto, using(std::proofs::lemmas::Fmt::hex_byte))]
fn push_byte(text: &mut String, byte: u8) -> Result<(), AllocError>
    ensures { OnOk result (string_bytes text.new ≡ string_bytes text.old ++ definitions.byte_text byte) }
{
    write!(text, " {byte:02x}")
}

/// Appends the first eight bytes of some.
#[tactic(auto, using(crate::proofs::Growing::none_yet, crate::proofs::Growing::one_more))]
fn push_bytes(text: &mut String, bytes: &[u8]) -> Result<(), AllocError>
    ensures { OnOk result (string_bytes text.new ≡ string_bytes text.old ++ definitions.bytes_text bytes.now) }
{
    for i in 0..8 {
        push_byte(text, byte_at(bytes, i))?;
    }
    Ok(())
}

/// Appends the first eight bytes of some as the end of a line.
fn push_bytes_line(text: &mut String, bytes: &[u8]) -> Result<(), AllocError>
    ensures { OnOk result (string_bytes text.new ≡ string_bytes text.old ++ definitions.bytes_line bytes.now) }
{
    push_bytes(text, bytes)?;
    text.push_str("\n")
}

/// Appends the line of a slot, with the bytes that begin there.
fn push_slot(text: &mut String, slot: usize, bytes: &[u8]) -> Result<(), AllocError>
    ensures { OnOk result (string_bytes text.new ≡ string_bytes text.old ++ definitions.slot_text slot bytes.now) }
{
    write!(text, "slot {slot}:")?;
    push_bytes_line(text, bytes)
}

/// Appends that a field is 0, where it is cleared.
fn push_field(text: &mut String, is_cleared: bool, name: &str) -> Result<(), AllocError>
    ensures { OnOk result (string_bytes text.new ≡ string_bytes text.old ++ definitions.field_text is_cleared name.now) }
{
    if is_cleared {
        write!(text, " {name}=0")
    } else {
        Ok(())
    }
}

fn push_fields(text: &mut String, cleared: Cleared) -> Result<(), AllocError>
    ensures { OnOk result (string_bytes text.new ≡ string_bytes text.old ++ definitions.fields_text cleared) }
{
    push_field(text, cleared.dst, "dst")?;
    push_field(text, cleared.src, "src")?;
    push_field(text, cleared.offset, "offset")?;
    push_field(text, cleared.imm, "imm")
}

/// Appends the line of the instruction that a slot is with 0 in some fields, if it is one then.
fn push_mended(
    text: &mut String,
    cleared: Cleared,
    instruction: Option<Instruction>,
) -> Result<(), AllocError>
    ensures { OnOk result (string_bytes text.new ≡ string_bytes text.old ++ definitions.mended_text cleared instruction) }
{
    match instruction {
        Some(instruction) => {
            text.push_str("with")?;
            push_fields(text, cleared)?;
            text.push_str(" this is: ")?;
            push_line(text, instruction)
        }
        None => Ok(()),
    }
}

/// Appends the line of the instruction that some bytes begin with, where the fields are 0 with which
/// they are none.
fn push_repair(text: &mut String, bytes: &[u8]) -> Result<(), AllocError>
    ensures { OnOk result (string_bytes text.new ≡ string_bytes text.old ++ definitions.repair_text bytes.now) }
{
    let cleared = wrong_fields(bytes);
    push_mended(text, cleared, mended_instruction(bytes, cleared))
}

// ---- by fault

/// Appends what is wrong with the length of an image.
fn push_size(text: &mut String, length: usize) -> Result<(), AllocError>
    ensures { OnOk result (string_bytes text.new ≡ string_bytes text.old ++ definitions.size_text length) }
{
    if length == 0 {
        text.push_str("the image is empty\n")
    } else if length <= 8 * MAX_SLOTS {
        let more = length % 8;
        write!(text, "the image ends {more} bytes into a slot of 8 bytes\n")
    } else {
        let most = MAX_SLOTS;
        write!(text, "the image has more than {most} slots of 8 bytes\n")
    }
}

fn push_opcode(text: &mut String, opcode: u8) -> Result<(), AllocError>
    ensures { OnOk result (string_bytes text.new ≡ string_bytes text.old ++ definitions.opcode_text opcode) }
{
    text.push_str("no instruction has the opcode")?;
    push_byte(text, opcode)?;
    text.push_str(
        ": make an image by `tools/klogc/klogc image OBJECT IMAGE` or `klog asm TEXT IMAGE`\n",
    )
}

/// What an instruction is that klog leaves out, and what to do without it.
fn left_out_text(opcode: u8, src: u8) -> &'static str
    ensures { result.now ≡ definitions.left_out_text opcode src }
{
    if opcode == 0x85 && src == 1 {
        "a call with src=1 calls a function of the program: make each function but transform `static inline` with `always_inline`\n"
    } else if opcode == 0x85 {
        "a call with another src than 0 calls a function of the kernel: call the helpers of klog.h alone\n"
    } else if opcode == 0x18 {
        "a 64-bit immediate with another src than 0 is the address of a map or a global: keep what it holds in variables of the function\n"
    } else if opcode >= 0xc0 {
        "atomic operations are left out: nobody else reads the stack\n"
    } else {
        "packet loads are left out: load from the address of the value or the key\n"
    }
}

/// Appends what is said of an instruction that klog leaves out.
fn push_left_out(text: &mut String, bytes: &[u8]) -> Result<(), AllocError>
    ensures { OnOk result (string_bytes text.new ≡ string_bytes text.old ++ definitions.left_out_lines bytes.now) }
{
    push_repair(text, bytes)?;
    text.push_str(left_out_text(byte_at(bytes, 0), byte_at(bytes, 1) / 16))
}

fn push_register(text: &mut String, bytes: &[u8]) -> Result<(), AllocError>
    ensures { OnOk result (string_bytes text.new ≡ string_bytes text.old ++ definitions.register_fault_text bytes.now) }
{
    push_repair(text, bytes)?;
    text.push_str("registers are r0 to r10\n")
}

/// Appends that the imm of a byte order selects none, if no other field is wrong.
fn push_order(text: &mut String, instruction: Option<Instruction>) -> Result<(), AllocError>
    ensures { OnOk result (string_bytes text.new ≡ string_bytes text.old ++ definitions.order_text instruction) }
{
    match instruction {
        Some(_) => Ok(()),
        None => text.push_str("the imm of a byte order is 16, 32 or 64\n"),
    }
}

/// Appends what is wrong with the fields of a slot.
fn push_unused(text: &mut String, bytes: &[u8]) -> Result<(), AllocError>
    ensures { OnOk result (string_bytes text.new ≡ string_bytes text.old ++ definitions.unused_text bytes.now) }
{
    push_repair(text, bytes)?;
    push_order(text, mended_instruction(bytes, wrong_fields(bytes)))
}

/// Appends the line of a second slot.
fn push_second_slot(text: &mut String, bytes: &[u8]) -> Result<(), AllocError>
    ensures { OnOk result (string_bytes text.new ≡ string_bytes text.old ++ definitions.second_slot_text bytes.now) }
{
    text.push_str("second slot:")?;
    push_bytes_line(text, bytes)
}

/// Appends the line of the slot after the first of some bytes, or that there is none.
fn push_second(text: &mut String, bytes: &[u8]) -> Result<(), AllocError>
    ensures { OnOk result (string_bytes text.new ≡ string_bytes text.old ++ definitions.second_text bytes.now) }
{
    if bytes.len() < 16 {
        text.push_str("no second slot\n")
    } else {
        push_second_slot(text, &bytes[8..])
    }
}

fn push_wide(text: &mut String, bytes: &[u8]) -> Result<(), AllocError>
    ensures { OnOk result (string_bytes text.new ≡ string_bytes text.old ++ definitions.wide_text bytes.now) }
{
    push_second(text, bytes)?;
    text.push_str("a 64-bit immediate has a second slot that begins with 00 00 00 00\n")
}

/// Appends what is wrong with the bytes of a slot.
fn push_flaw(text: &mut String, bytes: &[u8], fault: IsaFault) -> Result<(), AllocError>
    ensures { OnOk result (string_bytes text.new ≡ string_bytes text.old ++ definitions.flaw_text bytes.now fault) }
{
    match fault {
        IsaFault::Opcode(_) => push_opcode(text, byte_at(bytes, 0)),
        IsaFault::NotInProfile(_) => push_left_out(text, bytes),
        IsaFault::Register(_) => push_register(text, bytes),
        IsaFault::Unused(_) => push_unused(text, bytes),
        IsaFault::Wide(_) => push_wide(text, bytes),
        IsaFault::Size | IsaFault::Memory => Ok(()),
    }
}

fn push_slot_fault(
    text: &mut String,
    slot: usize,
    bytes: &[u8],
    fault: IsaFault,
) -> Result<(), AllocError>
    ensures { OnOk result (string_bytes text.new ≡ string_bytes text.old ++ definitions.slot_fault_text slot bytes.now fault) }
{
    push_slot(text, slot, bytes)?;
    push_flaw(text, bytes, fault)
}

fn push_fault(text: &mut String, image: &[u8], fault: IsaFault) -> Result<(), AllocError>
    ensures { OnOk result (string_bytes text.new ≡ string_bytes text.old ++ definitions.fault_text image.now fault) }
{
    match fault {
        IsaFault::Size => push_size(text, image.len()),
        IsaFault::Opcode(slot)
        | IsaFault::NotInProfile(slot)
        | IsaFault::Register(slot)
        | IsaFault::Unused(slot)
        | IsaFault::Wide(slot) => push_slot_fault(text, slot, from_slot(image, slot), fault),
        IsaFault::Memory => Ok(()),
    }
}

/// Appends that an image is an object file, or what its fault is about.
#[tactic(auto, unfolding(crate::specs::ImageFaults::image_fault_text))]
fn push_lines(text: &mut String, image: &[u8], fault: IsaFault) -> Result<(), AllocError>
    ensures { OnOk result (string_bytes text.new ≡ string_bytes text.old ++ definitions.image_fault_text image.now fault) }
{
    if image.starts_with(b"\x7fELF") {
        text.push_str(
            "this is an object file and no image: make an image of it by `tools/klogc/klogc image OBJECT IMAGE`\n",
        )
    } else {
        push_fault(text, image, fault)
    }
}

/// What the fault of an image without code is about, in lines: that the image is an object file,
/// what is wrong with its length, or the bytes of the slot, what they would be, and the usual cause.
pub fn image_fault_text(alloc: Global, image: &[u8], fault: IsaFault) -> Result<String, AllocError>
    ensures { IfOk result (λ text. string_bytes text ≡ definitions.image_fault_text image.now fault) }
{
    let mut text = String::new(alloc);
    push_lines(&mut text, image, fault)?;
    Ok(text)
}
