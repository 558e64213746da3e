//! From a text to the image that it says.

ghost use Rattle.std.specs.Prelude.{◌≡◌, ◌≢◌, [], Ok, Err, Some, OnOk, IfOk, IfErr};
ghost use Rattle.std.specs.List.{slice_split};
ghost use Rattle.wire_spec.specs.Memory.{AnswersAs};
ghost use Rattle.bpf_isa.specs.Spelling.{HasRegisters};
ghost use Rattle.bpf_asm.specs.declared.fault.AsmFault.TheVariants as faults;
ghost use Rattle.bpf_asm.specs.Reading.{is_line_feed, read_line};
ghost use Rattle.bpf_asm.specs.Images.{lines_image, image_of};
ghost use Rattle.bpf_asm.specs.Decoding.{decoded_image, instructions_of};
ghost use Rattle.bpf_asm.specs.Steps.{IsAdded, IsRefused};

use crate::fault::{AsmFault, at_line};
use crate::line::place_of;
use crate::reading::read;
use bpf_isa::put;
use machine_spec::{Instruction, MAX_SLOTS};
use std::alloc::Global;

/// Appends the bytes of an instruction, which the line with this number says, if they fit.
fn add(image: &mut Vec<u8>, number: usize, instruction: Instruction) -> Result<(), AsmFault>
    requires { HasRegisters instruction }
    ensures ok { OnOk result (IsAdded number (Ok (Some instruction)) image.old.items image.new.items) }
    ensures err { IfErr result (λ f. f ≢ faults.Memory → IsRefused number (Ok (Some instruction)) image.old.items f) }
{
    put(image, instruction).map_err(|_| AsmFault::Memory)?;
    if image.len() > 8 * MAX_SLOTS {
        return Err(AsmFault::Size(number));
    }
    Ok(())
}

/// Appends what the line with this number says.
#[tactic(auto, using(crate::proofs::SaidLines::line_registers))]
fn add_line(image: &mut Vec<u8>, number: usize, line: &[u8]) -> Result<(), AsmFault>
    ensures ok { OnOk result (IsAdded number (read_line line.now) image.old.items image.new.items) }
    ensures err { IfErr result (λ f. f ≢ faults.Memory → IsRefused number (read_line line.now) image.old.items f) }
{
    match read(line) {
        Err(fault) => Err(at_line(number, fault)),
        Ok(None) => Ok(()),
        Ok(Some(instruction)) => add(image, number, instruction),
    }
}

/// Appends what the lines of a text say to an empty image.
fn add_lines(image: &mut Vec<u8>, text: &[u8]) -> Result<(), AsmFault>
    requires { image.old.items ≡ [] }
    ensures ok { OnOk result (lines_image 1 0 (slice_split is_line_feed text.now) ≡ Ok image.new.items) }
    ensures err { IfErr result (λ f. f ≢ faults.Memory → lines_image 1 0 (slice_split is_line_feed text.now) ≡ Err f) }
{
    let mut number = 1;
    let mut start = 0;
    while start <= text.len() {
        let rest = &text[start..];
        let end = place_of(b'\n', rest);
        add_line(image, number, &rest[..end])?;
        number += 1;
        start += end + 1;
    }
    Ok(())
}

/// The image that a text says, of 1 to `MAX_SLOTS` slots. It fails with the fault of the lowest faulty
/// line, or as `Memory` where memory runs out.
#[tactic(auto, unfolding(crate::specs::Images::image_of), using(crate::proofs::DecodedTexts::image_decodes))]
pub fn assemble(alloc: Global, text: &str) -> Result<Vec<u8>, AsmFault>
    // What it answers is what the text says, unless memory runs out.
    ensures exact { AnswersAs faults.Memory (λ v. v.items) result (image_of text.now) }
    // The image decodes, to the instructions of the text's lines.
    ensures decodes { IfOk result (λ v. decoded_image v.items ≡ Ok (instructions_of text.now)) }
{
    let mut image = Vec::new(alloc);
    add_lines(&mut image, text.as_bytes())?;
    if image.is_empty() {
        Err(AsmFault::Size(1))
    } else {
        Ok(image)
    }
}
