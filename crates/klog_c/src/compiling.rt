//! Program files of texts of rules.

ghost use Rattle.std.specs.Prelude.{◌≡◌, ◌≢◌, ◌⊎◌, IsTrue};
ghost use Rattle.program_file.specs.Spelling.{fits, spelling};
ghost use Rattle.klog_c.specs.Compiled as definitions;
ghost use Rattle.klog_c.specs.Numbers as numbers;
ghost use Rattle.klog_c.specs.Texts.{Writes};
ghost use Rattle.klog_c.specs.declared.faults.TheConstants.{MEMORY as memory};

use crate::faults::{MEMORY, compile_told, rule_number};
use c_outcomes::copy;
use program_file::{ProgramFile, write};
use rules::Spot;
use rules_compiler::{TextFault, compile_text};
use std::alloc::Global;

/// Where a text of rules is refused.
#[repr(C)]
#[derive(Clone, Copy)]
pub struct RuleSpot {
    /// The line that can't go on, from 1; 0 where a whole rule is refused.
    pub line: usize,
    /// The byte of the line at which it can't, from 1; else 0.
    pub column: usize,
    /// The rule that is refused, from 1; 0 where a line is.
    pub rule: usize,
}

fn line_spot(spot: Option<Spot>) -> RuleSpot
    ensures { result ≡ definitions.line_spot spot }
{
    match spot {
        Some(spot) => RuleSpot {
            line: spot.line,
            column: spot.column,
            rule: 0,
        },
        None => RuleSpot {
            line: 0,
            column: 0,
            rule: 0,
        },
    }
}

/// The number of a fault of a text, and where it is.
fn text_told(fault: TextFault) -> (u32, RuleSpot)
    ensures { result ≡ (numbers.text_number fault, definitions.spot_told fault) }
{
    match fault {
        TextFault::Line(fault) => (rule_number(fault), line_spot(fault.spot())),
        TextFault::Rules(fault) => {
            let (number, rule) = compile_told(fault);
            let spot = RuleSpot {
                line: 0,
                column: 0,
                rule,
            };
            (number, spot)
        }
        TextFault::Memory => (MEMORY, line_spot(None)),
    }
}

/// Tells the number of a text's fault, and writes where it is. Where memory ran out it is nowhere.
fn tell_fault(fault: TextFault, spot: &mut RuleSpot) -> u32
    ensures number { result ≡ numbers.text_number fault }
    ensures spot { ((result ≡ memory) × (spot.new ≡ spot.old)) ⊎ ((result ≢ memory) × (spot.new ≡ definitions.spot_told fault)) }
{
    let (number, at) = text_told(fault);
    if number != MEMORY {
        *spot = at;
    }
    number
}

/// Writes the bytes of a program file at the front of a buffer, and their length.
fn put_file(alloc: Global, file: &ProgramFile, buffer: &mut [u8], length: &mut usize) -> u32
    requires { IsTrue (fits file.now) }
    ensures { Writes (spelling file.now) buffer.old buffer.new length.old length.new result }
{
    let Ok(bytes) = write(alloc, file) else {
        return MEMORY;
    };
    *length = bytes.len();
    copy(&bytes, buffer)
}

/// Writes the bytes of the program file of a text's rules at the front of a buffer, and their length; or tells why the
/// text is refused, and writes where.
pub(crate) fn compile_into(
    alloc: Global,
    text: &[u8],
    buffer: &mut [u8],
    length: &mut usize,
    spot: &mut RuleSpot,
) -> u32
    ensures { definitions.Compiles text.now buffer.old buffer.new length.old length.new spot.old spot.new result }
{
    match compile_text(alloc, text) {
        Ok(file) => put_file(alloc, &file, buffer, length),
        Err(fault) => tell_fault(fault, spot),
    }
}
