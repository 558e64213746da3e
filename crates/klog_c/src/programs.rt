//! Exports on programs: loads, compiled rules, texts of faults, explanations.

ghost use Rattle.std.specs.Prelude.{◌≡◌};
ghost use Rattle.klog_c.specs.Calls.{Loads, Shares, given_with, program_in, text_in};
ghost use Rattle.klog_c.specs.Compiled.{Compiles};
ghost use Rattle.klog_c.specs.Explained.{Explained, CopiesText};
ghost use Rattle.klog_c.specs.Texts.{Writes, fault_text};

use crate::compiling::{RuleSpot, compile_into};
use crate::explaining::{copy_text, explain_into};
use crate::handle::Handle;
use crate::object::{program_of, text_of};
use crate::texts::write_fault;
use crate::working::{load_into, share_into};
use std::alloc::Global;

/// Loads the program of an image or a program file into a handle that holds nothing or a program. The
/// helper table 1 or 2 is named by its number, and none by 0. A fault leaves the handle as it was; of a
/// refused image `place` is then the slot or the instruction.
#[unsafe(no_mangle)]
pub extern "C" fn klog_c_load(
    alloc: Global,
    bytes: &[u8],
    table: u32,
    program: &mut Handle,
    place: &mut usize,
) -> u32
    ensures { Loads (given_with bytes.now table) program.old.place.object program.new.place.object place.old place.new result }
{
    load_into(alloc, bytes, table, program, place)
}

/// Compiles a text of rules: writes the bytes of its program file, which `klog_c_load` loads, at the front of a buffer,
/// and their length, also where the buffer is too short. Where the text is refused, `spot` is then where.
#[unsafe(no_mangle)]
pub extern "C" fn klog_c_compile(
    alloc: Global,
    text: &[u8],
    buffer: &mut [u8],
    length: &mut usize,
    spot: &mut RuleSpot,
) -> u32
    ensures { Compiles text.now buffer.old buffer.new length.old length.new spot.old spot.new result }
{
    compile_into(alloc, text, buffer, length, spot)
}

/// Writes the text of a fault at the front of a buffer, and its length, also where the buffer is too
/// short. `place` is what the call that failed gave for it.
#[unsafe(no_mangle)]
pub extern "C" fn klog_c_fault_text(
    alloc: Global,
    fault: u32,
    place: usize,
    buffer: &mut [u8],
    length: &mut usize,
) -> u32
    ensures { Writes (fault_text fault place) buffer.old buffer.new length.old length.new result }
{
    write_fault(alloc, fault, place, buffer, length)
}

/// Gives another owner of a loaded program to a handle that holds nothing or a program, for another
/// thread. A fault leaves the handle as it was.
#[unsafe(no_mangle)]
pub extern "C" fn klog_c_share(alloc: Global, program: &mut Handle, other: &mut Handle) -> u32
    ensures program { program.new.place.object ≡ program.old.place.object }
    ensures other { Shares (program_in program.old.place.object) other.old.place.object other.new.place.object result }
{
    let object = program.take(alloc);
    let number = share_into(alloc, program_of(&object), other);
    program.put_back(alloc, object);
    number
}

/// Explains why the verifier accepts or refuses the program of an image or a program file into a handle
/// that holds nothing or a text: the instructions, or those alone that lead to the refused one, each with
/// what is known before it. The helper table is named as for `klog_c_load`.
#[unsafe(no_mangle)]
pub extern "C" fn klog_c_explain(
    alloc: Global,
    bytes: &[u8],
    table: u32,
    is_refused_alone: bool,
    text: &mut Handle,
) -> u32
    ensures { Explained (given_with bytes.now table) is_refused_alone text.old.place.object text.new.place.object result }
{
    explain_into(alloc, bytes, table, is_refused_alone, text)
}

/// Copies a text to the front of a buffer, and tells its length, also where the buffer is too short.
#[unsafe(no_mangle)]
pub extern "C" fn klog_c_text(
    alloc: Global,
    text: &mut Handle,
    buffer: &mut [u8],
    length: &mut usize,
) -> u32
    ensures text { text.new.place.object ≡ text.old.place.object }
    ensures copied { CopiesText (text_in text.old.place.object) buffer.old buffer.new length.new result }
{
    let object = text.take(alloc);
    let number = copy_text(text_of(&object), buffer, length);
    text.put_back(alloc, object);
    number
}
