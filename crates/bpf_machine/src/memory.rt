//! The bytes that an instruction reads or writes.
ghost use Rattle.std.specs.Prelude.{◌≡◌, ℕ, ◌+◌, ◌<◌, ◌≤◌, ◌^◌, pos, false, length, slice_get, unwrap_or, unsigned_abs, ◌+ℤ◌, Some, IfOk};
ghost use Rattle.machine_spec.specs.declared.limits.TheConstants.{STACK_SIZE};
ghost use Rattle.machine_spec.specs.Traps.{is_wrong_room};
ghost use Rattle.machine_spec.specs.Values as values;
ghost use Rattle.machine_spec.specs.Values.{little_endian, byte_count};
ghost use Rattle.machine_spec.specs.Machine.{access_at, access_of, named_access, byte_in, bytes_from, bytes_read, length_of, value_loaded};
ghost use Rattle.bpf_machine.specs.Views.{value_of, registers_of, stack_of, access_in, IsNear};
ghost use Rattle.bpf_machine.specs.States.{input_of};

use crate::registers::{REGISTERS, get};
use crate::stack::Stack;
use crate::tagged::Tagged;
use helpers::{RecordRef, text};
use machine_spec::{Direction, Extension, MemoryOperand, Place, Region, STACK_SIZE, Size, Table};
use std::alloc::{AllocError, Global};

/// What a run has at hand: the program's image, the slots at which its instructions begin, its helper
/// table, the record and its place.
#[derive(Drop)]
pub struct Run<'a> {
    pub alloc: Global,
    pub image: &'a [u8],
    pub firsts: &'a [bool],
    pub table: Table,
    pub given: &'a RecordRef<'a>,
    pub place: &'a Place,
}

/// `size` bytes from a place of a region on; the place may lie outside it.
#[derive(Clone, Copy, Debug, PartialEq, Eq)]
pub struct Span {
    pub direction: Direction,
    pub region: Region,
    pub start: i128,
    pub size: u64,
}

/// The offset of an address plus that of an instruction, in bytes.
pub fn start_of(at: i128, offset: i16) -> i128
    requires { unsigned_abs at < 2 ^ 126 }
    ensures { result ≡ at +ℤ offset }
{
    at + offset as i128
}

/// The bytes of a load or a store at an offset from a base, none where the base is no address.
pub fn span_at(direction: Direction, base: Tagged, offset: i16, size: Size) -> Option<Span>
    requires { IsNear (value_of base) }
    ensures { access_in result ≡ access_at direction (value_of base) offset size }
{
    match base {
        Tagged::Address(region, at) => Some(Span {
            direction,
            region,
            start: start_of(at, offset),
            size: u64::from(size.byte_count()),
        }),
        Tagged::Nothing => None,
        Tagged::Number(_) => None,
    }
}

/// The bytes that an instruction reads or writes, none where it has no memory operand or its base
/// is no address.
pub fn span_of(memory: Option<MemoryOperand>, registers: &[Tagged; REGISTERS]) -> Option<Span>
    requires { (r : ℕ) → IsNear (registers_of registers.now r) }
    ensures { access_in result ≡ access_of memory (registers_of registers.now) }
{
    match memory {
        Some(m) => span_at(m.direction, get(registers, m.base), m.offset, m.size),
        None => None,
    }
}

/// The bytes that an address and a length name, none where they are no address and no number.
pub fn named_access(direction: Direction, address: Tagged, count: Tagged) -> Option<Span>
    ensures { access_in result ≡ named_access direction (value_of address) (value_of count) }
{
    match address {
        Tagged::Address(region, start) => match count {
            Tagged::Number(size) => Some(Span {
                direction,
                region,
                start,
                size,
            }),
            Tagged::Nothing => None,
            Tagged::Address(_, _) => None,
        },
        Tagged::Nothing => None,
        Tagged::Number(_) => None,
    }
}

/// Where the room begins that an address and a length name, which is on the stack, and how many bytes
/// it has.
pub fn room_of(address: Tagged, count: Tagged) -> (usize, usize)
    requires { is_wrong_room (named_access Direction.Write (value_of address) (value_of count)) ≡ false }
    ensures within { result.0 + result.1 ≤ STACK_SIZE }
    ensures room { named_access Direction.Write (value_of address) (value_of count)
        ≡ Some (record { direction = Direction.Write; region = Region.Stack; start = pos result.0; size = result.1 }) }
    ensures count { values.Number result.1 ≡ value_of count }
{
    match address {
        Tagged::Address(_, start) => match count {
            Tagged::Number(count) => (start.unsigned_abs() as usize, count as usize),
            Tagged::Nothing => unreachable!(),
            Tagged::Address(_, _) => unreachable!(),
        },
        Tagged::Nothing => unreachable!(),
        Tagged::Number(_) => unreachable!(),
    }
}

fn byte_of(bytes: &[u8], place: u128) -> Option<u8>
    ensures { result ≡ slice_get bytes.now place }
{
    if place < bytes.len() as u128 {
        Some(bytes[place as usize])
    } else {
        None
    }
}

fn or_zero(byte: Option<u8>) -> u8
    ensures { result ≡ unwrap_or byte 0 }
{
    match byte {
        Some(byte) => byte,
        None => 0,
    }
}

impl<'a> Run<'a> {
    /// How many bytes a region has.
    pub fn length_of(&self, region: Region) -> usize
        ensures { result ≡ length_of (input_of self.now) region }
    {
        match region {
            Region::Stack => STACK_SIZE,
            Region::Key => text(&self.given.key()).len(),
            Region::Value => text(&self.given.value()).len(),
        }
    }

    /// The byte at a place of a region, if there is one and it is set.
    fn byte_in(&self, stack: &Stack, region: Region, place: u128) -> Option<u8>
        ensures { result ≡ byte_in (input_of self.now) (stack_of stack.now) region place }
    {
        match region {
            Region::Stack => stack.get(place),
            Region::Key => byte_of(text(&self.given.key()), place),
            Region::Value => byte_of(text(&self.given.value()), place),
        }
    }

    /// `count` bytes from a place on; one that is not there counts as 0.
    #[tactic(auto, using(crate::proofs::Loads::next_byte))]
    fn bytes_from(
        &self,
        stack: &Stack,
        region: Region,
        place: u128,
        count: u64,
    ) -> Result<Vec<u8>, AllocError>
        requires { place < 2 ^ 127 + 2 }
        ensures { IfOk result (λ bytes. bytes.items
            ≡ bytes_from (byte_in (input_of self.now) (stack_of stack.now) region) place count) }
    {
        let mut bytes = Vec::new(self.alloc);
        for k in 0..count {
            bytes.push(or_zero(self.byte_in(stack, region, place + k as u128)))?;
        }
        Ok(bytes)
    }

    /// The bytes that an address and a length name; none where they are no address and no number.
    /// It fails only where memory runs out.
    pub fn bytes_named(
        &self,
        stack: &Stack,
        address: Tagged,
        count: Tagged,
    ) -> Result<Vec<u8>, AllocError>
        ensures { IfOk result (λ bytes. bytes.items
            ≡ bytes_read (input_of self.now) (stack_of stack.now) (named_access Direction.Read (value_of address) (value_of count))) }
    {
        match named_access(Direction::Read, address, count) {
            Some(span) => {
                self.bytes_from(stack, span.region, span.start.unsigned_abs(), span.size)
            }
            None => Ok(Vec::new(self.alloc)),
        }
    }

    fn byte(&self, stack: &Stack, region: Region, place: u128) -> u8
        ensures { result ≡ little_endian (bytes_from (byte_in (input_of self.now) (stack_of stack.now) region) place 1) }
    {
        or_zero(self.byte_in(stack, region, place))
    }

    fn half(&self, stack: &Stack, region: Region, place: u128) -> u16
        requires { place < 2 ^ 127 + 8 }
        ensures { result ≡ little_endian (bytes_from (byte_in (input_of self.now) (stack_of stack.now) region) place 2) }
    {
        let low = self.byte(stack, region, place);
        let high = self.byte(stack, region, place + 1);
        u16::from(low) + 0x100 * u16::from(high)
    }

    fn word(&self, stack: &Stack, region: Region, place: u128) -> u32
        requires { place < 2 ^ 127 + 6 }
        ensures { result ≡ little_endian (bytes_from (byte_in (input_of self.now) (stack_of stack.now) region) place 4) }
    {
        let low = self.half(stack, region, place);
        let high = self.half(stack, region, place + 2);
        u32::from(low) + 0x1_0000 * u32::from(high)
    }

    fn double(&self, stack: &Stack, region: Region, place: u128) -> u64
        requires { place < 2 ^ 127 + 2 }
        ensures { result ≡ little_endian (bytes_from (byte_in (input_of self.now) (stack_of stack.now) region) place 8) }
    {
        let low = self.word(stack, region, place);
        let high = self.word(stack, region, place + 4);
        u64::from(low) + 0x1_0000_0000 * u64::from(high)
    }

    /// The number that the bytes from a place on encode, extended to 64 bits.
    fn number_at(
        &self,
        stack: &Stack,
        region: Region,
        place: u128,
        size: Size,
        extension: Extension,
    ) -> u64
        requires { place < 2 ^ 127 + 2 }
        ensures { values.extended_value extension size (values.Number (little_endian
            (bytes_from (byte_in (input_of self.now) (stack_of stack.now) region) place (byte_count size)))) ≡ values.Number result }
    {
        match size {
            Size::Byte => extended_byte(extension, self.byte(stack, region, place)),
            Size::Half => extended_half(extension, self.half(stack, region, place)),
            Size::Word => extended_word(extension, self.word(stack, region, place)),
            Size::Double => extended_double(extension, self.double(stack, region, place)),
        }
    }

    /// The number that a load reads at an offset from a base, extended to 64 bits; `Nothing` where
    /// the base is no address. A byte that isn't there counts as 0, which happens in a state with a
    /// trap alone.
    pub fn value_loaded(
        &self,
        stack: &Stack,
        base: Tagged,
        offset: i16,
        size: Size,
        extension: Extension,
    ) -> Tagged
        requires { IsNear (value_of base) }
        ensures { value_of result ≡ values.extended_value extension size
            (value_loaded (input_of self.now) (stack_of stack.now) (access_at Direction.Read (value_of base) offset size)) }
    {
        match base {
            Tagged::Address(region, at) => {
                let place = start_of(at, offset).unsigned_abs();
                Tagged::Number(self.number_at(stack, region, place, size, extension))
            }
            Tagged::Nothing => Tagged::Nothing,
            Tagged::Number(_) => Tagged::Nothing,
        }
    }
}

fn extended_byte(extension: Extension, number: u8) -> u64
    ensures { values.extended_value extension Size.Byte (values.Number number) ≡ values.Number result }
{
    match extension {
        Extension::Zero => u64::from(number),
        Extension::Sign => i64::from(number.cast_signed()).cast_unsigned(),
    }
}

fn extended_half(extension: Extension, number: u16) -> u64
    ensures { values.extended_value extension Size.Half (values.Number number) ≡ values.Number result }
{
    match extension {
        Extension::Zero => u64::from(number),
        Extension::Sign => i64::from(number.cast_signed()).cast_unsigned(),
    }
}

fn extended_word(extension: Extension, number: u32) -> u64
    ensures { values.extended_value extension Size.Word (values.Number number) ≡ values.Number result }
{
    match extension {
        Extension::Zero => u64::from(number),
        Extension::Sign => i64::from(number.cast_signed()).cast_unsigned(),
    }
}

fn extended_double(extension: Extension, number: u64) -> u64
    ensures { values.extended_value extension Size.Double (values.Number number) ≡ values.Number result }
{
    match extension {
        Extension::Zero => number,
        Extension::Sign => number.cast_signed().cast_unsigned(),
    }
}
