//! Values with tags, and arithmetic on them.
ghost use Rattle.std.specs.Prelude.{◌≡◌, ◌<◌, ◌^◌, ◌+ℤ◌, unsigned_abs};
ghost use Rattle.machine_spec.specs.Values as values;
ghost use Rattle.machine_spec.specs.Machine.{number_held};
ghost use Rattle.bpf_machine.specs.Views.{value_of, IsNear};

use arithmetic::{change, compute, test};
use machine_spec::{Change, Extension, Operation, Region, Size, Test, Width};

/// What a register holds: nothing, a number, or an address, which is a region and an offset in it.
#[derive(Clone, Copy, Debug, PartialEq, Eq)]
pub enum Tagged {
    Nothing,
    Number(u64),
    Address(Region, i128),
}

/// Whether it is nothing.
pub fn is_nothing(value: Tagged) -> bool
    ensures { result ≡ values.is_nothing (value_of value) }
{
    match value {
        Tagged::Nothing => true,
        Tagged::Number(_) => false,
        Tagged::Address(_, _) => false,
    }
}

/// Whether it is a number.
pub fn is_number(value: Tagged) -> bool
    ensures { result ≡ values.is_number (value_of value) }
{
    match value {
        Tagged::Nothing => false,
        Tagged::Number(_) => true,
        Tagged::Address(_, _) => false,
    }
}

/// Whether it is an address.
pub fn is_address(value: Tagged) -> bool
    ensures { result ≡ values.is_address (value_of value) }
{
    match value {
        Tagged::Nothing => false,
        Tagged::Number(_) => false,
        Tagged::Address(_, _) => true,
    }
}

/// The number; 0 of another value.
pub fn number_held(value: Tagged) -> u64
    ensures { result ≡ number_held (value_of value) }
{
    match value {
        Tagged::Nothing => 0,
        Tagged::Number(number) => number,
        Tagged::Address(_, _) => 0,
    }
}

/// What a move leaves in its destination: at 64 bits the value, at 32 the low half of a number and
/// `Nothing` of another value.
pub fn moved_value(width: Width, value: Tagged) -> Tagged
    ensures { value_of result ≡ values.moved_value width (value_of value) }
{
    match width {
        Width::Bits64 => value,
        Width::Bits32 => match value {
            Tagged::Nothing => Tagged::Nothing,
            Tagged::Number(number) => Tagged::Number(number % 0x1_0000_0000),
            Tagged::Address(_, _) => Tagged::Nothing,
        },
    }
}

/// How far an operation moves an address by a number, which is read as signed.
fn displacement(operation: Operation, number: u64) -> i128
    ensures { result ≡ values.displacement operation number }
{
    if operation.is_subtraction() {
        -i128::from(number.cast_signed())
    } else {
        i128::from(number.cast_signed())
    }
}

/// The offset of an address moved by a number.
fn moved_offset(at: i128, operation: Operation, number: u64) -> i128
    requires { unsigned_abs at < 2 ^ 126 }
    ensures { result ≡ at +ℤ values.displacement operation number }
{
    at + displacement(operation, number)
}

fn moved_address(
    width: Width,
    operation: Operation,
    region: Region,
    at: i128,
    second: Tagged,
) -> Tagged
    requires { unsigned_abs at < 2 ^ 126 }
    ensures { value_of result ≡ values.result_of width operation (values.Address region at) (value_of second) }
{
    match second {
        Tagged::Number(number) => {
            if operation.moves_address(width) {
                Tagged::Address(region, moved_offset(at, operation, number))
            } else {
                Tagged::Nothing
            }
        }
        Tagged::Nothing => Tagged::Nothing,
        Tagged::Address(_, _) => Tagged::Nothing,
    }
}

fn computed_number(width: Width, operation: Operation, first: u64, second: Tagged) -> Tagged
    ensures { value_of result ≡ values.result_of width operation (values.Number first) (value_of second) }
{
    match second {
        Tagged::Number(number) => Tagged::Number(compute(width, operation, first, number)),
        Tagged::Nothing => Tagged::Nothing,
        Tagged::Address(_, _) => Tagged::Nothing,
    }
}

/// The result of an operation on two values; `Nothing` where it does not take them.
pub fn computed_value(width: Width, operation: Operation, first: Tagged, second: Tagged) -> Tagged
    requires { IsNear (value_of first) }
    ensures { value_of result ≡ values.result_of width operation (value_of first) (value_of second) }
{
    match first {
        Tagged::Nothing => Tagged::Nothing,
        Tagged::Number(number) => computed_number(width, operation, number, second),
        Tagged::Address(region, at) => moved_address(width, operation, region, at, second),
    }
}

/// Whether an operation takes two values: numbers, or, of a 64-bit addition or subtraction, an
/// address and a number.
pub fn can_compute(width: Width, operation: Operation, first: Tagged, second: Tagged) -> bool
    ensures { result ≡ values.can_compute width operation (value_of first) (value_of second) }
{
    match first {
        Tagged::Nothing => false,
        Tagged::Number(_) => is_number(second),
        Tagged::Address(_, _) => is_number(second) && operation.moves_address(width),
    }
}

/// The change of a number; `Nothing` of another value.
pub fn changed_value(by: Change, value: Tagged) -> Tagged
    ensures { value_of result ≡ values.changed_value by (value_of value) }
{
    match value {
        Tagged::Nothing => Tagged::Nothing,
        Tagged::Number(number) => Tagged::Number(change(by, number)),
        Tagged::Address(_, _) => Tagged::Nothing,
    }
}

/// Whether the test of a jump holds of two numbers; it holds of no other values.
pub fn is_taken(width: Width, by: Test, first: Tagged, second: Tagged) -> bool
    ensures { result ≡ values.is_taken width by (value_of first) (value_of second) }
{
    match first {
        Tagged::Nothing => false,
        Tagged::Number(a) => match second {
            Tagged::Nothing => false,
            Tagged::Number(b) => test(width, by, a, b),
            Tagged::Address(_, _) => false,
        },
        Tagged::Address(_, _) => false,
    }
}
