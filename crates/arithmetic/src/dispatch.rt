ghost use Rattle.std.specs.Prelude.{◌≡◌};
ghost use Rattle.machine_spec.specs.Arithmetic.{number_of, number_in_order, changed_number, holds};

use crate::{bits32, bits64, order};
use machine_spec::{ByteOrder, Change, ExtendedWidth, Operation, SwappedWidth, Test, Width};

/// An operation on two numbers (RFC 9669, section 4.1). At 32 bits it takes their low 32 bits, and
/// the upper 32 of the result are 0.
pub fn compute(width: Width, operation: Operation, a: u64, b: u64) -> u64
    ensures { result ≡ number_of width operation a b }
{
    match width {
        Width::Bits32 => bits32::compute(operation, a, b),
        Width::Bits64 => bits64::compute(operation, a, b),
    }
}

fn negate(width: Width, a: u64) -> u64
    ensures { result ≡ changed_number (Change.Negate width) a }
{
    match width {
        Width::Bits32 => bits32::negate(a),
        Width::Bits64 => bits64::negate(a),
    }
}

#[inline(always)]
fn put_in_order(byte_order: ByteOrder, width: SwappedWidth, a: u64) -> u64
    ensures { result ≡ number_in_order byte_order width a }
{
    match byte_order {
        ByteOrder::LittleEndian => order::keep(width, a),
        ByteOrder::BigEndian => order::swap(width, a),
        ByteOrder::Swapped => order::swap(width, a),
    }
}

#[inline(always)]
fn sign_extend(width: Width, part: ExtendedWidth, a: u64) -> u64
    ensures { result ≡ changed_number (Change.SignExtend width part) a }
{
    match width {
        Width::Bits32 => bits32::sign_extend(part, a),
        Width::Bits64 => bits64::sign_extend(part, a),
    }
}

/// A change of one number (RFC 9669, sections 4.1 and 4.2).
#[inline(always)]
pub fn change(change: Change, a: u64) -> u64
    ensures { result ≡ changed_number change a }
{
    match change {
        Change::Negate(width) => negate(width, a),
        Change::Order(byte_order, width) => put_in_order(byte_order, width, a),
        Change::SignExtend(width, part) => sign_extend(width, part, a),
    }
}

/// Whether a test of two numbers holds (RFC 9669, section 4.3), at 32 bits of their low 32 bits.
pub fn test(width: Width, test: Test, a: u64, b: u64) -> bool
    ensures { result ≡ holds width test a b }
{
    match width {
        Width::Bits32 => bits32::test(test, a, b),
        Width::Bits64 => bits64::test(test, a, b),
    }
}
