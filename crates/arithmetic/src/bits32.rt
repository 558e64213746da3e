//! Operations on the low 32 bits of numbers; the upper 32 bits of their results are 0.
ghost use Rattle.std.specs.Prelude.{◌≡◌};
ghost use Rattle.machine_spec.specs.Arithmetic.{number_of, changed_number, holds};

use crate::low::{low_8, low_16, low_32};
use machine_spec::{Change, ExtendedWidth, Operation, Test, Width};

/// The sum, which wraps at 2^32.
#[inline(always)]
pub fn add(a: u64, b: u64) -> u64
    ensures { result ≡ number_of Width.Bits32 Operation.Add a b }
{
    low_32(a).wrapping_add(low_32(b)) as u64
}

/// `a` minus `b`, which wraps at 2^32.
#[inline(always)]
pub fn sub(a: u64, b: u64) -> u64
    ensures { result ≡ number_of Width.Bits32 Operation.Sub a b }
{
    low_32(a).wrapping_sub(low_32(b)) as u64
}

/// The product, which wraps at 2^32.
#[inline(always)]
pub fn mul(a: u64, b: u64) -> u64
    ensures { result ≡ number_of Width.Bits32 Operation.Mul a b }
{
    low_32(a).wrapping_mul(low_32(b)) as u64
}

/// The quotient, or 0 of a division by 0.
#[inline(always)]
pub fn div(a: u64, b: u64) -> u64
    ensures { result ≡ number_of Width.Bits32 Operation.Div a b }
{
    let (a, b) = (low_32(a), low_32(b));
    if b == 0 { 0 } else { (a / b) as u64 }
}

/// The quotient rounded toward 0, or 0 of a division by 0. That of the least number by -1 is the
/// least number.
#[inline(always)]
pub fn signed_div(a: u64, b: u64) -> u64
    ensures { result ≡ number_of Width.Bits32 Operation.SignedDiv a b }
{
    let (a, b) = (low_32(a), low_32(b));
    if b == 0 {
        return 0;
    }
    a.cast_signed()
        .wrapping_div(b.cast_signed())
        .cast_unsigned() as u64
}

/// The bits that one of the two has, or both.
#[inline(always)]
pub fn or(a: u64, b: u64) -> u64
    ensures { result ≡ number_of Width.Bits32 Operation.Or a b }
{
    (low_32(a) | low_32(b)) as u64
}

/// The bits that both have.
#[inline(always)]
pub fn and(a: u64, b: u64) -> u64
    ensures { result ≡ number_of Width.Bits32 Operation.And a b }
{
    (low_32(a) & low_32(b)) as u64
}

/// `a` shifted to the left by `b` modulo 32; bits past the top are lost.
#[inline(always)]
pub fn left_shift(a: u64, b: u64) -> u64
    ensures { result ≡ number_of Width.Bits32 Operation.LeftShift a b }
{
    (low_32(a) << (low_32(b) % 32)) as u64
}

/// `a` shifted to the right by `b` modulo 32, with 0 from the left.
#[inline(always)]
pub fn right_shift(a: u64, b: u64) -> u64
    ensures { result ≡ number_of Width.Bits32 Operation.RightShift a b }
{
    (low_32(a) >> (low_32(b) % 32)) as u64
}

/// The remainder. Of a division by 0 it is the low 32 bits of `a`.
#[inline(always)]
pub fn remainder(a: u64, b: u64) -> u64
    ensures { result ≡ number_of Width.Bits32 Operation.Mod a b }
{
    let (low, divisor) = (low_32(a), low_32(b));
    if divisor == 0 {
        low as u64
    } else {
        (low % divisor) as u64
    }
}

/// The remainder with the sign of `a`. Of a division by 0 it is the low 32 bits of `a`, and of one
/// of the least number by -1 it is 0.
#[inline(always)]
pub fn signed_remainder(a: u64, b: u64) -> u64
    ensures { result ≡ number_of Width.Bits32 Operation.SignedMod a b }
{
    let (a, b) = (low_32(a), low_32(b));
    if b == 0 {
        return a as u64;
    }
    a.cast_signed()
        .wrapping_rem(b.cast_signed())
        .cast_unsigned() as u64
}

/// The bits that exactly one of the two has.
#[inline(always)]
pub fn xor(a: u64, b: u64) -> u64
    ensures { result ≡ number_of Width.Bits32 Operation.Xor a b }
{
    (low_32(a) ^ low_32(b)) as u64
}

/// `a` shifted to the right by `b` modulo 32, with its sign from the left.
#[inline(always)]
pub fn arithmetic_right_shift(a: u64, b: u64) -> u64
    ensures { result ≡ number_of Width.Bits32 Operation.ArithmeticRightShift a b }
{
    (low_32(a).cast_signed() >> (low_32(b) % 32)).cast_unsigned() as u64
}

/// An operation on two numbers (RFC 9669, section 4.1).
pub fn compute(operation: Operation, a: u64, b: u64) -> u64
    ensures { result ≡ number_of Width.Bits32 operation a b }
{
    match operation {
        Operation::Add => add(a, b),
        Operation::Sub => sub(a, b),
        Operation::Mul => mul(a, b),
        Operation::Div => div(a, b),
        Operation::SignedDiv => signed_div(a, b),
        Operation::Or => or(a, b),
        Operation::And => and(a, b),
        Operation::LeftShift => left_shift(a, b),
        Operation::RightShift => right_shift(a, b),
        Operation::Mod => remainder(a, b),
        Operation::SignedMod => signed_remainder(a, b),
        Operation::Xor => xor(a, b),
        Operation::ArithmeticRightShift => arithmetic_right_shift(a, b),
    }
}

/// 0 minus `a`, which wraps at 2^32.
#[inline(always)]
pub fn negate(a: u64) -> u64
    ensures { result ≡ changed_number (Change.Negate Width.Bits32) a }
{
    0u32.wrapping_sub(low_32(a)) as u64
}

/// The low 8 bits, read as signed, in 32 bits.
#[inline(always)]
pub fn sign_extend_8(a: u64) -> u64
    ensures { result ≡ changed_number (Change.SignExtend Width.Bits32 ExtendedWidth.Bits8) a }
{
    i32::from(low_8(a).cast_signed()).cast_unsigned() as u64
}

/// The low 16 bits, read as signed, in 32 bits.
#[inline(always)]
pub fn sign_extend_16(a: u64) -> u64
    ensures { result ≡ changed_number (Change.SignExtend Width.Bits32 ExtendedWidth.Bits16) a }
{
    i32::from(low_16(a).cast_signed()).cast_unsigned() as u64
}

/// The low 32 bits as they are.
#[inline(always)]
pub fn sign_extend_32(a: u64) -> u64
    ensures { result ≡ changed_number (Change.SignExtend Width.Bits32 ExtendedWidth.Bits32) a }
{
    low_32(a) as u64
}

/// The low 8, 16 or 32 bits, read as signed, in 32 bits.
pub fn sign_extend(part: ExtendedWidth, a: u64) -> u64
    ensures { result ≡ changed_number (Change.SignExtend Width.Bits32 part) a }
{
    match part {
        ExtendedWidth::Bits8 => sign_extend_8(a),
        ExtendedWidth::Bits16 => sign_extend_16(a),
        ExtendedWidth::Bits32 => sign_extend_32(a),
    }
}

/// Whether a test of two numbers holds (RFC 9669, section 4.3).
pub fn test(test: Test, a: u64, b: u64) -> bool
    ensures { result ≡ holds Width.Bits32 test a b }
{
    let (a, b) = (low_32(a), low_32(b));
    match test {
        Test::Equal => a == b,
        Test::NotEqual => a != b,
        Test::Greater => a > b,
        Test::GreaterOrEqual => a >= b,
        Test::Less => a < b,
        Test::LessOrEqual => a <= b,
        Test::AnyBit => a & b != 0,
        Test::SignedGreater => a.cast_signed() > b.cast_signed(),
        Test::SignedGreaterOrEqual => a.cast_signed() >= b.cast_signed(),
        Test::SignedLess => a.cast_signed() < b.cast_signed(),
        Test::SignedLessOrEqual => a.cast_signed() <= b.cast_signed(),
    }
}
