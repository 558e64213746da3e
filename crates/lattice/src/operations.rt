ghost use Rattle.std.specs.Prelude.{◌≡◌, ◌≤◌, ◌<◌, ◌-◌, ◌*◌, ◌^◌, min};
ghost use Rattle.machine_spec.specs.Arithmetic.{limit, changed_bits, swapped_bits, extended_bits};
ghost use Rattle.verifier_spec.specs.Intervals.{bit_length, of_same_bits, quotients, remainders, shifted_left, shifted_right, computed_range, result_range, changed_range};

use crate::widths::{cut, is_non_negative, shift_by, unless_wrapping, whole};
use machine_spec::{Change, ExtendedWidth, Operation, SwappedWidth, Width};
use verifier_spec::Interval;

fn sums(width: Width, x: Interval, y: Interval) -> Interval
    requires first { x.low ≤ x.high }
    requires second { y.low ≤ y.high }
    ensures { result ≡ computed_range width Operation.Add x y }
{
    let low = x.low as u128 + y.low as u128;
    let high = x.high as u128 + y.high as u128;
    unless_wrapping(width, low, high)
}

fn differences(width: Width, x: Interval, y: Interval) -> Interval
    requires first { x.low ≤ x.high }
    requires second { y.low ≤ y.high }
    ensures { result ≡ computed_range width Operation.Sub x y }
{
    if y.high <= x.low {
        Interval {
            low: x.low - y.high,
            high: x.high - y.low,
        }
    } else {
        whole(width)
    }
}

fn products(width: Width, x: Interval, y: Interval) -> Interval
    requires first { x.low ≤ x.high }
    requires second { y.low ≤ y.high }
    ensures { result ≡ computed_range width Operation.Mul x y }
{
    let low = x.low as u128 * y.low as u128;
    let high = x.high as u128 * y.high as u128;
    unless_wrapping(width, low, high)
}

fn quotients(x: Interval, y: Interval) -> Interval
    ensures { result ≡ quotients x y }
{
    if y.low == y.high && 0 < y.low {
        Interval {
            low: x.low / y.low,
            high: x.high / y.low,
        }
    } else {
        Interval {
            low: 0,
            high: x.high,
        }
    }
}

fn remainders(x: Interval, y: Interval) -> Interval
    ensures { result ≡ remainders x y }
{
    if y.low == y.high && 0 < y.low {
        Interval {
            low: 0,
            high: x.high.min(y.low - 1),
        }
    } else {
        Interval {
            low: 0,
            high: x.high,
        }
    }
}

fn signed_quotients(width: Width, x: Interval, y: Interval) -> Interval
    ensures { result ≡ computed_range width Operation.SignedDiv x y }
{
    if is_non_negative(width, x) && is_non_negative(width, y) {
        quotients(x, y)
    } else {
        whole(width)
    }
}

fn signed_remainders(width: Width, x: Interval, y: Interval) -> Interval
    ensures { result ≡ computed_range width Operation.SignedMod x y }
{
    if is_non_negative(width, x) && is_non_negative(width, y) {
        remainders(x, y)
    } else {
        whole(width)
    }
}

/// The greatest number with as many bits.
#[tactic(auto, using(crate::proofs::Bits::no_bits, crate::proofs::Bits::some_bits))]
fn all_bits(n: u64) -> u64
    ensures { result ≡ 2 ^ bit_length n - 1 }
{
    if n == 0 {
        0
    } else {
        u64::MAX >> n.leading_zeros()
    }
}

fn of_same_bits(x: Interval, y: Interval) -> Interval
    ensures { result ≡ of_same_bits x y }
{
    Interval {
        low: 0,
        high: all_bits(x.high.max(y.high)),
    }
}

fn common_bits(x: Interval, y: Interval) -> Interval
    ensures { result ≡ record { low = 0; high = min x.high y.high } }
{
    Interval {
        low: 0,
        high: x.high.min(y.high),
    }
}

/// A number that is shifted left, with all its bits.
fn shifted(n: u64, by: u64) -> u128
    requires { by < 64 }
    ensures { result ≡ n * 2 ^ by }
{
    (n as u128) << by
}

fn shifted_left(width: Width, x: Interval, count: u64) -> Interval
    requires { x.low ≤ x.high }
    ensures { result ≡ shifted_left width x count }
{
    let by = shift_by(width, count);
    unless_wrapping(width, shifted(x.low, by), shifted(x.high, by))
}

fn shifted_right(width: Width, x: Interval, count: u64) -> Interval
    ensures { result ≡ shifted_right width x count }
{
    let by = shift_by(width, count);
    Interval {
        low: x.low >> by,
        high: x.high >> by,
    }
}

fn left_shifts(width: Width, x: Interval, y: Interval) -> Interval
    requires { x.low ≤ x.high }
    ensures { result ≡ computed_range width Operation.LeftShift x y }
{
    if y.low == y.high {
        shifted_left(width, x, y.low)
    } else {
        whole(width)
    }
}

fn right_shifts(width: Width, x: Interval, y: Interval) -> Interval
    ensures { result ≡ computed_range width Operation.RightShift x y }
{
    if y.low == y.high {
        shifted_right(width, x, y.low)
    } else {
        Interval {
            low: 0,
            high: x.high,
        }
    }
}

fn arithmetic_right_shifts(width: Width, x: Interval, y: Interval) -> Interval
    ensures { result ≡ computed_range width Operation.ArithmeticRightShift x y }
{
    if y.low == y.high && is_non_negative(width, x) {
        shifted_right(width, x, y.low)
    } else {
        whole(width)
    }
}

fn computed_range(width: Width, operation: Operation, x: Interval, y: Interval) -> Interval
    requires first { x.low ≤ x.high }
    requires second { y.low ≤ y.high }
    ensures { result ≡ computed_range width operation x y }
{
    match operation {
        Operation::Add => sums(width, x, y),
        Operation::Sub => differences(width, x, y),
        Operation::Mul => products(width, x, y),
        Operation::Div => quotients(x, y),
        Operation::SignedDiv => signed_quotients(width, x, y),
        Operation::Or => of_same_bits(x, y),
        Operation::And => common_bits(x, y),
        Operation::LeftShift => left_shifts(width, x, y),
        Operation::RightShift => right_shifts(width, x, y),
        Operation::Mod => remainders(x, y),
        Operation::SignedMod => signed_remainders(width, x, y),
        Operation::Xor => of_same_bits(x, y),
        Operation::ArithmeticRightShift => arithmetic_right_shifts(width, x, y),
    }
}

/// The results of an operation on a number of each interval.
pub fn result_range(width: Width, operation: Operation, x: Interval, y: Interval) -> Interval
    requires first { x.low ≤ x.high }
    requires second { y.low ≤ y.high }
    ensures range { result ≡ result_range width operation x y }
    ensures ordered { result.low ≤ result.high }
    ensures limited { result.high < limit width }
{
    computed_range(width, operation, cut(width, x), cut(width, y))
}

fn swapped(width: SwappedWidth) -> Interval
    ensures { result ≡ record { low = 0; high = 2 ^ swapped_bits width - 1 } }
{
    match width {
        SwappedWidth::Bits16 => Interval {
            low: 0,
            high: u16::MAX as u64,
        },
        SwappedWidth::Bits32 => Interval {
            low: 0,
            high: u32::MAX as u64,
        },
        SwappedWidth::Bits64 => Interval {
            low: 0,
            high: u64::MAX,
        },
    }
}

/// The least number whose sign bit as a part of its bits is set.
fn least_negative(part: ExtendedWidth) -> u64
    ensures { result ≡ 2 ^ (extended_bits part - 1) }
{
    match part {
        ExtendedWidth::Bits8 => 0x80,
        ExtendedWidth::Bits16 => 0x8000,
        ExtendedWidth::Bits32 => 0x8000_0000,
    }
}

fn sign_extended(width: Width, part: ExtendedWidth, x: Interval) -> Interval
    ensures { result ≡ changed_range (Change.SignExtend width part) x }
{
    if x.high < least_negative(part) {
        x
    } else {
        whole(width)
    }
}

fn changed(change: Change, x: Interval) -> Interval
    ensures { result ≡ changed_range change x }
{
    match change {
        Change::Negate(width) => whole(width),
        Change::Order(_, width) => swapped(width),
        Change::SignExtend(width, part) => sign_extended(width, part, x),
    }
}

/// The results of a change of a number of an interval.
pub fn changed_range(change: Change, x: Interval) -> Interval
    requires { x.low ≤ x.high }
    ensures range { result ≡ changed_range change x }
    ensures ordered { result.low ≤ result.high }
    ensures limited { result.high < 2 ^ changed_bits change }
{
    changed(change, x)
}
