ghost use Rattle.std.specs.Prelude.{◌≡◌, ◌≤◌, ◌<◌, ◌%◌};
ghost use Rattle.machine_spec.specs.Arithmetic.{bit_count, limit};
ghost use Rattle.verifier_spec.specs.Intervals.{whole, cut_to_width, unless_wrapping, is_non_negative};

use machine_spec::Width;
use verifier_spec::Interval;

/// Every number of a width.
pub fn whole(width: Width) -> Interval
    ensures { result ≡ whole width }
{
    match width {
        Width::Bits32 => Interval {
            low: 0,
            high: u32::MAX as u64,
        },
        Width::Bits64 => Interval {
            low: 0,
            high: u64::MAX,
        },
    }
}

/// What an operation of a width takes of an operand's numbers: at 32 bits, where one of them has
/// more, any 32 bits.
pub fn cut(width: Width, x: Interval) -> Interval
    requires { x.low ≤ x.high }
    ensures range { result ≡ cut_to_width width x }
    ensures ordered { result.low ≤ result.high }
    ensures limited { result.high < limit width }
{
    match width {
        Width::Bits32 => cut_32(x),
        Width::Bits64 => x,
    }
}

fn cut_32(x: Interval) -> Interval
    requires { x.low ≤ x.high }
    ensures range { result ≡ cut_to_width Width.Bits32 x }
    ensures ordered { result.low ≤ result.high }
    ensures limited { result.high < limit Width.Bits32 }
{
    if x.high <= u32::MAX as u64 {
        x
    } else {
        whole(Width::Bits32)
    }
}

/// From `low` to `high`, or every number of the width where `high` has more bits.
pub fn unless_wrapping(width: Width, low: u128, high: u128) -> Interval
    requires { low ≤ high }
    ensures { result ≡ unless_wrapping width low high }
{
    let all = whole(width);
    if high <= all.high as u128 {
        Interval {
            low: low as u64,
            high: high as u64,
        }
    } else {
        all
    }
}

/// Whether no number of an interval is negative when it is read as signed.
pub fn is_non_negative(width: Width, x: Interval) -> bool
    ensures { result ≡ is_non_negative width x }
{
    match width {
        Width::Bits32 => x.high < 0x8000_0000,
        Width::Bits64 => x.high < 0x8000_0000_0000_0000,
    }
}

/// How far a count shifts.
pub fn shift_by(width: Width, count: u64) -> u64
    ensures count { result ≡ count % bit_count width }
    ensures bound { result < 64 }
{
    match width {
        Width::Bits32 => count % 32,
        Width::Bits64 => count % 64,
    }
}
