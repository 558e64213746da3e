ghost use Rattle.std.specs.Prelude.{◌≡◌, ◌≤◌, true, false, IfSome};
ghost use Rattle.verifier_spec.specs.Intervals.{if_any, equal_to, different_from, above, at_least, at_most, below, passing_part, opposite, narrowed_interval};

use machine_spec::{Test, Width};
use verifier_spec::Interval;

fn if_any(low: u64, high: u64) -> Option<Interval>
    ensures { result ≡ if_any low high }
{
    if low <= high {
        Some(Interval { low, high })
    } else {
        None
    }
}

fn equal_to(x: Interval, constant: u64) -> Option<Interval>
    ensures { result ≡ equal_to x constant }
{
    if_any(x.low.max(constant), x.high.min(constant))
}

fn different_from(x: Interval, constant: u64) -> Option<Interval>
    requires { x.low ≤ x.high }
    ensures { result ≡ different_from x constant }
{
    if x.low == constant {
        above(x, constant)
    } else if x.high == constant {
        if_any(x.low, x.high.saturating_sub(1))
    } else {
        Some(x)
    }
}

fn above(x: Interval, constant: u64) -> Option<Interval>
    ensures { result ≡ above x constant }
{
    if constant < x.high {
        if_any(x.low.max(constant + 1), x.high)
    } else {
        None
    }
}

fn at_least(x: Interval, constant: u64) -> Option<Interval>
    ensures { result ≡ at_least x constant }
{
    if_any(x.low.max(constant), x.high)
}

fn at_most(x: Interval, constant: u64) -> Option<Interval>
    ensures { result ≡ at_most x constant }
{
    if_any(x.low, x.high.min(constant))
}

fn below(x: Interval, constant: u64) -> Option<Interval>
    ensures { result ≡ below x constant }
{
    if constant == 0 {
        None
    } else {
        at_most(x, constant - 1)
    }
}

/// What a test leaves of an interval where it holds.
fn passing_part(test: Test, x: Interval, constant: u64) -> Option<Interval>
    requires { x.low ≤ x.high }
    ensures { result ≡ passing_part test x constant }
{
    match test {
        Test::Equal => equal_to(x, constant),
        Test::NotEqual => different_from(x, constant),
        Test::Greater => above(x, constant),
        Test::GreaterOrEqual => at_least(x, constant),
        Test::Less => below(x, constant),
        Test::LessOrEqual => at_most(x, constant),
        Test::AnyBit
        | Test::SignedGreater
        | Test::SignedGreaterOrEqual
        | Test::SignedLess
        | Test::SignedLessOrEqual => Some(x),
    }
}

/// The test that holds where another does not; of those that leave all, the same.
fn opposite(test: Test) -> Test
    ensures { result ≡ opposite test }
{
    match test {
        Test::Equal => Test::NotEqual,
        Test::NotEqual => Test::Equal,
        Test::Greater => Test::LessOrEqual,
        Test::GreaterOrEqual => Test::Less,
        Test::Less => Test::GreaterOrEqual,
        Test::LessOrEqual => Test::Greater,
        Test::AnyBit
        | Test::SignedGreater
        | Test::SignedGreaterOrEqual
        | Test::SignedLess
        | Test::SignedLessOrEqual => test,
    }
}

fn edge(width: Width, test: Test, along: bool, x: Interval, constant: u64) -> Option<Interval>
    requires { x.low ≤ x.high }
    ensures { result ≡ narrowed_interval width test along x constant }
{
    match width {
        Width::Bits32 => Some(x),
        Width::Bits64 => {
            if along {
                passing_part(test, x, constant)
            } else {
                passing_part(opposite(test), x, constant)
            }
        }
    }
}

/// What a jump against a constant leaves of an interval where it is taken, or where it is not; none
/// where no number is left.
pub fn narrowed(
    width: Width,
    test: Test,
    along: bool,
    x: Interval,
    constant: u64,
) -> Option<Interval>
    requires { x.low ≤ x.high }
    ensures narrowed { result ≡ narrowed_interval width test along x constant }
    ensures inside { IfSome result (λ part. (x.low ≤ part.low) × ((part.low ≤ part.high) × (part.high ≤ x.high))) }
{
    edge(width, test, along, x, constant)
}
