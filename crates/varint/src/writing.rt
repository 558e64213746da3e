ghost use Rattle.std.specs.Prelude.{◌≡◌, ◌≤◌, ◌+◌, length, ◌++◌, vec_len, vec_capacity, OnOk, OnErr};
ghost use Rattle.wire_spec.specs.Varint.{zigzag, groups, varint, varlong};

use std::alloc::AllocError;

/// Writes a number's groups of seven bits at the end, where there is room for them.
#[inline(never)]
fn push_more(number: u64, out: &mut Vec<u8>)
    requires { vec_len out.old + length (groups 10 number) ≤ vec_capacity out.old }
    ensures items { out.new.items ≡ out.old.items ++ groups 10 number }
    ensures len { vec_len out.new ≡ vec_len out.old + length (groups 10 number) }
    ensures capacity { vec_capacity out.new ≡ vec_capacity out.old }
{
    let mut rest = number;
    for _ in 0..9usize {
        if rest < 128 {
            out.push_reserved(rest as u8);
            return;
        }
        out.push_reserved((128 + rest % 128) as u8);
        rest /= 128;
    }
    out.push_reserved(rest as u8);
}

/// The same without a loop where there are one or two: most numbers of a record have no more.
#[tactic(auto, unfolding(wire_spec::specs::Varint::groups))]
#[inline(always)]
fn push_groups(number: u64, out: &mut Vec<u8>)
    requires { vec_len out.old + length (groups 10 number) ≤ vec_capacity out.old }
    ensures items { out.new.items ≡ out.old.items ++ groups 10 number }
    ensures len { vec_len out.new ≡ vec_len out.old + length (groups 10 number) }
    ensures capacity { vec_capacity out.new ≡ vec_capacity out.old }
{
    if number < 128 {
        out.push_reserved(number as u8);
    } else if number < 16_384 {
        out.push_reserved((128 + number % 128) as u8);
        out.push_reserved((number / 128) as u8);
    } else {
        push_more(number, out);
    }
}

/// Writes a number's groups of seven bits at the end.
#[inline(always)]
fn write_groups(number: u64, out: &mut Vec<u8>) -> Result<(), AllocError>
    ensures ok { OnOk result (out.new.items ≡ out.old.items ++ groups 10 number) }
    ensures err { OnErr result (out.new.items ≡ out.old.items) }
{
    out.reserve(groups_len(number))?;
    push_groups(number, out);
    Ok(())
}

/// How many groups of seven bits a number has.
#[inline(always)]
fn groups_len(number: u64) -> usize
    ensures { result ≡ length (groups 10 number) }
{
    let mut rest = number;
    for len in 1..10 {
        if rest < 128 {
            return len;
        }
        rest /= 128;
    }
    10
}

/// The zigzag number.
#[inline(always)]
fn zigzag_of(value: i64) -> u64
    ensures { result ≡ zigzag value }
{
    if value >= 0 {
        2 * value as u64
    } else {
        2 * (-1 - value) as u64 + 1
    }
}

/// Writes the varint of a number at the end, in 1 to 5 bytes. It fails only where memory runs out;
/// an `Err` leaves the bytes as they were.
#[tactic(auto, unfolding(wire_spec::specs::Varint::varint))]
#[inline(always)]
pub fn write32(value: i32, out: &mut Vec<u8>) -> Result<(), AllocError>
    ensures ok { OnOk result (out.new.items ≡ out.old.items ++ varint value) }
    ensures err { OnErr result (out.new.items ≡ out.old.items) }
{
    write_groups(zigzag_of(value as i64), out)
}

/// Writes the varlong of a number at the end, in 1 to 10 bytes. It fails only where memory runs
/// out; an `Err` leaves the bytes as they were.
#[tactic(auto, unfolding(wire_spec::specs::Varint::varlong))]
#[inline(always)]
pub fn write64(value: i64, out: &mut Vec<u8>) -> Result<(), AllocError>
    ensures ok { OnOk result (out.new.items ≡ out.old.items ++ varlong value) }
    ensures err { OnErr result (out.new.items ≡ out.old.items) }
{
    write_groups(zigzag_of(value), out)
}

/// Writes the varint of a number at the end, where there is room for it.
#[inline(always)]
pub fn push32(value: i32, out: &mut Vec<u8>)
    requires { vec_len out.old + length (varint value) ≤ vec_capacity out.old }
    ensures items { out.new.items ≡ out.old.items ++ varint value }
    ensures len { vec_len out.new ≡ vec_len out.old + length (varint value) }
    ensures capacity { vec_capacity out.new ≡ vec_capacity out.old }
{
    push_groups(zigzag_of(value as i64), out)
}

/// Writes the varlong of a number at the end, where there is room for it.
#[tactic(auto, unfolding(wire_spec::specs::Varint::varlong))]
#[inline(always)]
pub fn push64(value: i64, out: &mut Vec<u8>)
    requires { vec_len out.old + length (varlong value) ≤ vec_capacity out.old }
    ensures items { out.new.items ≡ out.old.items ++ varlong value }
    ensures len { vec_len out.new ≡ vec_len out.old + length (varlong value) }
    ensures capacity { vec_capacity out.new ≡ vec_capacity out.old }
{
    push_groups(zigzag_of(value), out)
}

/// How many bytes the varint of a number has, 1 to 5.
#[tactic(auto, unfolding(wire_spec::specs::Varint::varint))]
#[inline(always)]
pub fn len32(value: i32) -> usize
    ensures size { result ≡ length (varint value) }
    ensures small { result ≤ 5 }
{
    groups_len(zigzag_of(value as i64))
}

/// How many bytes the varlong of a number has, 1 to 10.
#[tactic(auto, unfolding(wire_spec::specs::Varint::varlong))]
#[inline(always)]
pub fn len64(value: i64) -> usize
    ensures size { result ≡ length (varlong value) }
    ensures small { result ≤ 10 }
{
    groups_len(zigzag_of(value))
}
