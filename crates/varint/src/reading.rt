ghost use Rattle.std.specs.Prelude.{◌≡◌, ℕ, ◌+◌, ◌≤◌, ◌⊎◌, ◌↔◌, ℤ, List, ◌++◌, length, take, Ok, IfOk, FitsSigned};
ghost use Rattle.std.specs.Int.{w32, w64};
ghost use Rattle.wire_spec.specs.Varint.{varint, varlong, IsVarint, IsVarlong, unzigzag, read_base128, read_varint, read_varlong};

use wire_spec::VarintFault;

/// The number in groups of seven bits at the front, of at most `most` bytes, and how many it takes.
#[cold]
#[inline(never)]
fn read_groups(bytes: &[u8], most: usize, top: u8) -> Result<(u64, usize), VarintFault>
    requires { ((most ≡ 5) × (top ≡ 15)) ⊎ ((most ≡ 10) × (top ≡ 1)) }
    ensures { result ≡ read_base128 most top bytes.now }
{
    let mut number: u64 = 0;
    for at in 0..most - 1 {
        if at >= bytes.len() {
            return Err(VarintFault::Short);
        }
        let byte = bytes[at];
        if byte < 128 {
            if byte == 0 && at > 0 {
                return Err(VarintFault::NotShortest);
            }
            return Ok((number + ((byte as u64) << (7 * at as u32)), at + 1));
        }
        number += ((byte - 128) as u64) << (7 * at as u32);
    }
    if bytes.len() < most {
        return Err(VarintFault::Short);
    }
    let byte = bytes[most - 1];
    if byte > top {
        return Err(VarintFault::Long);
    }
    if byte == 0 {
        return Err(VarintFault::NotShortest);
    }
    Ok((number + ((byte as u64) << (7 * (most - 1) as u32)), most))
}

/// The same, apart from what reads fewer bytes, which so keeps its answer in registers.
#[inline(always)]
fn more_groups(bytes: &[u8], most: usize, top: u8) -> Result<(u64, usize), VarintFault>
    requires { ((most ≡ 5) × (top ≡ 15)) ⊎ ((most ≡ 10) × (top ≡ 1)) }
    ensures { result ≡ read_base128 most top bytes.now }
{
    read_groups(bytes, most, top)
}

/// The same without a loop where it takes one byte or two: most numbers of a record take no more.
#[inline(always)]
fn groups_of(bytes: &[u8], most: usize, top: u8) -> Result<(u64, usize), VarintFault>
    requires { ((most ≡ 5) × (top ≡ 15)) ⊎ ((most ≡ 10) × (top ≡ 1)) }
    ensures { result ≡ read_base128 most top bytes.now }
{
    if bytes.len() < 2 {
        return more_groups(bytes, most, top);
    }
    let first = bytes[0];
    if first < 128 {
        return Ok((first as u64, 1));
    }
    let second = bytes[1];
    if second == 0 || second >= 128 {
        return more_groups(bytes, most, top);
    }
    Ok(((first - 128) as u64 + 128 * second as u64, 2))
}

/// The number that has this zigzag number.
#[inline(always)]
fn signed_of(number: u64) -> i64
    ensures { result ≡ unzigzag number }
{
    let half = (number / 2) as i64;
    if number % 2 == 0 { half } else { -1 - half }
}

#[tactic(auto, unfolding(wire_spec::specs::Varint::read_varint))]
#[inline(always)]
fn varint_of(bytes: &[u8]) -> Result<(i32, usize), VarintFault>
    ensures { result ≡ read_varint bytes.now }
{
    let (number, used) = groups_of(bytes, 5, 0x0f)?;
    Ok((signed_of(number) as i32, used))
}

#[tactic(auto, unfolding(wire_spec::specs::Varint::read_varlong))]
#[inline(always)]
fn varlong_of(bytes: &[u8]) -> Result<(i64, usize), VarintFault>
    ensures { result ≡ read_varlong bytes.now }
{
    let (number, used) = groups_of(bytes, 10, 0x01)?;
    Ok((signed_of(number), used))
}

/// The varint at the front of the bytes, and how many of them it takes, 1 to 5. It fails where there
/// is none: as `Short` where no byte of fewer than 5 ends it, as `Long` where the fifth doesn't or has
/// bits past the 32nd, as `NotShortest` where fewer bytes would do.
#[inline(always)]
pub fn read32(bytes: &[u8]) -> Result<(i32, usize), VarintFault>
    // What is read is spelled so.
    ensures found { IfOk result (λ x. (x.1 ≤ length bytes.now) × IsVarint (take x.1 bytes.now) x.0) }
    // What is spelled so is read, whatever follows it.
    ensures only { (form rest : List ℕ) (z : ℤ) → IsVarint form z → bytes.now ≡ form ++ rest → result ≡ Ok (z, length form) }
    // Which fault it is.
    ensures exact { result ≡ read_varint bytes.now }
{
    varint_of(bytes)
}

/// The varlong at the front of the bytes, and how many of them it takes, 1 to 10. It fails where there
/// is none: as `Short` where no byte of fewer than 10 ends it, as `Long` where the tenth doesn't or has
/// bits past the 64th, as `NotShortest` where fewer bytes would do.
#[inline(always)]
pub fn read64(bytes: &[u8]) -> Result<(i64, usize), VarintFault>
    // What is read is spelled so.
    ensures found { IfOk result (λ x. (x.1 ≤ length bytes.now) × IsVarlong (take x.1 bytes.now) x.0) }
    // What is spelled so is read, whatever follows it.
    ensures only { (form rest : List ℕ) (z : ℤ) → IsVarlong form z → bytes.now ≡ form ++ rest → result ≡ Ok (z, length form) }
    // Which fault it is.
    ensures exact { result ≡ read_varlong bytes.now }
{
    varlong_of(bytes)
}

/// A number has one spelling, and no spelling begins another.
pub fn one_spelling()
    ensures varint { (a b x y : List ℕ) (z w : ℤ) → IsVarint a z → IsVarint b w → a ++ x ≡ b ++ y → (a ≡ b) × (z ≡ w) }
    ensures varlong { (a b x y : List ℕ) (z w : ℤ) → IsVarlong a z → IsVarlong b w → a ++ x ≡ b ++ y → (a ≡ b) × (z ≡ w) }
    ensures varint_spelling { (form : List ℕ) (z : ℤ) → IsVarint form z ↔ (FitsSigned w32 z × (form ≡ varint z)) }
    ensures varlong_spelling { (form : List ℕ) (z : ℤ) → IsVarlong form z ↔ (FitsSigned w64 z × (form ≡ varlong z)) }
{}
