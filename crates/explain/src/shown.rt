//! How what is known of a register is printed.

ghost use Rattle.std.specs.Prelude.{◌≡◌, Some};
ghost use Rattle.bpf_asm.specs.Numbers.{distance_text};
ghost use Rattle.explain.specs.Texts as definitions;

use machine_spec::Region;
use std::fmt;
use verifier_spec::Abs;

/// The name of a region.
pub fn region_word(region: Region) -> &'static str
    ensures { result.now ≡ definitions.region_word region }
{
    match region {
        Region::Stack => "stack",
        Region::Key => "key",
        Region::Value => "value",
    }
}

/// The numbers from the first to the second, both among them.
#[derive(Clone, Copy)]
pub struct Range(pub u64, pub u64);

impl fmt::Display for Range {
    ghost output = { λ range. Some (definitions.range_text range.0 range.1) };

    fn fmt<W: fmt::Write>(&self, f: &mut fmt::Formatter<W>) -> fmt::Result {
        let (low, high) = (self.0, self.1);
        if low == high {
            write!(f, "{low}")
        } else {
            write!(f, "{low} to {high}")
        }
    }
}

/// An offset, with its sign.
#[derive(Clone, Copy)]
struct Offset(i64);

impl fmt::Display for Offset {
    ghost output = { λ offset. Some (distance_text offset.0) };

    fn fmt<W: fmt::Write>(&self, f: &mut fmt::Formatter<W>) -> fmt::Result {
        let offset = self.0;
        if offset < 0 {
            write!(f, "{offset}")
        } else {
            write!(f, "+{offset}")
        }
    }
}

/// The offsets from the first to the second, both among them.
#[derive(Clone, Copy)]
struct Offsets(i64, i64);

impl fmt::Display for Offsets {
    ghost output = { λ offsets. Some (definitions.offsets_text offsets.0 offsets.1) };

    fn fmt<W: fmt::Write>(&self, f: &mut fmt::Formatter<W>) -> fmt::Result {
        let low = Offset(self.0);
        let high = Offset(self.1);
        if self.0 == self.1 {
            write!(f, "{low}")
        } else {
            write!(f, "{low} to {high}")
        }
    }
}

/// What is known of a register.
#[derive(Clone, Copy)]
pub struct Shown(pub Abs);

impl fmt::Display for Shown {
    ghost output = { λ shown. Some (definitions.kind_text shown.0) };

    fn fmt<W: fmt::Write>(&self, f: &mut fmt::Formatter<W>) -> fmt::Result {
        match self.0 {
            Abs::None => write!(f, "nothing known"),
            Abs::Num(low, high) => {
                let range = Range(low, high);
                write!(f, "{range}")
            }
            Abs::Len(region) => {
                let name = region_word(region);
                write!(f, "length of {name}")
            }
            Abs::Addr(region, low, high) => {
                let name = region_word(region);
                let offsets = Offsets(low, high);
                write!(f, "{name}{offsets}")
            }
        }
    }
}

/// The bytes from the first to the last, both among them.
#[derive(Clone, Copy)]
pub struct Bytes(pub i128, pub i128);

impl fmt::Display for Bytes {
    fn fmt<W: fmt::Write>(&self, f: &mut fmt::Formatter<W>) -> fmt::Result {
        let (first, last) = (self.0, self.1);
        if first == last {
            write!(f, "byte {first}")
        } else {
            write!(f, "bytes {first} to {last}")
        }
    }
}

/// The distances from the first to the second, both among them.
#[derive(Clone, Copy)]
pub struct Distances(pub i128, pub i128);

impl fmt::Display for Distances {
    fn fmt<W: fmt::Write>(&self, f: &mut fmt::Formatter<W>) -> fmt::Result {
        let (low, high) = (self.0, self.1);
        if low == high {
            write!(f, "{low}")
        } else {
            write!(f, "{low} to {high}")
        }
    }
}
