//! Images that are refused.

use crate::programs::image_of;
use crate::tables::all_hold;
use bpf_isa::{IsaFault, decode};
use std::alloc::{AllocError, Global};
use std::test::*;

/// Why an image is refused, if it is.
pub(crate) fn fault_of(alloc: Global, image: &[u8]) -> Option<IsaFault> {
    decode(alloc, image).err()
}

fn fault_text(alloc: Global, fault: IsaFault) -> Result<String, AllocError> {
    format!(in alloc; "{fault}")
}

fn is_shown_as(alloc: Global, fault: IsaFault, text: &str) -> bool {
    match fault_text(alloc, fault) {
        Ok(shown) => shown.as_str() == text,
        Err(_) => false,
    }
}

/// Images, and why they are refused.
static REFUSED: &str = "\
# no whole number of slots, or none
 | I1 Size
000000000000000000000000 | I1 Size
00000000000000 | I1 Size
db00000000000000 | I6 NotInProfile slot 0
8510000001000000 | I6 NotInProfile slot 0
1810000000000000 | I6 NotInProfile slot 0
2000000000000000 | I6 NotInProfile slot 0
5000000000000000 | I6 NotInProfile slot 0
c300000000000000 | I6 NotInProfile slot 0
ff00000000000000 | I2 Opcode slot 0
9900000000000000 | I2 Opcode slot 0
0000000000000000 | I2 Opcode slot 0
8f00000000000000 | I2 Opcode slot 0
b70b000000000000 | I3 Register slot 0
bfb0000000000000 | I3 Register slot 0
79bb000001000000 | I3 Register slot 0
620b000000000000 | I3 Register slot 0
7bb0000000000000 | I3 Register slot 0
# a wide instruction without its second slot, whose register or offset is refused first
180b010000000000 | I3 Register slot 0
1801010000000000 | I4 Unused slot 0
1800000000000000 | I5 Wide slot 0
# jumps whose distance is in the other field
0500000001000000 | I4 Unused slot 0
0600010000000000 | I4 Unused slot 0
721a000000000000 | I4 Unused slot 0
731a000001000000 | I4 Unused slot 0
b7b0000000000000 | I4 Unused slot 0
9500000001000000 | I4 Unused slot 0
7110000000000001 | I4 Unused slot 0
# an offset that selects no quotient and no extension, a byte order of 8 bits
3701020005000000 | I4 Unused slot 0
bc21200000000000 | I4 Unused slot 0
b701080005000000 | I4 Unused slot 0
d401000008000000 | I4 Unused slot 0
# second slots of a wide instruction; the second of three is refused before the third
b700000000000000; 1800000000000000; 9500000000000000 | I5 Wide slot 1
b700000000000000; 1800000000000000; 0010000000000000 | I5 Wide slot 1
b700000000000000; 1800000000000000; 0000010000000000 | I5 Wide slot 1
b700000000000000; 1800000000000000; 0000008000000000 | I5 Wide slot 1
b700000000000000; 9500000001000000; ffffffffffffffff | I4 Unused slot 1
";

/// Whether a row's image is refused as the row says.
fn is_refused(alloc: Global, row: &str) -> Option<bool> {
    let (slots, want) = row.split_once(" | ")?;
    let fault = fault_of(alloc, &image_of(alloc, slots)?)?;
    Some(is_shown_as(alloc, fault, want))
}

#[test]
fn refused_images(rt: HostRuntime) {
    all_hold(&rt, REFUSED, |row| is_refused(rt.alloc(), row));
}

static TEXTS: [(IsaFault, &str); 7] = [
    (IsaFault::Size, "I1 Size"),
    (IsaFault::Opcode(16_383), "I2 Opcode slot 16383"),
    (IsaFault::Register(0), "I3 Register slot 0"),
    (IsaFault::Unused(7), "I4 Unused slot 7"),
    (IsaFault::Wide(1), "I5 Wide slot 1"),
    (IsaFault::NotInProfile(0), "I6 NotInProfile slot 0"),
    (IsaFault::Memory, "I7 Memory"),
];

/// The number of the first row whose fault is not shown so.
fn first_other_text(alloc: Global, rows: &[(IsaFault, &str)]) -> Option<usize> {
    for (k, row) in rows.iter().enumerate() {
        if !is_shown_as(alloc, row.0, row.1) {
            return Some(k);
        }
    }
    None
}

#[test]
fn texts(rt: HostRuntime) {
    let other = first_other_text(rt.alloc(), &TEXTS);
    assert!(rt; other.is_none(), "{other:?}");
}
