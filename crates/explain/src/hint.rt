//! What usually leads to a refusal, and what to do about it.

use crate::shown::{Bytes, Shown, region_word};
use machine_spec::Region;
use thiserror::Error;
use verifier_spec::Abs;

/// Which tests tell nothing.
const NO_TEST: &str = "a test of 32 bits, of two registers or of signed numbers says nothing of it";

/// What an edge propagates of a register, and the slot of the instruction that it begins at.
#[derive(Clone, Copy, Debug, PartialEq, Eq, Error)]
#[error("{known} from slot {slot}", known = Shown(*.kind))]
pub struct Edge {
    pub kind: Abs,
    pub slot: usize,
}

/// What usually leads to a refusal, and what to do about it, beside what it is about.
#[derive(Clone, Copy, Debug, PartialEq, Eq, Error)]
pub enum Hint {
    /// A small number is used as an address, as the place of a global or of a constant table is.
    #[error("a small number as address is a global, a text or a table of constants: klog has none, so use a variable of the function, as `u8 text[] = \"..\";`")]
    Global,
    /// Another number is used as an address.
    #[error("a number that was loaded or computed is no address: move the addresses of the value, the key or a variable")]
    NoPointer,
    /// A length is used as an address.
    #[error("a length is no address: transform takes the value, its length, the key, its length")]
    Length,
    /// An address is stored.
    #[error("an address is stored, mostly because registers ran out: compile with -O2 and keep fewer values over a call")]
    Spilled,
    /// Addresses are compared.
    #[error("addresses are not compared: compare indices or lengths, and for a null key look at `nulls & KEY_IS_NULL`")]
    Compared,
    /// An address is computed with in another way than by a sum of 64 bits.
    #[error("an address is only moved, by a 64-bit sum with a number: compute with indices")]
    Computed,
    /// A number that moves an address may be anything.
    #[error("bound the number first; {note}", note = NO_TEST)]
    Unbounded,
    /// The key or the value is written.
    #[error("copy the bytes to a variable and write there")]
    ReadOnly,
    /// The key or the value may lack bytes. Fields: which, the first byte and the last.
    #[error("{bytes} of the {name} may be missing: check first that its length is at least {least}; {note}", bytes = Bytes(*.1, *.2), name = region_word(*.0), least = .2.saturating_add(1), note = NO_TEST)]
    Missing(Region, i128, i128),
    /// A byte of the key or the value is too far for a test of its length. Fields: which, the byte.
    #[error("bytes up to {1} of the {name} may be reached: bound the index first", name = region_word(*.0))]
    Far(Region, i128),
    /// No key, value or stack has such bytes. Fields: which, the first byte and the last.
    #[error("no {name} has {bytes}: bound the index or the length first", name = region_word(*.0), bytes = Bytes(*.1, *.2))]
    NoBytes(Region, i128, i128),
    /// Bytes of the stack may not be set. Fields: the first and the last.
    #[error("stack {bytes} may not be set: padding, or set on some paths only; begin the variable with `= {{0}}`", bytes = Bytes(i128::from(*.0), i128::from(*.1)))]
    Unset(u64, u64),
    /// Room is not on the stack.
    #[error("room is on the stack: pass the address of a variable")]
    Room,
    /// Room may have no byte.
    #[error("the length may be 0: check first that it is at least 1; {note}", note = NO_TEST)]
    NoRoom,
    /// The code from a slot on comes to the jump at another, which leads back to the first.
    #[error("a loop: the code from slot {0} on comes to slot {1} again; build the C by `tools/klogc/klogc build SOURCE`, which copies the rounds")]
    Loop(i128, usize),
    /// It doesn't come to that jump.
    #[error("no loop: the code from slot {0} on does not come to slot {1} again; make the image by `tools/klogc/klogc image OBJECT IMAGE`, which orders it so that jumps lead forward")]
    Order(i128, usize),
    /// Two edges propagate different kinds of a register. Fields: the edges, the slot where they meet.
    #[error("{0} and {1} meet at slot {2}: set it on both paths, to one kind of value")]
    Met(Edge, Edge, usize),
    /// The call at a slot leaves nothing in a register.
    #[error("the call at slot {0} leaves nothing in r1 to r5: keep values in r6 to r9")]
    Called(usize),
    /// No path sets a register.
    #[error("no path to here sets it: a variable is read before it is set")]
    NeverSet,
    /// A helper is called that only table two has.
    #[error("helper table 2 has it: name the table where the program is checked and loaded, as in `klog check IMAGE 2` and `load NAME FILE 2`")]
    TableTwo,
}
