//! Threads beside each other.

ghost use Rattle.std.specs.Prelude.{◌<◌, ℕ};

use std::alloc::Global;
use std::thread;
use std::thread::Threads;

/// Whether two calls at once, of 0 and of 1, both answer true.
pub(crate) fn both<R: Threads + Sync, F: Fn(usize) -> bool + Sync>(
    rt: &R,
    alloc: Global,
    one: &F,
) -> bool
    requires { (i : ℕ) → i < 2 → F.pre one.now i }
{
    match thread::map_indices(rt, alloc, 2, one) {
        Ok(right) => right.as_slice() == [true, true].as_slice(),
        Err(_) => false,
    }
}
