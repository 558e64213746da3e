//! The library for C: a program is loaded from its image, or compiled from rules, and runs on records and record
//! batches. C holds handles: a `klog_handle` of zeros is one of nothing.
#![tactic(auto)]

ghost use Rattle.std.specs.Prelude.{◌≡◌, None};

mod batches;
mod compiling;
mod explaining;
mod faults;
mod filling;
mod given_parts;
mod handle;
mod headers;
mod object;
mod outputs;
mod parts;
mod programs;
mod record_headers;
mod running;
mod runs;
mod shared;
mod texts;
mod transforming;
mod working;

use crate::handle::Handle;
use std::alloc::Global;

/// Frees what a handle holds. It holds nothing then.
#[unsafe(no_mangle)]
pub extern "C" fn klog_c_free(alloc: Global, handle: &mut Handle)
    ensures { handle.new.place.object ≡ None }
{
    drop(handle.take(alloc));
}
