//! How a handle is filled.

ghost use Rattle.std.specs.Prelude.{◌≡◌, Option, Some, IfOk};
ghost use Rattle.klog_c.specs.Calls as definitions;
ghost use Rattle.klog_c.specs.declared.object.Object.{Object};

use crate::faults::{KIND, MEMORY, OK};
use crate::handle::Handle;
use crate::object::Object;
use std::alloc::Global;

/// The kind of an object, as a number.
fn kind_of(object: &Object) -> u32
    ensures { result ≡ definitions.kind_of object.now }
{
    match object {
        Object::Program(_) => 0,
        Object::Outcome(_) => 1,
        Object::Text(_) => 2,
        Object::Batches(_) => 3,
        Object::Headers(_) => 4,
    }
}

/// Puts an object into a handle that holds nothing or one of the same kind.
fn fill_with(alloc: Global, handle: &mut Handle, object: Box<Object>) -> u32
    ensures { definitions.Fills object.value handle.old.place.object handle.new.place.object result }
{
    let Some(held) = handle.take(alloc) else {
        handle.put(alloc, object);
        return OK;
    };
    if kind_of(&held) == kind_of(&object) {
        handle.put(alloc, object);
        OK
    } else {
        handle.put(alloc, held);
        KIND
    }
}

/// Puts an object into a handle that holds nothing or one of the same kind, which is freed.
pub(crate) fn fill(alloc: Global, handle: &mut Handle, object: Object) -> u32
    ensures { definitions.Fills object handle.old.place.object handle.new.place.object result }
{
    match Box::new(alloc, object) {
        Err(_) => MEMORY,
        Ok(object) => fill_with(alloc, handle, object),
    }
}
