//! Headers that C collects for records.

ghost use Rattle.std.specs.Prelude.{◌≡◌, Some, None, Ok, []};
ghost use Rattle.klog_c.specs.Calls as definitions;

use crate::faults::{KIND, OK};
use crate::filling::fill;
use crate::handle::Handle;
use crate::object::Object;
use crate::record_headers::RecordHeaders;
use std::alloc::Global;

/// Adds a header to an object's.
pub(crate) fn add_to(
    alloc: Global,
    object: &mut Object,
    key: &[u8],
    value: &[u8],
    is_null: bool,
) -> u32
    ensures { definitions.AddsHeader (definitions.headers_in (Some object.old)) key.now is_null value.now (Some object.old) (Some object.new) result }
{
    match object {
        Object::Program(_) | Object::Outcome(_) | Object::Text(_) | Object::Batches(_) => KIND,
        Object::Headers(headers) => headers.add(alloc, key, value, is_null),
    }
}

/// Puts a first header into a handle of nothing.
pub(crate) fn add_first(
    alloc: Global,
    handle: &mut Handle,
    key: &[u8],
    value: &[u8],
    is_null: bool,
) -> u32
    requires { handle.old.place.object ≡ None }
    ensures { definitions.AddsHeader (Ok []) key.now is_null value.now None handle.new.place.object result }
{
    let mut headers = RecordHeaders::new(alloc);
    let fault = headers.add(alloc, key, value, is_null);
    if fault != OK {
        return fault;
    }
    fill(alloc, handle, Object::Headers(headers))
}
