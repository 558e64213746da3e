//! What C holds: a pointer to an object, or to none.
ghost use Rattle.std.specs.Prelude.{◌≡◌, Some, None, IsSome};
ghost use Rattle.klog_c.specs.Handles.{Held, object_coded, handle_owns, is_full, taken};

use crate::object::{Object, Taken};
use crate::parts::Parts;
use std::alloc::Global;
use std::marker::Model;
use std::mem;
use std::ptr::null_mut;

/// A pointer to an object, if there is one.
#[repr(C)]
pub struct Place {
    at: *mut u8,
    alloc: Global,
    pub ghost object: { Held } by { object_coded },
}

impl Model for Place {
    ghost also_owns = { λ s. handle_owns s.alloc s.at s.object };
}

impl Place {
    /// A place of nothing.
    fn empty(alloc: Global) -> Place
        ensures { result.object ≡ None }
    {
        Place {
            at: null_mut(),
            alloc,
        }
    }

    /// The place of an object in a box.
    fn of_parts(parts: Parts<Object, Global>) -> Place
        ensures { result.object ≡ Some parts.value }
    {
        let Parts { ptr, alloc } = parts;
        Place {
            at: ptr as *mut u8,
            alloc,
        }
    }

    /// Ends a place of nothing. One of an object can't be let go.
    fn end(self) -> Global
        requires { self.object ≡ None }
        ensures { result ≡ self.alloc }
    {
        let Place { at: _, alloc } = self;
        alloc
    }

    /// The box's parts, of a place of an object.
    fn into_parts(self) -> Parts<Object, Global>
        requires { IsSome self.object }
        ensures { self.object ≡ Some result.value }
    {
        let Place { at, alloc } = self;
        Parts {
            ptr: at as *mut Object,
            alloc,
        }
    }
}

/// A handle of C's.
#[repr(C)]
pub struct Handle {
    pub place: Place,
    full: bool,
    ghost agrees: { full ≡ is_full place.object },
}

impl Handle {
    /// A handle of an object, or of nothing.
    fn of(alloc: Global, object: Taken) -> Handle
        ensures { result.place.object ≡ taken object }
    {
        match object {
            None => Handle {
                place: Place::empty(alloc),
                full: false,
            },
            Some(object) => Handle {
                place: Place::of_parts(Parts::of(object)),
                full: true,
            },
        }
    }

    /// The object, if there is one.
    fn into_box(self) -> Taken
        ensures { taken result ≡ self.place.object }
    {
        let Handle { place, full } = self;
        if !full {
            place.end();
            return None;
        }
        Some(place.into_parts().into_box())
    }

    /// Takes the object out.
    pub(crate) fn take(&mut self, alloc: Global) -> Taken
        ensures object { taken result ≡ self.old.place.object }
        ensures left { self.new.place.object ≡ None }
    {
        mem::replace(self, Handle::of(alloc, None)).into_box()
    }

    /// Puts an object in, and frees the one that was there.
    pub(crate) fn put(&mut self, alloc: Global, object: Box<Object>)
        ensures { self.new.place.object ≡ Some object.value }
    {
        drop(mem::replace(self, Handle::of(alloc, Some(object))).into_box());
    }

    /// Puts back what was taken out.
    pub(crate) fn put_back(&mut self, alloc: Global, object: Taken)
        requires { self.old.place.object ≡ None }
        ensures { self.new.place.object ≡ taken object }
    {
        if let Some(object) = object {
            self.put(alloc, object);
        }
    }
}

// A place goes to another thread with its object, which may go there.
unsafe impl Send for Place {}

fn is_send<T: Send>() {}

fn is_sync<T: Sync>() {}

/// A handle may go to another thread, and several threads may read its object at once.
pub(crate) fn may_cross() {
    is_send::<Handle>();
    is_sync::<Object>()
}
