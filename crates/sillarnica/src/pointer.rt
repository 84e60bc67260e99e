//! A verified class behind a pointer that C keeps.

ghost use Rattle.std.specs.Prelude.{◌≡◌, Option, Some, None};
ghost use Rattle.sillarnica.specs.Held.{IsHeld};
ghost use Rattle.sillarnica.specs.inner.Owned.{Held, pointer_owns, coded_class};

use class_loops::HeldClass;
use std::alloc::Global;
use std::marker::Model;

/// The pointer to a class on the heap, which it owns; or null.
///
/// C sees a `void *`: a `HeldClass` is no type of C's. A `Global` takes no bytes.
#[repr(C)]
#[derive(Drop)]
pub struct ClassPointer {
    at: *mut u8,
    alloc: Global,
    pub(crate) ghost class: { Option Held } by { coded_class },
}

impl Model for ClassPointer {
    ghost also_owns = { λ p. pointer_owns p.alloc p.at p.class };
}

// A class is plain data, so C may hand it from one thread to another.
unsafe impl Send for ClassPointer {}

impl ClassPointer {
    /// Null.
    pub(crate) fn null(alloc: Global) -> ClassPointer
        ensures { result.class ≡ None }
    {
        ClassPointer {
            at: std::ptr::null_mut(),
            alloc,
        }
    }

    /// The pointer of a box, which is taken apart.
    pub(crate) fn of(whole: Box<HeldClass, Global>) -> ClassPointer
        ensures { result.class ≡ Some whole.value }
    {
        let (ptr, alloc) = Box::into_raw_with_allocator(whole);
        ClassPointer {
            at: ptr.cast::<u8>(),
            alloc,
        }
    }

    /// The box again, of the class that is held.
    pub(crate) fn into_box(self) -> Box<HeldClass, Global>
        requires { IsHeld self.class }
        ensures { self.class ≡ Some result.value }
    {
        let ClassPointer { at, alloc } = self;
        unsafe { Box::from_raw(alloc, at.cast::<HeldClass>()) }
    }
}
