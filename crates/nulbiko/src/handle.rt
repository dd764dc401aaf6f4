// What C holds of memory that is kept between calls: a pointer.
ghost use Rattle.std.specs.Prelude.{◌≡◌, ◌≢◌, Option, None, Some};
ghost use Rattle.nulbiko.specs.declared.kept.Kept.{Kept};
ghost use Rattle.nulbiko.specs.Keeping.{handle_owns, kept_coded};

use super::kept::Kept;
use super::parts::Parts;
use std::alloc::Global;
use std::marker::Model;
use std::mem::replace;

/// What is kept between calls, or nothing. C is passed a pointer to bytes, since no type that has a vector may cross to it.
#[repr(C)]
#[derive(Drop)]
pub struct Handle {
    at: *mut u8,
    alloc: Global,
    pub ghost kept: { Option Kept } by { kept_coded },
}

impl Model for Handle {
    ghost also_owns = { λ h. handle_owns h.alloc h.at h.kept };
}

// It may go to another thread.
unsafe impl Send for Handle {}

impl Handle {
    /// Nothing: a null pointer.
    pub fn none(alloc: Global) -> Handle
        ensures { result.kept ≡ None }
    {
        Handle {
            at: std::ptr::null_mut(),
            alloc,
        }
    }

    /// What these parts own.
    fn of(parts: Parts<Kept, Global>) -> Handle
        ensures { result.kept ≡ Some parts.value }
    {
        let Parts { at, alloc } = parts;
        Handle {
            at: at as *mut u8,
            alloc,
        }
    }

    /// The parts again.
    fn into_parts(self) -> Parts<Kept, Global>
        requires { self.kept ≢ None }
        ensures { self.kept ≡ Some result.value }
    {
        let Handle { at, alloc } = self;
        Parts {
            at: at as *mut Kept,
            alloc,
        }
    }

    /// Keeps this, in the place of nothing.
    pub(crate) fn keep(&mut self, kept: Box<Kept>)
        ensures { self.new.kept ≡ Some kept.value }
    {
        *self = Handle::of(Parts::of(kept));
    }

    /// Takes out what is kept.
    pub(crate) fn take(&mut self, alloc: Global) -> Box<Kept>
        requires { self.old.kept ≢ None }
        ensures kept { self.old.kept ≡ Some result.value }
        ensures nothing { self.new.kept ≡ None }
    {
        let handle = replace(self, Handle::none(alloc));
        handle.into_parts().into_box()
    }
}
