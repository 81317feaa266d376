//! What a caller in C holds of a replica: a pointer, which is null or that of a box. Its proofs are
//! by hand: `HandleValues` has what a handle owns, `into_loose`, `of_loose` and `empty` follow the
//! code, and `TheSendSync` shows that a handle may go to another thread.
ghost use Rattle.std.specs.Prelude.{◌≡◌, MatchOption};
ghost use Rattle.std.specs.declared.option.Option.{Option};
ghost use Rattle.std.specs.declared.option.Option.TheVariants.{None, Some};
ghost use denote.RawPtr.{null_ptr};
ghost use Rattle.fedbundle_c.specs.Holding.{handle_owns};
ghost use Rattle.fedbundle_c.specs.declared.held_replica.Replica.{Replica};

use crate::held_replica::Replica;
use crate::loose::Loose;
use std::alloc::Global;
use std::marker::Model;
use std::mem;
use std::ptr::null_mut;

/// A place for a replica. C sees a struct of one pointer.
#[repr(C)]
pub struct Handle {
    at: *mut u8,
    alloc: Global,
    ghost value: { Option Replica },
}

impl Model for Handle {
    ghost also_owns = { λ h. handle_owns h.alloc h.at h.value };
}

unsafe impl Send for Handle {}

impl Handle {
    // The handle of a null pointer.
    fn empty(at: *mut u8, alloc: Global) -> Handle
        requires { at ≡ null_ptr }
        ensures { result.value ≡ None }
    {
        Handle { at, alloc }
    }

    // The handle of a box.
    fn of_loose(loose: Loose<Replica, Global>) -> Handle
        ensures { result.value ≡ Some loose.value }
    {
        let Loose { at, alloc } = loose;
        Handle {
            at: at as *mut u8,
            alloc,
        }
    }

    // What the handle holds, if it is open.
    fn into_loose(self) -> Option<Loose<Replica, Global>>
        ensures { MatchOption result (self.value ≡ None) (λ l. self.value ≡ Some l.value) }
    {
        let Handle { at, alloc } = self;
        if at.is_null() {
            None
        } else {
            Some(Loose {
                at: at as *mut Replica,
                alloc,
            })
        }
    }

    /// Takes out what the handle holds, and closes it.
    pub(crate) fn take_out(&mut self, alloc: Global) -> Option<Box<Replica>>
        ensures taken { MatchOption result (self.old.value ≡ None)
            (λ b. self.old.value ≡ Some b.value) }
        ensures closed { self.new.value ≡ None }
    {
        let at = null_mut();
        let closed = Handle::empty(at, alloc);
        match mem::replace(self, closed).into_loose() {
            Some(loose) => Some(loose.into_box()),
            None => None,
        }
    }

    /// Puts a replica in. What was there is freed.
    pub(crate) fn put(&mut self, replica: Box<Replica>)
        ensures { self.new.value ≡ Some replica.value }
    {
        let before = mem::replace(self, Handle::of_loose(Loose::of(replica)));
        if let Some(loose) = before.into_loose() {
            drop(loose.into_box());
        }
    }
}
