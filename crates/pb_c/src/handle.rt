//! The pointer through which C's memory owns a session.
ghost use Rattle.std.specs.Prelude.{◌≡◌, Option, Some, None, IsSome};
ghost use Rattle.pb_session.specs.Told.{Told};
ghost use Rattle.pb_c.specs.Held.{holds};

use crate::raw_box::RawBox;
use pb_session::Session;
use std::alloc::Global;
use std::marker::Model;
use std::ptr::null_mut;

/// A pointer to nothing, or to a session on the heap, which it owns. An export may not return a pointer, and no `Box` may cross
/// the border to C, so a session lies in a struct of C's memory in this form. C copies it with the struct that it lies in, and
/// never follows it. It is dropped without a call: only `into_raw_box` gives out what it owns, to be freed.
#[repr(C)]
#[derive(Drop)]
pub struct Handle {
    at: *mut u8,
    pub ghost held: { Option Told },
}

impl Model for Handle {
    ghost use Rattle.pb_c.specs.Held.{holds};
    ghost use Rattle.pb_session.specs.contracts.session.Session.{the_row};

    ghost also_owns = { λ h. holds the_row h.at h.held };
}

impl Handle {
    /// A pointer to nothing.
    pub(crate) fn none() -> Handle
        ensures { result.held ≡ None }
    {
        Handle { at: null_mut() }
    }

    /// The pointer of a box that was taken apart.
    pub(crate) fn of(session: RawBox<Session, Global>) -> Handle
        ensures { result.held ≡ Some session.value }
    {
        let RawBox { at, alloc: _ } = session;
        Handle { at: at as *mut u8 }
    }

    /// The box that was taken apart. Asks that there is one.
    pub(crate) fn into_raw_box(self, alloc: Global) -> RawBox<Session, Global>
        requires { IsSome self.held }
        ensures { Some result.value ≡ self.held }
    {
        let Handle { at } = self;
        RawBox {
            at: at as *mut Session,
            alloc,
        }
    }
}
