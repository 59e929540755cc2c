//! The solver that C holds.
ghost use Rattle.std.specs.Prelude.{◌≡◌, None, Some, is_some, nat_lt};
ghost use Rattle.std.specs.Option.{option_map};

use crate::handle::Handle;
use crate::raw_box::RawBox;
use pb_session::Session;
use std::alloc::Global;
use std::mem::replace;

/// A session, or none. In C's memory all bytes 0 mean none: `calloc` makes such a solver, and calls with one that was freed
/// still get an answer.
#[repr(C)]
#[derive(Drop)]
pub struct Solver {
    pub session: Handle,
    /// 0 where there is no session.
    made: u32,
    ghost agrees: { is_some session.held ≡ nat_lt 0 made },
}

impl Solver {
    fn none() -> Solver
        ensures { result.session.held ≡ None }
    {
        Solver {
            session: Handle::none(),
            made: 0,
        }
    }

    /// Takes the session out, if there is one.
    pub(crate) fn take(&mut self, alloc: Global) -> Option<Box<Session>>
        ensures session { option_map (λ b. b.value) result ≡ self.old.session.held }
        ensures empty { self.new.session.held ≡ None }
    {
        let Solver { session, made } = replace(self, Solver::none());
        if made == 0 {
            return None;
        }
        Some(session.into_raw_box(alloc).into_box())
    }

    /// Puts a session in. Asks that there is none, since that one would be lost.
    pub(crate) fn put(&mut self, session: Box<Session>)
        requires { self.old.session.held ≡ None }
        ensures { self.new.session.held ≡ Some session.value }
    {
        *self = Solver {
            session: Handle::of(RawBox::of(session)),
            made: 1,
        };
    }
}
