//! Making a solver and freeing it.
ghost use Rattle.std.specs.Prelude.{◌≡◌, ◌≢◌, ◌⊎◌, None, Some};
ghost use Rattle.pb_session.specs.Told.{nothing_told};
ghost use Rattle.pb_c.specs.declared.codes.TheConstants.{OK, MEMORY};

use crate::codes::{MEMORY, OK};
use crate::solver::Solver;
use pb_session::Session;
use std::alloc::Global;

/// Makes a session that was told nothing, in place of the solver's last one if it has one. Answers `OK`, or `MEMORY` where
/// memory is refused, and then changes nothing.
#[unsafe(no_mangle)]
pub extern "C" fn pb_c_new(alloc: Global, solver: &mut Solver) -> i32
    ensures made { result ≡ OK → solver.new.session.held ≡ Some nothing_told }
    ensures unchanged { result ≢ OK → solver.new.session.held ≡ solver.old.session.held }
    ensures codes { (result ≡ OK) ⊎ (result ≡ MEMORY) }
{
    let Ok(session) = Box::new(alloc, Session::new(alloc)) else {
        return MEMORY;
    };
    drop(solver.take(alloc));
    solver.put(session);
    OK
}

/// Frees the session and all that it holds, if there is one.
#[unsafe(no_mangle)]
pub extern "C" fn pb_c_free(alloc: Global, solver: &mut Solver)
    ensures { solver.new.session.held ≡ None }
{
    let _freed = solver.take(alloc);
}
