//! The numbers that calls answer: above 0 what a search found, and below 0 why a call did nothing.

ghost use Rattle.std.specs.Prelude.{◌≡◌};
ghost use Rattle.pb_c.specs.Codes.{answer_code, fault_code};

use pb_inst::{InstFault, Number};
use pb_session::SessionFault;
use pb_solve::{Ran, Status};

/// The call did what it says.
pub const OK: i32 = 0;

/// The search was cut by its budget, and found nothing.
pub const UNKNOWN: i32 = 1;

/// There is no objective, and the first feasible assignment was found.
pub const SATISFIABLE: i32 = 10;

/// The search was cut by its budget, and found a feasible assignment, which may not be the least. This has a code of its own,
/// since a caller who takes it for the answer may be wrong.
pub const FOUND: i32 = 11;

/// No assignment is feasible. Of an explanation: the core is minimal.
pub const UNSATISFIABLE: i32 = 20;

/// No assignment is feasible under the core, and the budget ended before it was known to be minimal: a caller who shows it as
/// the reason may show more than the reason.
pub const CORE: i32 = 21;

/// The least assignment was found.
pub const OPTIMUM: i32 = 30;

/// The text was refused.
pub const UNSUPPORTED: i32 = 40;

/// A variable is not from 1 to `MAX_VARS`, or is not one of the instance's.
pub const BAD_VARIABLE: i32 = -1;

/// The absolute values of a statement's numbers add up to more than the bound on sums.
pub const TOO_LARGE: i32 = -2;

/// There would be more constraints or terms than an instance may have.
pub const TOO_MANY: i32 = -3;

/// Memory was refused.
pub const MEMORY: i32 = -4;

/// The terms of a sum were given, and the sum was not ended.
pub const UNENDED: i32 = -5;

/// Nothing was found.
pub const NO_ANSWER: i32 = -7;

/// A relation, a format or what is asked about is none of those named, or a value is neither 0 nor 1.
pub const BAD_ARGUMENT: i32 = -8;

/// The cost does not fit 64 bits.
pub const OUT_OF_RANGE: i32 = -9;

/// The solver was not made, or was freed.
pub const EMPTY: i32 = -10;

/// There is not one value for each variable.
pub const BAD_LENGTH: i32 = -11;

/// The least cost that fits 64 bits, -2^63.
pub(crate) const LEAST_COST: Number = -9_223_372_036_854_775_808;

/// The greatest cost that fits 64 bits, 2^63 - 1.
pub(crate) const GREATEST_COST: Number = 9_223_372_036_854_775_807;

/// The code of what a session refused.
pub(crate) fn code_of_fault(fault: SessionFault) -> i32
    ensures { result ≡ fault_code fault }
{
    match fault {
        SessionFault::Statement(InstFault::BadVariable) => BAD_VARIABLE,
        SessionFault::Statement(InstFault::TooLarge) => TOO_LARGE,
        SessionFault::Statement(InstFault::TooMany) => TOO_MANY,
        SessionFault::Statement(InstFault::Memory) => MEMORY,
        SessionFault::Unended => UNENDED,
        SessionFault::Length => BAD_LENGTH,
    }
}

/// The code of how a search ended.
pub(crate) fn code_of_answer(ran: Ran) -> i32
    ensures { result ≡ answer_code ran.status ran.cut }
{
    match ran.status {
        Status::Optimum => OPTIMUM,
        Status::Satisfiable if ran.cut => FOUND,
        Status::Satisfiable => SATISFIABLE,
        Status::Unsatisfiable => UNSATISFIABLE,
        Status::Unsupported => UNSUPPORTED,
        Status::Unknown => UNKNOWN,
    }
}
