//! Sessions: an instance that is told sum by sum, and questions on it, for callers from other languages. Statements may follow
//! questions, and questions statements. No thread is started.
#![tactic(auto)]

mod asking;
mod faults;
mod found;
mod ready;
mod session;

pub use faults::SessionFault;
pub use found::Found;
pub use session::Session;
