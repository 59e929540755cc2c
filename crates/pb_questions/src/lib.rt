//! Questions on one instance, each under assumptions: the least assignment that makes some literals true (`questions`), why
//! there is none (`explaining`), and which variables have one value in all that are left (`fixing`). One search answers all of
//! them, so what it learned for one question serves the next; and a question whose answer follows from earlier answers
//! (`known`) is not searched at all.
#![tactic(auto)]

mod explaining;
mod fixing;
mod known;
mod questions;
mod seeking;
mod turning;

pub use explaining::{Core, Explanation};
pub use fixing::{Among, Fixed, VariableStatus};
pub use known::KnownAnswers;
pub use questions::{Answer, Questions};
