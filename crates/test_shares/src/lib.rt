//! Tests of what shares a search out, by the public calls alone: sets of rows, the board and what workers lend each other over
//! it, the reports of pieces that were solved apart, and sessions. They stand above the crates that they test, so that the gate
//! proves none of those again for them.
#![tactic(auto)]

#[cfg(test)]
mod tests;
