//! Tests of the search of pieces and of the order of decisions, by the public calls alone. They stand above the crates that
//! they test, so that a change of a test proves none of those again.
#![tactic(auto)]

#[cfg(test)]
mod tests;
