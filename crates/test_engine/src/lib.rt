//! Tests of the engine and of the multipliers below it, by the public calls alone. They stand above the crates that they test,
//! so that those are not proved once more with them.
#![tactic(auto)]

#[cfg(test)]
mod tests;
