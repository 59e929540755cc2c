//! Tests of instances, readers, normal forms and pieces, by the public calls alone. They stand above the crates that they
//! test, so that a change of a test proves none of those again, and the gate proves each of those without them.
#![tactic(auto)]

#[cfg(test)]
mod tests;
