//! Tests of the texts around the solver, by the public calls alone: instances that are written, reports that are read, and
//! notes that tasks exchange. They stand above the crates that they test, so that the gate proves none of those again for them.
//! What the programs show is tested by `tests/runs/commands.py`.
#![tactic(auto)]

#[cfg(test)]
mod tests;
