//! The version of the programs.

/// The version that `--version` tells. The bindings and the manual page have the same number.
pub const VERSION: &str = "1.0.0";
