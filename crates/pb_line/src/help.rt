//! What help says of the options and the operand for which several programs have the same words.

/// What help says of `--format`.
pub const FORMAT_HELP: &str = "Format of FILE: opb, cnf or icnf";

/// What help says of `--split`.
pub const SPLIT_HELP: &str = "Divide by the K most frequent variables, 0 to 12";

/// What help says of `--cubes`.
pub const CUBES_HELP: &str =
    "File of cubes that divide the instance, with lines `a LITERALS 0`; none by default";

/// What help says of `--nodes`.
pub const NODES_HELP: &str =
    "Stop each piece after B decisions, 0 to 1000000000; no limit by default";

/// What help says of FILE.
pub const FILE_HELP: &str = "File of the instance";
