//! What `-h` and `--help` say. Lines are broken here, since clap's help is not wrapped.

/// What the program does, for `-h`.
pub const ABOUT: &str = "Writes the pieces of a pseudo-Boolean instance as instances of their own";

/// What the program does, for `--help`.
pub const LONG_ABOUT: &str = "\
Divides a pseudo-Boolean instance by cubes and a split, and writes each piece as
an instance of its own: one for each cube, and one for the assignments that lie in
no cube. Each piece can be solved on any core. The first of the pieces' least
assignments is the least assignment of the instance.";

/// The end of `--help`: the files, examples and exit statuses.
pub const EXAMPLES_AND_STATUSES: &str = "\
Each piece is a file DIR/NUMBER.opb, or DIR/NUMBER.cnf if FILE is in CNF or iCNF.
NUMBER has leading zeros, so that the files sort by number. DIR/index is written
last. It has the number of pieces, their format, the number of variables, the
SHA-256 digest of FILE, and then the names of the pieces. No file is overwritten.
At the end the program prints the number of pieces.

Examples:
  pbcube_pieces --split 3 --out pieces instance.opb      nine pieces
  pbcube_pieces --cubes cubes.txt --out pieces instance.opb
  pbcube_pieces --format icnf --out pieces formula.icnf  its own cubes

Exit status:
   0  everything was written; also after help and the version
   1  a file cannot be opened, read or written, an input is refused, or memory
      ran out; or everything was written, but the number of pieces cannot be
      printed
   2  the command line is refused";
