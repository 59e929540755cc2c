//! What `-h` and `--help` say. Lines are broken here, since clap does not wrap its help.

/// What the program does, for `-h`.
pub const ABOUT: &str = "Finds the first optimal solution of a pseudo-Boolean instance";

/// What the program does, for `--help`.
pub const LONG_ABOUT: &str = "\
Finds an optimal solution of a pseudo-Boolean instance: a feasible assignment of
least cost. If there are several, it is the lexicographically first one (x1 first,
0 before 1). The program writes the cost and the assignment, or that the instance
is infeasible, or what is wrong with the input.";

/// What help says of `--workers`.
pub const WORKERS_HELP: &str = "Number of threads that share the pieces, 1 to 64";

/// What help says of `--split`.
pub const SPLIT_HELP: &str = "Divide the work by the K most frequent variables, 0 to 12";

/// What help says of `--cubes`.
pub const CUBES_HELP: &str =
    "File of cubes that divide the work, with lines `a LITERALS 0`; none by default";

/// What help says of FILE.
pub const FILE_HELP: &str = "File of the instance; /dev/stdin reads standard input";

/// The end of `--help`: examples and exit statuses.
pub const EXAMPLES_AND_STATUSES: &str = "\
Cubes and the split divide the work into pieces, and the workers, which are
threads, share the pieces. Without cubes and without a split there is one piece,
which one worker searches. Start with a split of 8; two workers gain little. If
the cubes and the split are accepted and no piece is cut, then neither they nor
the number of workers changes a byte of the answer.

With --nodes B the search of a piece stops if it needs more than B decisions: the
piece is cut. Then the answer is the best assignment that was found, as
s SATISFIABLE with its cost and values, or s UNKNOWN alone if none was found.
P pieces take at most B times P decisions in all. If a piece is cut and there are
several workers, the bytes may differ from run to run. Otherwise they never do.

The cubes of an iCNF file divide the work and are not part of the instance. Other
tools read them as 'some cube must hold'.

If an input is refused, the report names the fault and its line, and the exit
status is 0. A line on standard error may add a hint: which format the file seems
to have, or which word is wrong and what to write in its place.

The solver learns nothing from conflicts, so its proof that nothing is feasible is
a whole search tree: ten pigeons in nine holes, as clauses, take seconds, and each
further hole takes ten times as long. For the long chains of implications that
circuits have, use a solver that learns clauses.

Examples:
  pbcube instance.opb                          an OPB instance, by one worker
  pbcube --format cnf formula.cnf              a DIMACS CNF formula
  pbcube --workers 4 --split 8 instance.opb    four workers on 257 pieces
  pbcube --cubes cubes.txt instance.opb        pieces from a file of cubes
  pbcube --nodes 1000 instance.opb             at most 1000 decisions

Exit status:
  30  s OPTIMUM FOUND: the least cost, and the first assignment of that cost
  20  s UNSATISFIABLE: no assignment is feasible
  10  s SATISFIABLE: the first feasible assignment, if there is no objective;
      the best assignment that was found, if a piece was cut
   0  s UNSUPPORTED: the input, the cubes or the split are refused;
      s UNKNOWN: memory ran out, or a piece was cut and nothing was found;
      also after help and the version
   1  a file cannot be opened or read, or the output cannot be written
   2  the command line is refused";
