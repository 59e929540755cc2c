//! What `-h` and `--help` say. Lines are broken here, since clap's help is not wrapped.

/// What the program does, for `-h`.
pub const ABOUT: &str =
    "Makes one report from the reports of an instance's pieces, or of its tasks";

/// What the program does, for `--help`.
pub const LONG_ABOUT: &str = "\
Makes one report from the reports on the pieces of an instance. Each piece was
solved as an instance of its own, by pbcube or by another solver. The program
checks every assignment against the instance, and its cost against the o line. If
each piece has one report that claims to be its answer, the program writes the
first of all these assignments as the answer for the whole. Otherwise it writes
the first assignment as the best one found, and names on standard error each piece
whose report is missing or that was cut.

With --tasks the reports are those that pbcube_task wrote, one for each task. Each
names the pieces that are done. If the reports name every piece as done, the
program writes the first of their assignments as the answer. Otherwise it writes
the first assignment as the best one found, and names on standard error the tasks
that must run again.";

/// What help says of `--pieces`.
pub const PIECES_HELP: &str = "Number of pieces, 1 to 1048576; by default the index gives it";

/// What help says of `--tasks`.
pub const TASKS_HELP: &str =
    "Join the reports that pbcube_task wrote for T tasks, 1 or more; not with --pieces";

/// What help says of REPORT.
pub const REPORT_HELP: &str =
    "Report, or folder of reports NUMBER.report; a report's name ends in its piece's number, before its last dot";

/// The end of `--help`: examples and exit statuses.
pub const EXAMPLES_AND_STATUSES: &str = "\
The report on piece 7 is a file whose name ends in 7 before its last dot, such as
7.out, 007.out or piece-007.out. In a folder the program reads the files whose
names end in .report, and the index if there is one. The index must be the one
that pbcube_pieces writes for FILE as it is now, by its SHA-256 digest, and for N
pieces.

With --tasks a report may have any name, and no index is read. Each report names
its task, and has a digest, which must be that of FILE as it is now.

Examples:
  pbcube_join instance.opb pieces
  pbcube_join --format cnf --pieces 2 formula.cnf 0.out 1.out
  pbcube_join --tasks 4 instance.opb 0.report 1.report 2.report 3.report

Exit status:
  30  s OPTIMUM FOUND: every piece is done; the first of the least assignments
  20  s UNSATISFIABLE: every piece is done, and none has an assignment
  10  s SATISFIABLE: there is no objective, or a piece is missing or was cut
   0  s UNKNOWN: a piece is missing or was cut, and nothing was found;
      s UNSUPPORTED: every task refused its input;
      also after help and the version
   1  a file cannot be opened or read, an input is refused, nothing gives the
      number of pieces, or memory ran out, and nothing is written to standard
      output; or the output cannot be written
   2  the command line is refused";
