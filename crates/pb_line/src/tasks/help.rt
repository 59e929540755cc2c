//! What `-h` and `--help` say. Lines are broken here, since clap's help is not wrapped.

/// What the program does, for `-h`.
pub const ABOUT: &str = "Searches one task's share of the pieces of a pseudo-Boolean instance";

/// What the program does, for `--help`.
pub const LONG_ABOUT: &str = "\
Searches one task's share of the pieces into which cubes and a split divide a
pseudo-Boolean instance: each piece whose number leaves the remainder I when it is
divided by T. So T machines can search all pieces, each its own share. A task that
has a folder for --exchange then also searches pieces of other tasks that nobody
has claimed. The report says which pieces are done, and has the best assignment
known. pbcube_join makes one report, the answer on the instance, from the reports
of all tasks.";

/// What help says of `--workers`.
pub const WORKERS_HELP: &str = "Number of threads that share the task, 1 to 64";

/// What help says of `--task`.
pub const TASK_HELP: &str = "Number of this task, from 0 to T - 1";

/// What help says of `--tasks`.
pub const TASKS_HELP: &str = "Number of tasks among which the pieces are dealt in turn";

/// What help says of `--exchange`.
pub const EXCHANGE_HELP: &str =
    "Folder in which the tasks exchange assignments and claim pieces; none by default";

/// The end of `--help`: the report, examples and exit statuses.
pub const EXAMPLES_AND_STATUSES: &str = "\
Give all tasks the same FILE, cubes and split. The first lines of the report say
which task it is of, how FILE was divided, and which pieces the task has done and
which were cut by --nodes. Then comes the best assignment known, with
s SATISFIABLE, or s UNKNOWN if none is known. This assignment may lie in another
task's piece.

The folder of --exchange is created if it does not exist. Each task leaves its best
assignment there, and claims each piece there before it searches it. It passes over
a piece that another task has claimed. A task checks every assignment that it reads
there, so whatever the folder holds, a piece that is named as done is done. A task
that cannot use the folder says so, and searches the pieces of its own share.

Examples:
  pbcube_task --split 5 --task 0 --tasks 2 instance.opb
  pbcube_task --split 5 --task 1 --tasks 2 --workers 4 instance.opb
  pbcube_task --split 8 --task 7 --tasks 64 --exchange notes instance.opb

Exit status:
  10  s SATISFIABLE: an assignment is known
   0  s UNKNOWN: none is known, or memory ran out;
      s UNSUPPORTED: the input, the cubes or the split are refused;
      also after help and the version
   1  a file cannot be opened or read, or the output cannot be written
   2  the command line is refused";
