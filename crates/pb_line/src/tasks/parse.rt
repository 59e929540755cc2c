//! Parsing the words into what they ask for.
ghost use Rattle.std.specs.Prelude.{◌≡◌, ◌<◌, map, IfErr, IfOk, IfSome, IsNone, []};
ghost use Rattle.clap.specs.Words.{fault_of, found_of, kind_of, matches_of, rows_of};
ghost use Rattle.clap.specs.declared.error.kind.ErrorKind.TheVariants.{InvalidValue};
ghost use Rattle.pb_line.specs.Ends.{MayFailBy};
ghost use Rattle.pb_line.specs.Tasks.{HasNoLine, IsLineOf, pbcube_task};

use crate::matched::{format_asked, number_if_given, number_of, text_of, workers_of};
use crate::parse::{CommandLine, parse};
use crate::tasks::args::Line;
use crate::tasks::command::command;
use clap::error::ErrorKind;
use clap::{ArgMatches, Command, Error};
use std::alloc::{AllocError, Global};

/// The message for a task number that no task has.
const NO_SUCH_TASK: &str = "tasks are numbered from 0, so --task has to be below --tasks";

/// Reads the words, the program's name first. Fails where clap refuses them, where they ask for help or the version, where no
/// format has the name given, where no task has the number given, and where memory runs out; the kind of the fault says which.
pub fn line<'a>(alloc: Global, words: &'a [&'a str]) -> Result<Line<'a>, Error>
    ensures line { IfOk result (IsLineOf (matches_of pbcube_task (map (λ word. word.now) words.now))) }
    ensures accepted { IfOk result (λ line. fault_of pbcube_task (map (λ word. word.now) words.now) ≡ []) }
    ensures task { IfOk result (λ line. line.task < line.tasks) }
    ensures refused { IfErr result (λ fault. MayFailBy pbcube_task HasNoLine (map (λ word. word.now) words.now) (kind_of fault)) }
{
    let line = parse::<Line<'a>>(alloc, words)?;
    if line.task < line.tasks {
        Ok(line)
    } else {
        Err(no_such_task(alloc)?)
    }
}

// The mistake of a task number that no task has.
fn no_such_task(alloc: Global) -> Result<Error, AllocError>
    ensures { IfOk result (λ fault. kind_of fault ≡ InvalidValue) }
{
    command(alloc)?.error(ErrorKind::InvalidValue, NO_SUCH_TASK)
}

impl<'a> CommandLine<'a> for Line<'a> {
    ghost app = { pbcube_task };

    ghost has = { IsLineOf };

    ghost has_no_line = { HasNoLine };

    #[tactic(auto, using(crate::specs::Tasks::pbcube_task_is_simple))]
    fn command(alloc: Global) -> Result<Command<'a>, AllocError> {
        command(alloc)
    }

    fn line_of(_alloc: Global, matches: &ArgMatches<'a>) -> Result<Option<Line<'a>>, AllocError> {
        Ok(line_of(matches))
    }
}

// What the matches ask for, unless a value is missing or no format has the name given.
fn line_of<'a>(matches: &ArgMatches<'a>) -> Option<Line<'a>>
    ensures some { IfSome result (IsLineOf (rows_of (found_of matches.now))) }
    ensures none { IsNone result → HasNoLine (rows_of (found_of matches.now)) }
{
    Some(Line {
        file: text_of(matches, "file")?,
        format: format_asked(matches)?,
        cubes: text_of(matches, "cubes"),
        workers: workers_of(number_of(matches, "workers")?)?,
        split: number_of(matches, "split")?,
        nodes: number_if_given(matches, "nodes")?,
        task: number_of(matches, "task")?,
        tasks: number_of(matches, "tasks")?,
        exchange: text_of(matches, "exchange"),
    })
}
