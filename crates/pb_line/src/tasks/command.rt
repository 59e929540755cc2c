//! The one command.
ghost use Rattle.std.specs.Prelude.{◌≡◌, false, IfOk};
ghost use Rattle.clap.specs.Words.{app_of, rule_of};
ghost use Rattle.pb_line.specs.Tasks.{exchange, pbcube_task, task, tasks};

use crate::help::{CUBES_HELP, FILE_HELP, FORMAT_HELP, NODES_HELP, SPLIT_HELP};
use crate::options::{
    cubes_option, file_operand, format_option, named, nodes_option, split_option, workers_option,
};
use crate::tasks::args::MAX_TASKS;
use crate::tasks::help::{
    ABOUT, EXAMPLES_AND_STATUSES, EXCHANGE_HELP, LONG_ABOUT, TASK_HELP, TASKS_HELP, WORKERS_HELP,
};
use clap::builder::ValueParser;
use clap::{Arg, Command};
use std::alloc::{AllocError, Global};

/// `pbcube_task [--format FORMAT] [--workers W] [--split K] [--cubes FILE] [--nodes B] --task I --tasks T [--exchange DIR] FILE`
pub fn command<'a>(alloc: Global) -> Result<Command<'a>, AllocError>
    ensures { IfOk result (λ command. app_of command ≡ pbcube_task) }
{
    let whole = named(
        alloc,
        "pbcube_task",
        ABOUT,
        LONG_ABOUT,
        EXAMPLES_AND_STATUSES,
    );
    let command = whole
        .arg(format_option(alloc, FORMAT_HELP))?
        .arg(workers_option(alloc, WORKERS_HELP))?
        .arg(split_option(alloc, SPLIT_HELP))?
        .arg(cubes_option(alloc, CUBES_HELP))?
        .arg(nodes_option(alloc, NODES_HELP))?
        .arg(task_option(alloc))?
        .arg(tasks_option(alloc))?
        .arg(exchange_option(alloc))?
        .arg(file_operand(alloc, FILE_HELP))?;
    Ok(command)
}

// `--task I`
fn task_option<'a>(alloc: Global) -> Arg<'a>
    ensures rule { rule_of result ≡ task }
    ensures local { result.global ≡ false }
{
    Arg::new(alloc, "task")
        .long("task")
        .required(true)
        .value_name("I")
        .help(TASK_HELP)
        .value_parser(ValueParser::Unsigned(0, MAX_TASKS))
}

// `--tasks T`
fn tasks_option<'a>(alloc: Global) -> Arg<'a>
    ensures rule { rule_of result ≡ tasks }
    ensures local { result.global ≡ false }
{
    Arg::new(alloc, "tasks")
        .long("tasks")
        .required(true)
        .value_name("T")
        .help(TASKS_HELP)
        .value_parser(ValueParser::Unsigned(1, MAX_TASKS))
}

// `--exchange DIR`. An empty DIR would put the notes at the root of all folders.
fn exchange_option<'a>(alloc: Global) -> Arg<'a>
    ensures rule { rule_of result ≡ exchange }
    ensures local { result.global ≡ false }
{
    Arg::new(alloc, "exchange")
        .long("exchange")
        .value_name("DIR")
        .help(EXCHANGE_HELP)
        .value_parser(ValueParser::NonEmptyString)
}
