//! The one command.
ghost use Rattle.std.specs.Prelude.{◌≡◌, false, IfOk};
ghost use Rattle.clap.specs.Words.{app_of, rule_of};
ghost use Rattle.pb_line.specs.Joining.{pbcube_join, pieces, reports, tasks};

use crate::joining::help::{
    ABOUT, EXAMPLES_AND_STATUSES, LONG_ABOUT, PIECES_HELP, REPORT_HELP, TASKS_HELP,
};
use crate::options::{file_operand, format_option, named};
use crate::tasks::MAX_TASKS;
use clap::builder::ValueParser;
use clap::{Arg, ArgAction, Command};
use pb_inst::MAX_PIECES;
use std::alloc::{AllocError, Global};

/// `pbcube_join [--format FORMAT] [--pieces N | --tasks T] FILE [REPORT]...`
pub fn command<'a>(alloc: Global) -> Result<Command<'a>, AllocError>
    ensures { IfOk result (λ command. app_of command ≡ pbcube_join) }
{
    let whole = named(
        alloc,
        "pbcube_join",
        ABOUT,
        LONG_ABOUT,
        EXAMPLES_AND_STATUSES,
    );
    let command = whole
        .arg(format_option(alloc, "Format of FILE and of the reports: opb, cnf or icnf"))?
        .arg(pieces_option(alloc))?
        .arg(tasks_option(alloc))?
        .arg(file_operand(alloc, "The file that holds the whole instance"))?
        .arg(report_operands(alloc))?;
    Ok(command)
}

// `--pieces N`
fn pieces_option<'a>(alloc: Global) -> Arg<'a>
    ensures rule { rule_of result ≡ pieces }
    ensures local { result.global ≡ false }
{
    Arg::new(alloc, "pieces")
        .long("pieces")
        .value_name("N")
        .help(PIECES_HELP)
        .value_parser(ValueParser::Unsigned(1, MAX_PIECES))
}

// `--tasks T`
fn tasks_option<'a>(alloc: Global) -> Arg<'a>
    ensures rule { rule_of result ≡ tasks }
    ensures local { result.global ≡ false }
{
    Arg::new(alloc, "tasks")
        .long("tasks")
        .value_name("T")
        .help(TASKS_HELP)
        .value_parser(ValueParser::Unsigned(1, MAX_TASKS))
}

// `REPORT...`
fn report_operands<'a>(alloc: Global) -> Arg<'a>
    ensures rule { rule_of result ≡ reports }
    ensures local { result.global ≡ false }
{
    Arg::new(alloc, "reports")
        .value_name("REPORT")
        .action(ArgAction::Append)
        .num_args(0..)
        .help(REPORT_HELP)
}
