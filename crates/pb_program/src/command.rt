//! The one command.
ghost use Rattle.std.specs.Prelude.{◌≡◌, IfOk};
ghost use Rattle.clap.specs.Words.{app_of};
ghost use Rattle.pb_program.specs.Line.{pbcube};

use crate::help::{
    ABOUT, CUBES_HELP, EXAMPLES_AND_STATUSES, FILE_HELP, LONG_ABOUT, SPLIT_HELP, WORKERS_HELP,
};
use clap::Command;
use pb_line::{
    FORMAT_HELP, NODES_HELP, cubes_option, file_operand, format_option, named, nodes_option,
    split_option, workers_option,
};
use std::alloc::{AllocError, Global};

/// `pbcube [--format FORMAT] [--workers W] [--split K] [--cubes FILE] [--nodes B] FILE`
pub fn command<'a>(alloc: Global) -> Result<Command<'a>, AllocError>
    ensures { IfOk result (λ command. app_of command ≡ pbcube) }
{
    let whole = named(alloc, "pbcube", ABOUT, LONG_ABOUT, EXAMPLES_AND_STATUSES);
    let command = whole
        .arg(format_option(alloc, FORMAT_HELP))?
        .arg(workers_option(alloc, WORKERS_HELP))?
        .arg(split_option(alloc, SPLIT_HELP))?
        .arg(cubes_option(alloc, CUBES_HELP))?
        .arg(nodes_option(alloc, NODES_HELP))?
        .arg(file_operand(alloc, FILE_HELP))?;
    Ok(command)
}
