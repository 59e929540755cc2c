//! The one command.
ghost use Rattle.std.specs.Prelude.{◌≡◌, false, IfOk};
ghost use Rattle.clap.specs.Words.{app_of, rule_of};
ghost use Rattle.pb_line.specs.Dividing.{pbcube_pieces, out};

use crate::dividing::help::{ABOUT, EXAMPLES_AND_STATUSES, LONG_ABOUT};
use crate::help::{CUBES_HELP, FILE_HELP, FORMAT_HELP, SPLIT_HELP};
use crate::options::{cubes_option, file_operand, format_option, named, split_option};
use clap::builder::ValueParser;
use clap::{Arg, Command};
use std::alloc::{AllocError, Global};

/// `pbcube_pieces [--format FORMAT] [--split K] [--cubes FILE] --out DIR FILE`
pub fn command<'a>(alloc: Global) -> Result<Command<'a>, AllocError>
    ensures { IfOk result (λ command. app_of command ≡ pbcube_pieces) }
{
    let whole = named(
        alloc,
        "pbcube_pieces",
        ABOUT,
        LONG_ABOUT,
        EXAMPLES_AND_STATUSES,
    );
    let command = whole
        .arg(format_option(alloc, FORMAT_HELP))?
        .arg(split_option(alloc, SPLIT_HELP))?
        .arg(cubes_option(alloc, CUBES_HELP))?
        .arg(out_option(alloc))?
        .arg(file_operand(alloc, FILE_HELP))?;
    Ok(command)
}

// `--out DIR`. An empty DIR would put the pieces at the root of all folders.
fn out_option<'a>(alloc: Global) -> Arg<'a>
    ensures rule { rule_of result ≡ out }
    ensures local { result.global ≡ false }
{
    Arg::new(alloc, "out")
        .long("out")
        .required(true)
        .value_name("DIR")
        .help("Folder for the pieces and their index; created if it does not exist")
        .value_parser(ValueParser::NonEmptyString)
}
