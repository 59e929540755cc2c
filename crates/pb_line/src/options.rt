//! The options and the operand that the programs share. Each program has its own help for them.
ghost use Rattle.std.specs.Prelude.{◌≡◌, false};
ghost use Rattle.clap.specs.Words.{app_of, rule_of};
ghost use Rattle.pb_line.specs.Options.{format, workers, split, cubes, nodes, file, with_version};

use crate::version::VERSION;
use clap::builder::ValueParser;
use clap::{Arg, Command};
use pb_inst::{MAX_SPLIT, MAX_WORKERS};
use std::alloc::Global;

/// The most decisions in each piece that a command line may allow. Chosen by hand.
pub const MAX_NODES: u64 = 1_000_000_000;

/// A command of this name whose one option tells the version, with the texts that help shows: what it does, in short and at
/// length, and what stands at the end.
pub fn named<'a>(
    alloc: Global,
    name: &'a str,
    about: &'a str,
    long_about: &'a str,
    end: &'a str,
) -> Command<'a>
    ensures { app_of result ≡ with_version name.now }
{
    Command::new(alloc, name)
        .about(about)
        .long_about(long_about)
        .after_long_help(end)
        .version(VERSION)
}

/// `--format FORMAT`, by default `opb`.
pub fn format_option<'a>(alloc: Global, help: &'a str) -> Arg<'a>
    ensures rule { rule_of result ≡ format }
    ensures local { result.global ≡ false }
{
    Arg::new(alloc, "format")
        .long("format")
        .default_value("opb")
        .value_name("FORMAT")
        .help(help)
}

/// `--workers W`, from 1, the default, to `MAX_WORKERS`.
pub fn workers_option<'a>(alloc: Global, help: &'a str) -> Arg<'a>
    ensures rule { rule_of result ≡ workers }
    ensures local { result.global ≡ false }
{
    Arg::new(alloc, "workers")
        .long("workers")
        .default_value("1")
        .value_name("W")
        .help(help)
        .value_parser(ValueParser::Unsigned(1, u64::from(MAX_WORKERS)))
}

/// `--split K`, from 0, the default, to `MAX_SPLIT`.
pub fn split_option<'a>(alloc: Global, help: &'a str) -> Arg<'a>
    ensures rule { rule_of result ≡ split }
    ensures local { result.global ≡ false }
{
    Arg::new(alloc, "split")
        .long("split")
        .default_value("0")
        .value_name("K")
        .help(help)
        .value_parser(ValueParser::Unsigned(0, u64::from(MAX_SPLIT)))
}

/// `--cubes FILE`, without a default.
pub fn cubes_option<'a>(alloc: Global, help: &'a str) -> Arg<'a>
    ensures rule { rule_of result ≡ cubes }
    ensures local { result.global ≡ false }
{
    Arg::new(alloc, "cubes")
        .long("cubes")
        .value_name("FILE")
        .help(help)
}

/// `--nodes B`, from 0 to `MAX_NODES`, without a default.
pub fn nodes_option<'a>(alloc: Global, help: &'a str) -> Arg<'a>
    ensures rule { rule_of result ≡ nodes }
    ensures local { result.global ≡ false }
{
    Arg::new(alloc, "nodes")
        .long("nodes")
        .value_name("B")
        .help(help)
        .value_parser(ValueParser::Unsigned(0, MAX_NODES))
}

/// `FILE`, which has to be there.
pub fn file_operand<'a>(alloc: Global, help: &'a str) -> Arg<'a>
    ensures rule { rule_of result ≡ file }
    ensures local { result.global ≡ false }
{
    Arg::new(alloc, "file")
        .required(true)
        .value_name("FILE")
        .help(help)
}
