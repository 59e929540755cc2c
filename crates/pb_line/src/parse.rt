//! Parsing the words of a command line.
ghost use Rattle.std.specs.Prelude.{◌≡◌, List, [], map, true, IfErr, IfOk, IfSome, IsNone};
ghost use Rattle.clap.specs.Words.{App, Row, app_of, fault_of, found_of, is_simple_and_free, kind_of, matches_of, rows_of};
ghost use Rattle.pb_line.specs.Ends.{MayFailBy};

use clap::error::ErrorKind;
use clap::{ArgMatches, Command, Error};
use std::alloc::{AllocError, Global};

/// What the words of one command ask for.
pub trait CommandLine<'a> {
    /// The command.
    ghost app: { App };

    /// The line has the values of the matches.
    ghost has: { List Row → Self → Type 0 };

    /// No line has the values of the matches.
    ghost has_no_line: { List Row → Type 0 };

    /// The command.
    fn command(alloc: Global) -> Result<Command<'a>, AllocError>
        ensures app { IfOk result (λ command. app_of command ≡ app) }
        ensures simple { is_simple_and_free app ≡ true };

    /// What the matches ask for, unless a value is missing or no format has the name given.
    fn line_of(alloc: Global, matches: &ArgMatches<'a>) -> Result<Option<Self>, AllocError>
        ensures some { IfOk result (λ line. IfSome line (has (rows_of (found_of matches.now)))) }
        ensures none { IfOk result (λ line. IsNone line → has_no_line (rows_of (found_of matches.now))) };
}

/// Reads the words, the program's name first. Fails where clap refuses them, where they ask for help or the version, where no
/// format has the name given, and where memory runs out; the kind of the fault says which.
pub fn parse<'a, L: CommandLine<'a>>(alloc: Global, words: &'a [&'a str]) -> Result<L, Error>
    ensures line { IfOk result (L.has (matches_of L.app (map (λ word. word.now) words.now))) }
    ensures accepted { IfOk result (λ line. fault_of L.app (map (λ word. word.now) words.now) ≡ []) }
    ensures refused { IfErr result (λ fault. MayFailBy L.app L.has_no_line (map (λ word. word.now) words.now) (kind_of fault)) }
{
    let mut command = L::command(alloc)?;
    let matches = command.try_get_matches_from_mut(words)?;
    match L::line_of(alloc, &matches)? {
        Some(line) => Ok(line),
        None => Err(command.error(
            ErrorKind::InvalidValue,
            "the format is one of opb, cnf and icnf",
        )?),
    }
}
