//! Parsing the words into what they ask for.
ghost use Rattle.std.specs.Prelude.{◌≡◌, map, IfErr, IfOk, IfSome, IsNone, []};
ghost use Rattle.clap.specs.Words.{fault_of, found_of, kind_of, matches_of, rows_of};
ghost use Rattle.pb_line.specs.Ends.{MayFailBy};
ghost use Rattle.pb_program.specs.Line.{HasNoLine, IsLineOf, pbcube};

use crate::args::Line;
use crate::command::command;
use clap::{ArgMatches, Command, Error};
use pb_line::matched::{format_asked, number_if_given, number_of, text_of, workers_of};
use pb_line::parse::{CommandLine, parse};
use pb_solve::Options;
use std::alloc::{AllocError, Global};

/// Reads the words, of which the first is the program's name. Fails where clap refuses them, where they ask for help or the
/// version, where the format has an unknown name, and for want of memory. The kind of the error says which.
pub fn line<'a>(alloc: Global, words: &'a [&'a str]) -> Result<Line<'a>, Error>
    ensures line { IfOk result (IsLineOf (matches_of pbcube (map (λ word. word.now) words.now))) }
    ensures accepted { IfOk result (λ line. fault_of pbcube (map (λ word. word.now) words.now) ≡ []) }
    ensures refused { IfErr result (λ fault. MayFailBy pbcube HasNoLine (map (λ word. word.now) words.now) (kind_of fault)) }
{
    parse::<Line<'a>>(alloc, words)
}

impl<'a> CommandLine<'a> for Line<'a> {
    ghost app = { pbcube };

    ghost has = { IsLineOf };

    ghost has_no_line = { HasNoLine };

    #[tactic(auto, using(crate::specs::Line::pbcube_is_simple))]
    fn command(alloc: Global) -> Result<Command<'a>, AllocError> {
        command(alloc)
    }

    fn line_of(_alloc: Global, matches: &ArgMatches<'a>) -> Result<Option<Line<'a>>, AllocError> {
        Ok(line_of(matches))
    }
}

// What the matches ask for, unless a value is missing or the format has an unknown name.
fn line_of<'a>(matches: &ArgMatches<'a>) -> Option<Line<'a>>
    ensures some { IfSome result (IsLineOf (rows_of (found_of matches.now))) }
    ensures none { IsNone result → HasNoLine (rows_of (found_of matches.now)) }
{
    Some(Line {
        file: text_of(matches, "file")?,
        cubes: text_of(matches, "cubes"),
        options: Options {
            format: format_asked(matches)?,
            workers: workers_of(number_of(matches, "workers")?)?,
            split: number_of(matches, "split")?,
            nodes: number_if_given(matches, "nodes")?,
        },
    })
}
