//! Parsing the words into what they ask for.
ghost use Rattle.std.specs.Prelude.{◌≡◌, map, IfErr, IfOk, IfSome, IsNone, []};
ghost use Rattle.clap.specs.Words.{fault_of, found_of, kind_of, matches_of, rows_of};
ghost use Rattle.pb_line.specs.Dividing.{HasNoLine, IsLineOf, pbcube_pieces};
ghost use Rattle.pb_line.specs.Ends.{MayFailBy};

use crate::dividing::args::Line;
use crate::dividing::command::command;
use crate::matched::{format_asked, number_of, text_of};
use crate::parse::{CommandLine, parse};
use clap::{ArgMatches, Command, Error};
use std::alloc::{AllocError, Global};

/// Reads the words, the program's name first. Fails where clap refuses them, where they ask for help or the version, where no
/// format has the name given, and where memory runs out; the kind of the fault says which.
pub fn line<'a>(alloc: Global, words: &'a [&'a str]) -> Result<Line<'a>, Error>
    ensures line { IfOk result (IsLineOf (matches_of pbcube_pieces (map (λ word. word.now) words.now))) }
    ensures accepted { IfOk result (λ line. fault_of pbcube_pieces (map (λ word. word.now) words.now) ≡ []) }
    ensures refused { IfErr result (λ fault. MayFailBy pbcube_pieces HasNoLine (map (λ word. word.now) words.now) (kind_of fault)) }
{
    parse::<Line<'a>>(alloc, words)
}

impl<'a> CommandLine<'a> for Line<'a> {
    ghost app = { pbcube_pieces };

    ghost has = { IsLineOf };

    ghost has_no_line = { HasNoLine };

    #[tactic(auto, using(crate::specs::Dividing::pbcube_pieces_is_simple))]
    fn command(alloc: Global) -> Result<Command<'a>, AllocError> {
        command(alloc)
    }

    fn line_of(_alloc: Global, matches: &ArgMatches<'a>) -> Result<Option<Line<'a>>, AllocError> {
        Ok(line_of(matches))
    }
}

// What the matches ask for, unless a value is missing or no format has the name given.
fn line_of<'a>(matches: &ArgMatches<'a>) -> Option<Line<'a>>
    ensures some { IfSome result (IsLineOf (rows_of (found_of matches.now))) }
    ensures none { IsNone result → HasNoLine (rows_of (found_of matches.now)) }
{
    Some(Line {
        file: text_of(matches, "file")?,
        format: format_asked(matches)?,
        cubes: text_of(matches, "cubes"),
        split: number_of(matches, "split")?,
        out: text_of(matches, "out")?,
    })
}
