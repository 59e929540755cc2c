//! Parsing the words into what they ask for.
ghost use Rattle.std.specs.Prelude.{◌≡◌, ◌≤◌, ◌⊎◌, [], codes, map, unwrap_or, IfErr, IfOk, IfSome, IsNone, SomeIff};
ghost use Rattle.clap.specs.Words.{all_of, fault_of, found_of, kind_of, matches_of, rows_of};
ghost use Rattle.clap.specs.declared.error.kind.ErrorKind.TheVariants.{InvalidValue};
ghost use Rattle.pb_line.specs.Ends.{MayFailBy};
ghost use Rattle.pb_line.specs.Joining.{HasNoLine, IsLineOf, pbcube_join};

use crate::joining::args::Line;
use crate::joining::command::command;
use crate::matched::{count_if_given, format_asked, text_of};
use crate::parse::{CommandLine, parse};
use clap::error::ErrorKind;
use clap::{ArgMatches, Command, Error};
use std::alloc::{AllocError, Global};

/// The message for words that give both numbers.
const BOTH_TOLD: &str = "--pieces and --tasks cannot be used together";

/// Reads the words, the program's name first. Fails where clap refuses them, where they ask for help or the version, where no
/// format has the name given, where both a number of pieces and one of tasks are given, and where memory runs out; the kind of
/// the fault says which.
pub fn line<'a>(alloc: Global, words: &'a [&'a str]) -> Result<Line<'a>, Error>
    ensures line { IfOk result (IsLineOf (matches_of pbcube_join (map (λ word. word.now) words.now))) }
    ensures accepted { IfOk result (λ line. fault_of pbcube_join (map (λ word. word.now) words.now) ≡ []) }
    ensures pieces { IfOk result (λ line. IfSome line.pieces (λ n. 1 ≤ n)) }
    ensures one { IfOk result (λ line. IsNone line.pieces ⊎ IsNone line.tasks) }
    ensures refused { IfErr result (λ fault. MayFailBy pbcube_join HasNoLine (map (λ word. word.now) words.now) (kind_of fault)) }
{
    let line = parse::<Line<'a>>(alloc, words)?;
    if line.pieces.is_some() && line.tasks.is_some() {
        Err(both_told(alloc)?)
    } else {
        Ok(line)
    }
}

// The mistake of words that give both numbers.
fn both_told(alloc: Global) -> Result<Error, AllocError>
    ensures { IfOk result (λ fault. kind_of fault ≡ InvalidValue) }
{
    command(alloc)?.error(ErrorKind::InvalidValue, BOTH_TOLD)
}

impl<'a> CommandLine<'a> for Line<'a> {
    ghost app = { pbcube_join };

    ghost has = { λ matches line. IsLineOf matches line × IfSome line.pieces (λ n. 1 ≤ n) };

    ghost has_no_line = { HasNoLine };

    #[tactic(auto, using(crate::specs::Joining::pbcube_join_is_simple))]
    fn command(alloc: Global) -> Result<Command<'a>, AllocError> {
        command(alloc)
    }

    fn line_of(alloc: Global, matches: &ArgMatches<'a>) -> Result<Option<Line<'a>>, AllocError> {
        let reports = reports_of(alloc, matches)?;
        Ok(line_of(matches, reports))
    }
}

// The reports among the matches, in order.
fn reports_of<'a>(alloc: Global, matches: &ArgMatches<'a>) -> Result<Vec<&'a str>, AllocError>
    ensures { IfOk result (λ reports. map (λ name. name.now) reports.items ≡ unwrap_or (all_of (codes "reports") (rows_of (found_of matches.now))) []) }
{
    match matches.get_strs("reports") {
        Some(names) => Ok(Vec::from_slice(alloc, names)?),
        None => Ok(Vec::new(alloc)),
    }
}

// What the matches ask for, unless a value is missing or no format has the name given.
fn line_of<'a>(matches: &ArgMatches<'a>, reports: Vec<&'a str>) -> Option<Line<'a>>
    requires { map (λ name. name.now) reports.items ≡ unwrap_or (all_of (codes "reports") (rows_of (found_of matches.now))) [] }
    ensures line { IfSome result (IsLineOf (rows_of (found_of matches.now))) }
    ensures pieces { IfSome result (λ line. IfSome line.pieces (λ n. 1 ≤ n)) }
    ensures none { IsNone result → HasNoLine (rows_of (found_of matches.now)) }
{
    Some(Line {
        file: text_of(matches, "file")?,
        format: format_asked(matches)?,
        pieces: pieces_of(count_if_given(matches, "pieces")?)?,
        tasks: count_if_given(matches, "tasks")?,
        reports,
    })
}

// The number of pieces, if one is given; none at all where it is 0.
fn pieces_of(count: Option<u32>) -> Option<Option<u32>>
    ensures { SomeIff result (IfSome count (λ n. 1 ≤ n)) count }
{
    if count == Some(0) { None } else { Some(count) }
}
