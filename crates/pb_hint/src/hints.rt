//! Hints on refused texts.
ghost use Rattle.std.specs.Prelude.{◌≡◌, Some, false};
ghost use Rattle.pb_hint.specs.Beginnings.{is_of};
ghost use Rattle.pb_hint.specs.Places.{StandsIn};

use crate::advice::Advice;
use crate::beginnings::{Beginning, begins_as, foreign_bytes};
use crate::places::{Place, locate, moved, start_of_line};
use crate::rules::Rule;
use crate::{dimacs, opb, products, variables};
use bstr::ByteSlice;
use pb_inst::MAX_VARS;
use pb_read::{Format, ReadFault, ReadKind};
use std::ops::Range;
use thiserror::Error;

/// What may help with a text that was refused.
#[derive(Clone, Copy, Debug, PartialEq, Eq, Error)]
pub enum Hint<'t> {
    /// The text begins as one of another format.
    #[error("{0}")]
    Begins(Beginning),
    /// The first word that cannot stand where it does.
    #[error("{0}")]
    At(Place<'t>),
    /// Such a word, and what to write in its place.
    #[error("{0}: {1}")]
    Mend(Place<'t>, Advice),
    /// The line of the fault, and the rule that it does not keep to.
    #[error("line {0}: {1}")]
    Keep(u64, Rule),
}

/// A hint on a text that was refused in this format, for this fault, if there is one to give. It names another format than this
/// one, or a word that stands in the text where it says, or a rule. The word is likely the one to mend, but need not be.
pub fn hint_on<'t>(format: Format, text: &'t [u8], fault: ReadFault) -> Option<Hint<'t>>
    ensures another_format { (begins : _) → result ≡ Some (Hint.Begins begins) → is_of begins format ≡ false }
    ensures place { (place : _) → result ≡ Some (Hint.At place) → StandsIn text.now place }
    ensures advised { (place : _) → (advice : _) → result ≡ Some (Hint.Mend place advice) → StandsIn text.now place }
{
    if let Some(begins) = begins_as(text) {
        if !begins.is_of(format) {
            return Some(Hint::Begins(begins));
        }
    }
    match word_at_fault(format, text, fault) {
        Some(word) => hint_at(text, word),
        None => Some(Hint::Keep(fault.line, broken_rule(format, text, fault.kind)?)),
    }
}

/// A hint on a file of cubes over `vars` variables that was refused for this fault, if there is one to give. A word that it shows
/// stands in the text where it says.
pub fn hint_on_cubes<'t>(text: &'t [u8], vars: u32, fault: ReadFault) -> Option<Hint<'t>>
    ensures place { (place : _) → result ≡ Some (Hint.At place) → StandsIn text.now place }
    ensures advised { (place : _) → (advice : _) → result ≡ Some (Hint.Mend place advice) → StandsIn text.now place }
{
    if let Some(begins) = foreign_bytes(text) {
        return Some(Hint::Begins(begins));
    }
    if begins_as(text) == Some(Beginning::Opb) {
        return Some(Hint::Keep(fault.line, Rule::CubeLine));
    }
    match word_in_cubes(text, vars, fault) {
        Some(word) => hint_at(text, word),
        None => Some(Hint::Keep(fault.line, broken_rule_of_cubes(fault.kind)?)),
    }
}

/// What may help where the file of this name cannot be read, if there is a hint to give.
pub fn hint_on_name(name: &str) -> Option<&'static str> {
    if name == "-" {
        Some("/dev/stdin is the name of standard input")
    } else {
        None
    }
}

/// A word that is likely to have caused a fault, and what to write in its place, where that is known.
#[derive(Drop)]
struct Culprit {
    bounds: Range<usize>,
    advice: Option<Advice>,
}

/// The hint on this word of the text.
fn hint_at<'t>(text: &'t [u8], word: Culprit) -> Option<Hint<'t>>
    ensures begins { (begins : _) → result ≡ Some (Hint.Begins begins) → ⊥ }
    ensures place { (place : _) → result ≡ Some (Hint.At place) → StandsIn text.now place }
    ensures advised { (place : _) → (advice : _) → result ≡ Some (Hint.Mend place advice) → StandsIn text.now place }
{
    let place = locate(text, word.bounds)?;
    match word.advice {
        Some(advice) => Some(Hint::Mend(place, advice)),
        None => Some(Hint::At(place)),
    }
}

/// The word of the text that is likely to have caused the fault.
fn word_at_fault(format: Format, text: &[u8], fault: ReadFault) -> Option<Culprit> {
    let start = start_of_line(text, fault.line);
    let rest = text.get(start..)?;
    let (bounds, advice) = match fault.kind {
        ReadKind::Syntax | ReadKind::Unfinished if format.is_clausal() => {
            misplaced_in_lists(rest, format == Format::Icnf)?
        }
        // What a token of OPB may be depends on those before it, which may stand on earlier lines.
        ReadKind::Syntax | ReadKind::Unfinished => return token_at_fault(text),
        ReadKind::NonLinear => (products::second_literal(rest)?, Some(Advice::Linearise)),
        ReadKind::BadVariable => {
            let (greatest, advice) = greatest(format, text)?;
            (
                variables::misnumbered(format, rest, greatest)?,
                Some(advice),
            )
        }
        ReadKind::BadHeader | ReadKind::TooFewClauses => stray_comment(rest)?,
        ReadKind::TooManyClauses | ReadKind::ClauseAfterCube => {
            stray_line(rest, format == Format::Icnf)?
        }
        _ => return None,
    };
    let bounds = moved(bounds, start);
    Some(Culprit { bounds, advice })
}

/// The first word of clauses or cubes that cannot stand where it does.
fn misplaced_in_lists(text: &[u8], has_cubes: bool) -> Option<(Range<usize>, Option<Advice>)> {
    match dimacs::misplaced(text, has_cubes) {
        Some(bounds) => {
            let word = text.get(bounds.start..bounds.end)?;
            let is_first = opb::begins_line(text, bounds.start);
            let advice = dimacs::advice_on(word, is_first, has_cubes);
            Some((bounds, advice))
        }
        None => early_end(text),
    }
}

/// Such a word on the first line where it begins a comment, or a line that ends the text before its last one.
fn stray_comment(text: &[u8]) -> Option<(Range<usize>, Option<Advice>)> {
    match misplaced_in_lists(text.lines().next()?, false) {
        Some((bounds, Some(Advice::Comment(mark)))) => {
            Some((bounds, Some(Advice::Comment(mark))))
        }
        _ => early_end(text),
    }
}

/// Such a word on the first line, which stands where no clause may stand. What to write in its place is told if it begins no clause,
/// and no cube of a format that has cubes.
fn stray_line(text: &[u8], has_cubes: bool) -> Option<(Range<usize>, Option<Advice>)> {
    let (bounds, advice) = misplaced_in_lists(text.lines().next()?, has_cubes)?;
    let advice = advice.filter(|it| *it != Advice::Number && !(has_cubes && *it == Advice::Cube));
    Some((bounds, advice))
}

/// The word that ends the text before its last line.
fn early_end(text: &[u8]) -> Option<(Range<usize>, Option<Advice>)> {
    Some((dimacs::early_end(text)?, Some(Advice::GoOn)))
}

/// The first token of OPB that cannot stand where it does.
fn token_at_fault(text: &[u8]) -> Option<Culprit> {
    let token = opb::misplaced(text)?;
    let advice = token.advice(text);
    let bounds = token.bounds;
    Some(Culprit { bounds, advice })
}

/// The word of the cubes that is likely to have caused the fault.
fn word_in_cubes(text: &[u8], vars: u32, fault: ReadFault) -> Option<Culprit> {
    let start = start_of_line(text, fault.line);
    let rest = text.get(start..)?;
    let (bounds, advice) = match fault.kind {
        ReadKind::Syntax | ReadKind::Unfinished => {
            let (bounds, advice) = misplaced_in_lists(rest.lines().next()?, true)?;
            (bounds, advice.map(of_cubes))
        }
        ReadKind::BadVariable => {
            let greatest = u64::from(vars);
            let bounds = variables::misnumbered(Format::Icnf, rest, greatest)?;
            (bounds, Some(Advice::Renumber(greatest)))
        }
        _ => return None,
    };
    let bounds = moved(bounds, start);
    Some(Culprit { bounds, advice })
}

/// What to write in a file of cubes, which has no header.
fn of_cubes(advice: Advice) -> Advice {
    match advice {
        Advice::HeadOnce => Advice::Keep(Rule::CubeLine),
        other => other,
    }
}

/// The rule that a text of this format does not keep to where it has such a fault.
fn broken_rule(format: Format, text: &[u8], kind: ReadKind) -> Option<Rule> {
    match kind {
        ReadKind::Unfinished if format.is_clausal() => Some(Rule::EndClauses),
        ReadKind::Unfinished if opb::ends_in_late_objective(text) => Some(Rule::ObjectiveFirst),
        ReadKind::Unfinished => Some(Rule::EndStatements),
        ReadKind::Syntax if format == Format::Icnf => Some(Rule::CubeLine),
        ReadKind::LateObjective => Some(Rule::ObjectiveFirst),
        ReadKind::TooLarge => Some(Rule::SmallSums),
        ReadKind::TooMany => Some(Rule::Limits),
        ReadKind::BadHeader if format == Format::Icnf => Some(Rule::IcnfHeader),
        ReadKind::BadHeader => Some(Rule::CnfHeader),
        ReadKind::TooFewClauses => {
            let told = variables::clauses_told(text)?;
            Some(Rule::FewerClauses(told, dimacs::clauses(text)))
        }
        ReadKind::TooManyClauses => {
            let told = variables::clauses_told(text)?;
            // The last clause may have no end.
            let least = told.saturating_add(1);
            Some(Rule::MoreClauses(told, dimacs::clauses(text).max(least)))
        }
        ReadKind::ClauseAfterCube => Some(Rule::ClausesFirst),
        _ => None,
    }
}

/// The rule that a file of cubes does not keep to where it has such a fault.
fn broken_rule_of_cubes(kind: ReadKind) -> Option<Rule> {
    match kind {
        ReadKind::Syntax | ReadKind::Unfinished => Some(Rule::CubeLine),
        ReadKind::TooMany => Some(Rule::Limits),
        _ => None,
    }
}

/// The greatest number that a variable may have, and what to write in place of one out of range.
fn greatest(format: Format, text: &[u8]) -> Option<(u64, Advice)> {
    match format {
        Format::Cnf => {
            let told = variables::told(text)?;
            Some((told, Advice::RenumberAsTold(told)))
        }
        Format::Opb | Format::Icnf => {
            let greatest = u64::from(MAX_VARS);
            Some((greatest, Advice::Renumber(greatest)))
        }
    }
}
