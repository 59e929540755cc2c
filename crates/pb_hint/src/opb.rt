//! Finding the first token of OPB that cannot stand where it does.
//! Source: [OPB]
use crate::advice::Advice;
use crate::beginnings::is_among;
use crate::places::moved;
use crate::rules::Rule;
use crate::spelling::{
    advice_on_spelling, begins_comment, begins_comment_line, is_negated, is_operator,
    is_part_of_term,
};
use bstr::ByteSlice;
use std::ops::Range;

/// What the next token may be, after those before it.
#[derive(Clone, Copy, PartialEq, Eq)]
enum Expected {
    /// The first token of a statement.
    Start,
    /// A number of a term, or the end of the objective.
    ObjectiveNumber,
    /// The first literal of a term, of the objective or of a constraint. The term is the first one or not.
    Literal { objective: bool, is_first: bool },
    /// What follows a literal: one more, the next term, or in a constraint the relation.
    AfterLiteral { objective: bool },
    /// The number behind the relation.
    Bound,
    /// The end of a constraint.
    End,
}

/// A token that cannot stand where it does, and what can.
#[derive(Drop)]
pub struct StrayToken {
    pub bounds: Range<usize>,
    expected: Expected,
}

impl StrayToken {
    /// What to write in place of the token of the text.
    pub fn advice(&self, text: &[u8]) -> Option<Advice> {
        let word = text.get(self.bounds.start..self.bounds.end)?;
        let next = next_word(text.get(self.bounds.end..)?);
        if self.is_comment(text, word, next) {
            return Some(Advice::Comment("*"));
        }
        if self.is_second_relation(word) {
            return Some(Advice::Turn);
        }
        if let Some(advice) = self.advice_on_star(word, next) {
            return Some(advice);
        }
        if self.is_listed(word) {
            return Some(Advice::Keep(Rule::EndStatements));
        }
        if let Some(advice) = advice_on_spelling(word) {
            return Some(advice);
        }
        if is_relation(word) {
            return Some(self.advice_on_relation());
        }
        if is_part_of_term(word) || is_negated(word) {
            return Some(self.advice_on_literal(word));
        }
        if is_literal(next) && (word == b"~".as_slice() || word == b"!".as_slice()) {
            return Some(Advice::Attach);
        }
        self.advice_on_word(word, next)
    }

    /// Whether the word begins a comment, with this word behind it. A `c` may be the name of a variable too, and `%` an operator.
    fn is_comment(&self, text: &[u8], word: &[u8], next: &[u8]) -> bool {
        match self.expected {
            Expected::Start | Expected::End => begins_comment_line(word),
            Expected::Literal { .. } => begins_comment(word),
            _ if begins_line(text, self.bounds.start) => begins_comment_line(word),
            _ => begins_comment(word) && !is_number(next),
        }
    }

    /// Whether the word is `>` or `<` behind a relation.
    fn is_second_relation(&self, word: &[u8]) -> bool {
        matches!(self.expected, Expected::Bound | Expected::End)
            && (word == b">".as_slice() || word == b"<".as_slice())
    }

    /// What to write in place of a word that begins with `*`, with this word behind it: a product, or a comment behind a statement.
    fn advice_on_star(&self, word: &[u8], next: &[u8]) -> Option<Advice> {
        let rest = word.strip_prefix(b"*")?;
        let factor = if rest.is_empty() { next } else { rest };
        match self.expected {
            Expected::Literal { .. } => Some(Advice::Part),
            Expected::AfterLiteral { .. } if is_part_of_term(factor) => Some(Advice::Linearise),
            Expected::AfterLiteral { .. } if is_number(factor) => Some(Advice::Part),
            _ => Some(Advice::Separate),
        }
    }

    /// Whether the word is a number on the right with a comma behind it, as between constraints in one line.
    fn is_listed(&self, word: &[u8]) -> bool {
        match word.strip_suffix(b",") {
            Some(number) => self.expected == Expected::Bound && is_number(number),
            None => false,
        }
    }

    /// What to write in place of this word, which is the token, with this word behind it.
    fn advice_on_word(&self, word: &[u8], next: &[u8]) -> Option<Advice> {
        let is_end = word == b";".as_slice();
        match self.expected {
            Expected::Start => advice_on_beginning(word),
            Expected::AfterLiteral { objective: false } | Expected::Bound if is_end => {
                Some(Advice::Relate)
            }
            Expected::Literal {
                objective: true,
                ..
            } if is_end => Some(Advice::DropConstant),
            Expected::Literal {
                objective: false,
                ..
            } if is_end => Some(Advice::Relate),
            Expected::End if is_number(word) => Some(Advice::End),
            Expected::End | Expected::AfterLiteral { objective: true }
                if word.ends_with(b":") || is_among(word, &SUBJECT_TO) => { Some(Advice::End) }
            Expected::Literal { objective, .. } if is_number(word) => {
                Some(advice_on_number_of(objective, next))
            }
            Expected::Literal { .. } | Expected::AfterLiteral { .. }
                if is_name(word) && !is_operator(word) => { Some(Advice::Rename) }
            _ => None,
        }
    }

    /// What to write in place of the token, which is a relation.
    fn advice_on_relation(&self) -> Advice {
        match self.expected {
            Expected::ObjectiveNumber
            | Expected::Literal {
                objective: true,
                ..
            }
            | Expected::AfterLiteral { objective: true } => Advice::EndObjective,
            Expected::Literal {
                is_first: false,
                ..
            } => Advice::MoveConstant,
            _ => Advice::Turn,
        }
    }

    /// What to write in place of this word, which is the token: a literal, with a sign or without.
    fn advice_on_literal(&self, word: &[u8]) -> Advice {
        match self.expected {
            Expected::Bound | Expected::End => Advice::MoveLeft,
            _ if is_negated(word) => Advice::Negate,
            Expected::Literal { .. } => Advice::Sign,
            _ => Advice::Weigh,
        }
    }
}

/// Words that stand in other formats between the objective and the constraints.
const SUBJECT_TO: [&str; 4] = ["subject", "such", "s.t.", "st"];

/// What to write in place of a number behind another one, with this word behind it.
fn advice_on_number_of(objective: bool, next: &[u8]) -> Advice {
    if !is_part_of_term(next) {
        Advice::Rename
    } else if objective {
        Advice::DropConstant
    } else {
        Advice::MoveConstant
    }
}

/// The first word of the text.
fn next_word(text: &[u8]) -> &[u8] {
    text.split(|byte| ends_word(*byte))
        .find(|word| !word.is_empty())
        .unwrap_or_default()
}

/// Whether only blanks stand before this place on its line.
pub fn begins_line(text: &[u8], at: usize) -> bool {
    let before = text.get(..at).unwrap_or_default();
    match before.lines_with_terminator().last() {
        Some(line) => line.ends_with(b"\n") || line.trim().is_empty(),
        None => true,
    }
}

/// What to write in place of a word with which no statement begins.
fn advice_on_beginning(word: &[u8]) -> Option<Advice> {
    if word == b";".as_slice() {
        Some(Advice::EndOnce)
    } else if is_among(word, &["obj:", "objective:"]) {
        Some(Advice::Write("min:"))
    } else if word.ends_with(b":") {
        Some(Advice::Unname)
    } else if is_name(word) {
        Some(Advice::Begin)
    } else {
        None
    }
}

/// The first token that no statement can have at its place. Products pass, since they are a fault of their own.
pub fn misplaced(text: &[u8]) -> Option<StrayToken> {
    let mut expected = Expected::Start;
    let mut start: usize = 0;
    for line in text.lines_with_terminator() {
        if !line.trim_start().starts_with(b"*") {
            match misplaced_on(line, expected) {
                Ok(after) => expected = after,
                Err(StrayToken { bounds, expected }) => {
                    let bounds = moved(bounds, start);
                    return Some(StrayToken { bounds, expected });
                }
            }
        }
        start = start.saturating_add(line.len());
    }
    None
}

/// Whether the text ends within an objective that is not its first statement.
pub fn ends_in_late_objective(text: &[u8]) -> bool {
    let mut is_late = false;
    let mut is_objective = None; // whether the statement under way is one
    for line in text.lines() {
        if line.trim_start().starts_with(b"*") {
            continue;
        }
        let mut rest = line;
        if let Some(end) = line.rfind_byte(b';') {
            rest = line.get(end.saturating_add(1)..).unwrap_or_default();
            is_late = true;
            is_objective = None;
        }
        let rest = rest.trim_start();
        if !rest.is_empty() {
            is_objective = is_objective.or(Some(rest.starts_with(b"min:")));
        }
    }
    is_late && is_objective == Some(true)
}

/// What is expected after the tokens of a line, or where on it the first misplaced one stands.
fn misplaced_on(line: &[u8], expected: Expected) -> Result<Expected, StrayToken> {
    let mut expected = expected;
    let mut start = None;
    for (at, byte) in line.iter().enumerate() {
        if ends_word(*byte) {
            if let Some(from) = start {
                expected = after_word(line, from..at, expected)?;
                start = None;
            }
            expected = after_mark(line, at, expected)?;
        } else if start.is_none() {
            start = Some(at);
        }
        if *byte == b':' {
            let from = start.unwrap_or(at);
            expected = after_word(line, from..at.saturating_add(1), expected)?;
            start = None;
        }
    }
    match start {
        Some(from) => after_word(line, from..line.len(), expected),
        None => Ok(expected),
    }
}

/// Whether the word is the relation of a constraint.
pub fn is_relation(word: &[u8]) -> bool {
    word == b">=".as_slice() || word == b"<=".as_slice() || word == b"=".as_slice()
}

/// Whether a byte is no part of a word.
pub fn ends_word(byte: u8) -> bool {
    matches!(
        byte,
        b' ' | b'\t' | b'\r' | b'\n' | b';' | b'>' | b'<' | b'='
    )
}

/// What is expected after the mark at this place, if it is one: the end of a statement or a relation.
fn after_mark(line: &[u8], at: usize, expected: Expected) -> Result<Expected, StrayToken> {
    if let Some(bounds) = no_relation(line, at) {
        return Err(StrayToken { bounds, expected });
    }
    let next = at.saturating_add(1);
    let before = at.checked_sub(1).and_then(|it| line.get(it)).copied();
    let relation = match line.get(at).copied() {
        Some(b';') => return after_end(at..next, expected),
        Some(b'>' | b'<') => at..next.saturating_add(1),
        Some(b'=') if before != Some(b'>') && before != Some(b'<') => at..next,
        _ => return Ok(expected),
    };
    match expected {
        Expected::Start | Expected::AfterLiteral { objective: false } => Ok(Expected::Bound),
        _ => Err(StrayToken {
            bounds: relation,
            expected,
        }),
    }
}

/// What stands in place of a relation, where the mark at this place is part of none. It is shown whole, and one mark too many with
/// the one before it.
fn no_relation(line: &[u8], at: usize) -> Option<Range<usize>> {
    let next = at.saturating_add(1);
    let (before, rest) = (line.get(..at)?, line.get(next..)?);
    let mark = line.get(at).copied()?;
    if !matches!(mark, b'>' | b'<' | b'=') {
        return None;
    }
    if mark == b'>' && before.ends_with(b"<=") {
        return Some(at.saturating_sub(2)..next);
    }
    let parted = parted(rest);
    if mark != b'=' && parted > 0 {
        return Some(at..next.saturating_add(parted));
    }
    if before.ends_with(b"=") {
        return Some(at.saturating_sub(1)..next);
    }
    if mark == b'=' || rest.starts_with(b"=") {
        return None;
    }
    let more = if mark == b'<' { arrow(rest) } else { 0 };
    Some(at..next.saturating_add(more))
}

/// How many bytes of an arrow, or of `<>`, follow its `<`.
fn arrow(rest: &[u8]) -> usize {
    if rest.starts_with(b">") {
        1
    } else if rest.starts_with(b"->") {
        2
    } else {
        0
    }
}

/// How many bytes end in a `=` that stands behind one or more blanks, or none.
fn parted(rest: &[u8]) -> usize {
    let front = rest.trim_start();
    let blanks = rest.len().saturating_sub(front.len());
    if blanks > 0 && front.starts_with(b"=") {
        blanks.saturating_add(1)
    } else {
        0
    }
}

fn after_end(bounds: Range<usize>, expected: Expected) -> Result<Expected, StrayToken> {
    match expected {
        Expected::ObjectiveNumber | Expected::AfterLiteral { objective: true } | Expected::End =>
            Ok(Expected::Start),
        _ => Err(StrayToken { bounds, expected }),
    }
}

/// What is expected after the word between these bounds.
fn after_word(
    line: &[u8],
    bounds: Range<usize>,
    expected: Expected,
) -> Result<Expected, StrayToken> {
    let word = line.get(bounds.start..bounds.end).unwrap_or_default();
    if is_cut_off(word, line.get(bounds.end).copied()) {
        let bounds = bounds.end.saturating_sub(1)..bounds.end.saturating_add(1);
        return Err(StrayToken { bounds, expected });
    }
    match expected {
        Expected::Start if word == b"min:".as_slice() => Ok(Expected::ObjectiveNumber),
        Expected::Start if is_number(word) => Ok(Expected::Literal {
            objective: false,
            is_first: true,
        }),
        Expected::ObjectiveNumber if is_number(word) => Ok(Expected::Literal {
            objective: true,
            is_first: true,
        }),
        Expected::Literal { objective, .. } | Expected::AfterLiteral { objective }
            if is_literal(word) => { Ok(Expected::AfterLiteral { objective }) }
        Expected::AfterLiteral { objective } if is_number(word) => Ok(Expected::Literal {
            objective,
            is_first: false,
        }),
        Expected::Bound if is_number(word) => Ok(Expected::End),
        _ => Err(StrayToken { bounds, expected }),
    }
}

/// Whether the word and the mark behind it end in `!=` or `->`.
fn is_cut_off(word: &[u8], mark: Option<u8>) -> bool {
    (word.ends_with(b"!") && mark == Some(b'=')) || (word.ends_with(b"-") && mark == Some(b'>'))
}

fn is_number(word: &[u8]) -> bool {
    are_digits(unsigned(word))
}

/// The word without a sign before it.
pub fn unsigned(word: &[u8]) -> &[u8] {
    match word.first() {
        Some(b'+' | b'-') => word.get(1..).unwrap_or_default(),
        _ => word,
    }
}

/// Whether a word begins as a name does.
fn is_name(word: &[u8]) -> bool {
    word.first().is_some_and(|byte| byte.is_ascii_alphabetic())
}

/// Whether a word is a variable or a negated one.
pub fn is_literal(word: &[u8]) -> bool {
    variable(word).is_some_and(are_digits)
}

/// What stands behind the `x` of a literal.
pub fn variable(word: &[u8]) -> Option<&[u8]> {
    word.strip_prefix(b"~").unwrap_or(word).strip_prefix(b"x")
}

/// Whether the word is one or more digits.
pub fn are_digits(word: &[u8]) -> bool {
    !word.is_empty() && word.iter().all(|byte| byte.is_ascii_digit())
}
