//! Reading DIMACS CNF.
//! Source: [DIMACS]
ghost use Rattle.std.specs.Prelude.{◌≡◌, ◌⊎◌, Some, IfOk, IfErr, MatchResult, option_map};
ghost use Rattle.pb_inst.specs.Problem.{Problem};
ghost use Rattle.pb_read.specs.Text.{words};
ghost use Rattle.pb_read.specs.Cnf.{CnfText, cnf_refusal, header_words};
ghost use Rattle.pb_read.specs.ClauseReading.{capped_header};
ghost use Rattle.pb_read.specs.Reading.{IsMemory};

use crate::digits::digits_count;
use crate::dimacs::clause_reader::ClauseReader;
use crate::dimacs::content_lines::ContentLines;
use crate::dimacs::word::next_word;
use crate::fault::{ReadFault, ReadKind};
use pb_inst::{Instance, MAX_CONSTRAINTS, MAX_VARS};
use std::alloc::Global;

/// How many variables and clauses a text announces. A number over `GREATEST_COUNT` is `GREATEST_COUNT`.
#[derive(Clone, Copy, PartialEq, Eq)]
pub(crate) struct Header {
    vars: u32,
    clauses: u32,
}

/// What the line announces, where it is `p`, `cnf` and two numbers.
fn read_header(line: &[u8]) -> Option<Header>
    ensures { result ≡ option_map capped_header (header_words (words line.now)) }
{
    let (p, rest) = next_word(line)?;
    let (cnf, rest) = next_word(rest)?;
    let (vars, rest) = next_word(rest)?;
    let (clauses, rest) = next_word(rest)?;
    let None = next_word(rest) else {
        return None;
    };
    if p != b"p".as_slice() || cnf != b"cnf".as_slice() {
        return None;
    }
    Some(Header {
        vars: digits_count(vars)?,
        clauses: digits_count(clauses)?,
    })
}

/// The instance that a text of DIMACS CNF spells; every other text is refused with its first fault.
pub fn read_cnf(alloc: Global, text: &[u8]) -> Result<Instance, ReadFault>
    ensures found { IfOk result (λ i. CnfText text.now i) }
    ensures only { (i : Problem) → CnfText text.now i → MatchResult result (λ r. r ≡ i) (λ f. IsMemory f) }
    ensures refused { IfErr result (λ f. IsMemory f ⊎ (cnf_refusal text.now ≡ Some f)) }
{
    let mut lines = ContentLines::new(text);
    let (head, number) = lines.header()?;
    let Some(Header { vars, clauses }) = read_header(head) else {
        return Err(ReadFault {
            kind: ReadKind::BadHeader,
            line: number,
        });
    };
    if vars > MAX_VARS || clauses as usize > MAX_CONSTRAINTS {
        return Err(ReadFault {
            kind: ReadKind::TooMany,
            line: number,
        });
    }
    let count = clauses as usize;
    let mut reader = ClauseReader::new(alloc, Some(count), vars);
    reader.take_rest(&mut lines)?;
    reader.end()?;
    if reader.count < count {
        return Err(ReadFault {
            kind: ReadKind::TooFewClauses,
            line: lines.last(),
        });
    }
    match reader.into_builder().finish(vars) {
        Ok(instance) => Ok(instance),
        Err(_) => unreachable!(),
    }
}
