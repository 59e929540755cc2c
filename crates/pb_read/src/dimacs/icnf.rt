//! Reading iCNF.
//! Source: [ICNF]
ghost use Rattle.std.specs.Prelude.{◌≡◌, ◌⊎◌, List, Some, IfOk, IfErr, MatchResult};
ghost use Rattle.pb_inst.specs.Literal.{Literal};
ghost use Rattle.pb_inst.specs.Problem.{Problem};
ghost use Rattle.pb_read.specs.Text.{words};
ghost use Rattle.pb_read.specs.Icnf.{IcnfText, icnf_refusal, is_header};
ghost use Rattle.pb_read.specs.Reading.{IsMemory};

use crate::dimacs::clause_reader::ClauseReader;
use crate::dimacs::content_lines::ContentLines;
use crate::dimacs::cube_lines::{greatest_var_of, read_cube_lines};
use crate::dimacs::word::next_word;
use crate::fault::{ReadFault, ReadKind};
use pb_inst::{Cube, Instance, MAX_VARS};
use std::alloc::Global;
use std::vec::Vec;

/// Whether the line is the header, `p` and `inccnf`.
fn is_header(line: &[u8]) -> bool
    ensures { result ≡ is_header (words line.now) }
{
    let Some((p, rest)) = next_word(line) else {
        return false;
    };
    let Some((inccnf, rest)) = next_word(rest) else {
        return false;
    };
    let None = next_word(rest) else {
        return false;
    };
    p == b"p".as_slice() && inccnf == b"inccnf".as_slice()
}

/// The instance and the cubes that a text of iCNF spells; every other text is refused with its first fault.
/// The variables are 1 to the greatest in the clauses and the cubes.
pub fn read_icnf(alloc: Global, text: &[u8]) -> Result<(Instance, Vec<Cube>), ReadFault>
    ensures found { IfOk result (λ r. IcnfText text.now r.0 r.1.items) }
    ensures only { (i : Problem) (cubes : List (List Literal)) → IcnfText text.now i cubes → MatchResult result (λ r. (r.0 ≡ i) × (r.1.items ≡ cubes)) (λ f. IsMemory f) }
    ensures refused { IfErr result (λ f. IsMemory f ⊎ (icnf_refusal text.now ≡ Some f)) }
{
    let mut lines = ContentLines::new(text);
    let (head, number) = lines.header()?;
    if !is_header(head) {
        return Err(ReadFault {
            kind: ReadKind::BadHeader,
            line: number,
        });
    }
    let mut reader = ClauseReader::new(alloc, None, MAX_VARS);
    let first_cube = reader.take_clauses(&mut lines)?;
    reader.end()?;
    let cubes = read_cube_lines(alloc, first_cube, &mut lines)?;
    let vars = reader.greatest.max(greatest_var_of(&cubes));
    match reader.into_builder().finish(vars) {
        Ok(instance) => Ok((instance, cubes)),
        Err(_) => unreachable!(),
    }
}
