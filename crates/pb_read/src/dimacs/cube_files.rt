//! Reading cube files.
//! Source: [ICNF]
ghost use Rattle.std.specs.Prelude.{◌≡◌, ◌⊎◌, List, Some, IfOk, IfErr, MatchResult};
ghost use Rattle.pb_inst.specs.Literal.{Literal};
ghost use Rattle.pb_read.specs.Cubes.{CubeText, cube_refusal};
ghost use Rattle.pb_read.specs.Reading.{IsMemory};

use crate::dimacs::content_lines::ContentLines;
use crate::dimacs::cube_lines::CubeReader;
use crate::fault::{ReadFault, ReadKind};
use pb_inst::{Cube, MAX_VARS};
use std::alloc::Global;
use std::vec::Vec;

/// The cubes over the variables 1 to n that the text spells, one to a line; every other text is refused with its first fault.
pub fn read_cubes(alloc: Global, text: &[u8], n: u32) -> Result<Vec<Cube>, ReadFault>
    ensures found { IfOk result (λ cubes. CubeText text.now n cubes.items) }
    ensures only { (cubes : List (List Literal)) → CubeText text.now n cubes → MatchResult result (λ r. r.items ≡ cubes) (λ f. IsMemory f) }
    ensures refused { IfErr result (λ f. IsMemory f ⊎ (cube_refusal text.now n ≡ Some f)) }
{
    let mut lines = ContentLines::new(text);
    let mut reader = CubeReader::new(alloc, n.min(MAX_VARS));
    reader.take_rest(alloc, &mut lines, ReadKind::Syntax)?;
    Ok(reader.into_cubes())
}
