//! Reading OPB.
//! Source: [OPB]
ghost use Rattle.std.specs.Prelude.{◌≡◌, ◌⊎◌, Some, IfOk, IfErr, MatchResult};
ghost use Rattle.pb_inst.specs.Problem.{Problem};
ghost use Rattle.pb_read.specs.Opb.{OpbText, opb_refusal};
ghost use Rattle.pb_read.specs.Reading.{IsMemory};

mod builder;
mod draft;
mod form;
mod header;
mod sink;
mod token;

use crate::fault::{ReadFault, ReadKind};
use builder::read_statements;
use header::announced_vars;
use pb_inst::{Instance, MAX_VARS};
use std::alloc::Global;

/// The instance that the text spells; every other text is refused with its first fault.
pub fn read_opb(alloc: Global, text: &[u8]) -> Result<Instance, ReadFault>
    ensures found { IfOk result (λ i. OpbText text.now i) }
    ensures only { (i : Problem) → OpbText text.now i → MatchResult result (λ r. r ≡ i) (λ f. IsMemory f) }
    ensures refused { IfErr result (λ f. IsMemory f ⊎ (opb_refusal text.now ≡ Some f)) }
{
    let least = announced_vars(text);
    if least > MAX_VARS {
        return Err(ReadFault {
            kind: ReadKind::TooMany,
            line: 1,
        });
    }
    let builder = read_statements(alloc, text)?;
    let vars = builder.greatest.max(least);
    match builder.into_instance().finish(vars) {
        Ok(instance) => Ok(instance),
        Err(_) => unreachable!(),
    }
}
