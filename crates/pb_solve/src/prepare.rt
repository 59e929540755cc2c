//! From the texts and the split to the instance and its pieces, unless something is refused.
ghost use Rattle.std.specs.Prelude.{◌≡◌, false, Some, IfOk, IfErr, IfSome};
ghost use Rattle.pb_cubes.specs.Pieces.{AreWithin};
ghost use Rattle.pb_read.specs.Format.{Spells, text_refusal};
ghost use Rattle.pb_solve.specs.Run.{IsPrepared, IsInputError, StopsAtFault, stops_at_input, stops_at_cubes};

mod division;
pub(crate) mod reading;

use division::divide;
use pb_cubes::Pieces;
use pb_inst::{Cube, Instance};
use pb_read::{Format, ReadFault, ReadKind, read};
use pb_report::{Device, Refusal};
use reading::{CubeFile, ReadStop, read_all};
use std::alloc::Global;
use std::io::Read;

/// Why a run ends before anything is solved.
#[derive(Clone, Copy)]
pub(crate) enum PrepareError {
    ReadInput,
    ReadCubes,
    Memory,
    Refused(Refusal),
}

/// An instance, and the pieces into which its cubes and the split divide it.
#[derive(Drop)]
pub(crate) struct Prepared {
    pub(crate) instance: Instance,
    pub(crate) pieces: Pieces,
}

/// The instance of the input and its pieces, where neither it nor the cubes nor the split is refused.
/// The cube file is read only where the input is not refused.
pub(crate) fn prepare<I: Read, C: CubeFile>(
    alloc: Global,
    input: &mut Device<I>,
    cubes: &mut C,
    format: Format,
    split: u32,
) -> Result<Prepared, PrepareError>
    requires input { input.old.failed ≡ false }
    requires cubes { C.has_failed cubes.old ≡ false }
    ensures prepared { IsPrepared format (I.remaining input.old.held) (C.text_left cubes.old) split result }
    ensures same_variables { IfOk result (λ found. found.pieces.vars ≡ found.instance.vars) }
    ensures input { input.new.failed ≡ stops_at_input result }
    ensures cubes { C.has_failed cubes.new ≡ stops_at_cubes result }
    ensures refused_input { IfSome (I.remaining input.old.held) (λ text. (fault : ReadFault) → text_refusal format text ≡ Some fault → StopsAtFault fault result) }
    ensures unread { IfSome (I.remaining input.old.held) (λ text. (fault : ReadFault) → text_refusal format text ≡ Some fault → cubes.new ≡ cubes.old) }
{
    let (instance, input_cubes) = match read_instance(alloc, input, format) {
        Ok(found) => found,
        Err(error) => return Err(error),
    };
    match divide(alloc, cubes, &instance, input_cubes, split) {
        Ok(pieces) => Ok(Prepared { instance, pieces }),
        Err(error) => Err(error),
    }
}

/// The instance and the cubes of the input.
fn read_instance<I: Read>(
    alloc: Global,
    input: &mut Device<I>,
    format: Format,
) -> Result<(Instance, Vec<Cube>), PrepareError>
    requires { input.old.failed ≡ false }
    ensures found { IfOk result (λ r. IfSome (I.remaining input.old.held) (λ text. Spells format text r.0 r.1.items)) }
    ensures within { IfOk result (λ r. AreWithin r.0.vars r.1.items) }
    ensures refused { IfErr result (IsInputError format (I.remaining input.old.held)) }
    ensures failed { input.new.failed ≡ stops_at_input result }
{
    let text = match read_all(alloc, input) {
        Ok(text) => text,
        Err(ReadStop::Fault) => return Err(PrepareError::ReadInput),
        Err(ReadStop::Memory) => return Err(PrepareError::Memory),
    };
    match read(alloc, format, &text) {
        Ok(found) => Ok(found),
        Err(fault) if fault.kind == ReadKind::Memory => Err(PrepareError::Memory),
        Err(fault) => Err(PrepareError::Refused(Refusal::Input(fault))),
    }
}
