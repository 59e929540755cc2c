//! The cubes and the split, and the pieces into which they divide the work.
ghost use Rattle.std.specs.Prelude.{◌≡◌, ◌⊎◌, ◌≤◌, ◌+◌, ◌++◌, List, false, IfOk, IfErr, length, vec_len};
ghost use Rattle.std.specs.Option.{option_map};
ghost use Rattle.pb_inst.specs.Literal.{Literal};
ghost use Rattle.pb_read.specs.Reading.{IsMemory};
ghost use Rattle.pb_cubes.specs.Pieces.{AreWithin};
ghost use Rattle.pb_solve.specs.Outcome.{FileSpells, IsFileRefused, split_count};
ghost use Rattle.pb_solve.specs.Division.{AreOfSplit, IsDivided};
ghost use Rattle.pb_solve.specs.Run.{IsDivisionError, CubesTold, stops_at_input, stops_at_cubes};

use crate::prepare::PrepareError;
use crate::prepare::reading::{CubeFile, ReadStop};
use pb_cubes::{CubeFault, MAX_CUBES, MAX_SPLIT, Pieces};
use pb_inst::{Cube, Instance, Memory};
use pb_read::{ReadFault, ReadKind, read_cubes};
use pb_report::Refusal;
use std::alloc::Global;

/// The pieces that the input's own cubes, those of the cube file and those of the split make, in this order. Where several are
/// at fault, the cube file is refused first, then the split, then the number of all cubes together.
pub(crate) fn divide<C: CubeFile>(
    alloc: Global,
    file: &mut C,
    instance: &Instance,
    input_cubes: Vec<Cube>,
    split: u32,
) -> Result<Pieces, PrepareError>
    requires unfailed { C.has_failed file.old ≡ false }
    requires within { AreWithin instance.now.vars input_cubes.items }
    ensures same_variables { IfOk result (λ pieces. pieces.vars ≡ instance.now.vars) }
    ensures divided { IfOk result (λ pieces. CubesTold (C.text_left file.old) (λ text. IsDivided instance.now input_cubes.items text split pieces.cubes)) }
    ensures refused { IfErr result (λ error. CubesTold (C.text_left file.old) (λ text. IsDivisionError instance.now input_cubes.items text split error)) }
    ensures failed { C.has_failed file.new ≡ stops_at_cubes result }
    ensures input { stops_at_input result ≡ false }
{
    let text = match file.read_text(alloc) {
        Ok(text) => text,
        Err(ReadStop::Fault) => return Err(PrepareError::ReadCubes),
        Err(ReadStop::Memory) => return Err(PrepareError::Memory),
    };
    divide_by_text(alloc, text.as_deref(), instance, input_cubes, split)
}

/// The pieces, where the text of the cube file is read already. Too many cubes are refused before those of the split are made.
fn divide_by_text(
    alloc: Global,
    text: Option<&[u8]>,
    instance: &Instance,
    input_cubes: Vec<Cube>,
    split: u32,
) -> Result<Pieces, PrepareError>
    requires within { AreWithin instance.now.vars input_cubes.items }
    ensures same_variables { IfOk result (λ pieces. pieces.vars ≡ instance.now.vars) }
    ensures divided { IfOk result (λ pieces. IsDivided instance.now input_cubes.items (option_map (λ t. t.now) text.entry) split pieces.cubes) }
    ensures refused { IfErr result (IsDivisionError instance.now input_cubes.items (option_map (λ t. t.now) text.entry) split) }
    ensures input { stops_at_input result ≡ false }
    ensures cubes { stops_at_cubes result ≡ false }
{
    let file_cubes = match cubes_of_file(alloc, text, instance.vars()) {
        Ok(file_cubes) => file_cubes,
        Err(fault) if fault.kind == ReadKind::Memory => return Err(PrepareError::Memory),
        Err(fault) => return Err(PrepareError::Refused(Refusal::Cubes(fault))),
    };
    if split > MAX_SPLIT || split > instance.vars() {
        return Err(PrepareError::Refused(Refusal::Split));
    }
    let most_given = MAX_CUBES - number_of_split(split);
    if file_cubes.len() > most_given || input_cubes.len() > most_given - file_cubes.len() {
        return Err(PrepareError::Refused(Refusal::TooManyCubes));
    }
    match join(alloc, instance, input_cubes, file_cubes, split) {
        Ok(pieces) => Ok(pieces),
        Err(_) => Err(PrepareError::Memory),
    }
}

/// The cubes of the cube file, and none where there is no file.
fn cubes_of_file(alloc: Global, text: Option<&[u8]>, vars: u32) -> Result<Vec<Cube>, ReadFault>
    ensures found { IfOk result (λ cubes. FileSpells vars (option_map (λ t. t.now) text.entry) cubes.items) }
    ensures within { IfOk result (λ cubes. AreWithin vars cubes.items) }
    ensures refused { IfErr result (λ fault. IsMemory fault ⊎ IsFileRefused vars (option_map (λ t. t.now) text.entry) fault) }
{
    match text {
        None => Ok(Vec::new(alloc)),
        Some(text) => read_cubes(alloc, text, vars),
    }
}

/// How many cubes a split of `split` variables makes.
fn number_of_split(split: u32) -> usize
    requires { split ≤ MAX_SPLIT }
    ensures count { result ≡ split_count split }
    ensures small { result ≤ 4096 }
{
    if split == 0 { 0 } else { 1usize << split }
}

/// The pieces of all cubes, where they are not too many. No cube is copied.
fn join(
    alloc: Global,
    instance: &Instance,
    input_cubes: Vec<Cube>,
    file_cubes: Vec<Cube>,
    split: u32,
) -> Result<Pieces, CubeFault>
    requires input_cubes { AreWithin instance.now.vars input_cubes.items }
    requires file_cubes { AreWithin instance.now.vars file_cubes.items }
    requires few { vec_len input_cubes + vec_len file_cubes + split_count split ≤ MAX_CUBES }
    requires split { (split ≤ MAX_SPLIT) × (split ≤ instance.now.vars) }
    ensures same_variables { IfOk result (λ pieces. pieces.vars ≡ instance.now.vars) }
    ensures joined { IfOk result (λ pieces. (split_cubes : List (List Literal)) × AreOfSplit instance.now split split_cubes × (pieces.cubes ≡ (input_cubes.items ++ file_cubes.items) ++ split_cubes)) }
    ensures fault { IfErr result (λ fault. fault ≡ CubeFault.Memory) }
{
    let split_cubes = cubes_of_split(alloc, instance, split)?;
    let given = append(input_cubes, file_cubes)?;
    Pieces::new(instance.vars(), append(given, split_cubes)?)
}

/// The cubes of a split of `split` variables, and none where that is 0.
fn cubes_of_split(alloc: Global, instance: &Instance, split: u32) -> Result<Vec<Cube>, CubeFault>
    requires { (split ≤ MAX_SPLIT) × (split ≤ instance.now.vars) }
    ensures of_split { IfOk result (λ cubes. AreOfSplit instance.now split cubes.items) }
    ensures number { IfOk result (λ cubes. vec_len cubes ≡ split_count split) }
    ensures within { IfOk result (λ cubes. AreWithin instance.now.vars cubes.items) }
    ensures fault { IfErr result (λ fault. fault ≡ CubeFault.Memory) }
{
    if split == 0 {
        Ok(Vec::new(alloc))
    } else {
        pb_cubes::split(alloc, instance, split)
    }
}

/// The first cubes and then the second. Where there are no first ones it takes no memory.
fn append(mut first: Vec<Cube>, mut second: Vec<Cube>) -> Result<Vec<Cube>, Memory>
    ensures { IfOk result (λ cubes. cubes.items ≡ first.items ++ second.items) }
{
    if first.is_empty() {
        return Ok(second);
    }
    first.append(&mut second)?;
    Ok(first)
}
