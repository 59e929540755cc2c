//! Reading an instance and its pieces from files.
//! Source: [H11]
ghost use Rattle.std.specs.Prelude.{◌≡◌, ◌<◌, ℕ, length, option_map, IfErr, IfOk};
ghost use Rattle.pb_inst.specs.declared.limits.TheConstants.{MAX_CUBES};
ghost use Rattle.pb_cubes.specs.Pieces.{AreWithin};
ghost use Rattle.pb_read.specs.declared.fault.ReadFault.{ReadFault};
ghost use Rattle.pb_files.specs.Dividing.{AreOfSplit, AreTooManyToSplit, IfRefused, ReadsCubes, ReadsDivided, ReadsFaultyCubes, ReadsGiven, ReadsRefused};

use crate::dividing_fault::DivisionFault;
use crate::folders::Folders;
use crate::hints::{hint_on_cube_file, hint_on_division, hint_on_instance};
use crate::prepared::Prepared;
use pb_cubes::{CubeFault, Pieces, split};
use pb_inst::{Cube, Instance};
use pb_read::{Format, ReadKind, read, read_cubes};
use pb_report::Refusal;
use sha2::{Digest, Sha256};
use std::alloc::Global;
use std::io::ErrorKind;

/// An instance, its own cubes and then those of the cube file, and the digests of the texts.
#[derive(Drop)]
struct Given {
    instance: Instance,
    cubes: Vec<Cube>,
    digest: [u8; 32],
    cubes_digest: Option<[u8; 32]>,
}

/// The cubes of a file, and the digest of its text, if there is a file.
#[derive(Drop)]
struct CubeFile {
    cubes: Vec<Cube>,
    digest: Option<[u8; 32]>,
}

/// Reads the instance in this format from the file of this name, and then the cubes from theirs, where there is one. Divides the
/// instance by its own cubes, those of the file and those of a split over `split` variables, in this order. It checks the
/// instance, the cubes of the file, the split and the number of all cubes, in this order, and refuses the first that fails; the
/// file of cubes is not read where the instance is refused.
pub fn prepare<'a, F: Folders>(
    alloc: Global,
    folders: &mut F,
    format: Format,
    file: &'a str,
    cubes: Option<&'a str>,
    split: u32,
) -> Result<Prepared, DivisionFault<'a>>
    ensures same_variables { IfOk result (λ prepared. prepared.pieces.vars ≡ prepared.instance.vars) }
    ensures divided { IfOk result (λ prepared. ReadsDivided F.reads format file.now (option_map (λ name. name.now) cubes.entry) split prepared.instance prepared.pieces.cubes prepared.digest prepared.cubes_digest folders.old folders.new) }
    ensures refused { IfErr result (λ fault. IfRefused fault (ReadsRefused F.reads format file.now (option_map (λ name. name.now) cubes.entry) split folders.old folders.new)) }
{
    let Given {
        instance,
        cubes: mut all,
        digest,
        cubes_digest,
    } = read_given(alloc, folders, format, file, cubes)?;
    let mut of_split = cubes_of_split(alloc, file, &instance, split)?;
    all.append(&mut of_split)?;
    let pieces = pieces_of(alloc, file, instance.vars(), split, all)?;
    Ok(Prepared {
        instance,
        pieces,
        digest,
        cubes_digest,
    })
}

/// Reads the instance and its own cubes, and then the cubes of their file, where there is one.
fn read_given<'a, F: Folders>(
    alloc: Global,
    folders: &mut F,
    format: Format,
    file: &'a str,
    cubes: Option<&'a str>,
) -> Result<Given, DivisionFault<'a>>
    ensures given { IfOk result (λ given. ReadsGiven F.reads format file.now (option_map (λ name. name.now) cubes.entry) given.instance given.cubes.items given.digest given.cubes_digest folders.old folders.new) }
    ensures within { IfOk result (λ given. AreWithin given.instance.vars given.cubes.items) }
    ensures refused { (split : ℕ) → IfErr result (λ fault. IfRefused fault (ReadsRefused F.reads format file.now (option_map (λ name. name.now) cubes.entry) split folders.old folders.new)) }
{
    let text = read_file(folders, file)?;
    let (instance, mut all) = match read(alloc, format, &text) {
        Ok(found) => found,
        Err(fault) if fault.kind == ReadKind::Memory => return Err(DivisionFault::Memory),
        Err(fault) => {
            let hint = hint_on_instance(alloc, file, format, &text, fault, false);
            return Err(DivisionFault::Refused(file, Refusal::Input(fault), hint));
        }
    };
    let CubeFile {
        cubes: mut of_file,
        digest: cubes_digest,
    } = cubes_of_file(alloc, folders, cubes, instance.vars())?;
    all.append(&mut of_file)?;
    Ok(Given {
        instance,
        cubes: all,
        digest: Sha256::digest(text.as_slice()),
        cubes_digest,
    })
}

/// All bytes of the file of this name.
fn read_file<'a, F: Folders>(folders: &mut F, name: &'a str) -> Result<Vec<u8>, DivisionFault<'a>>
    ensures read { IfOk result (λ text. F.reads folders.old name.now text.items folders.new) }
    ensures unrefused { IfErr result (λ fault. IfRefused fault (λ refusal. ⊥)) }
{
    match folders.read(name) {
        Ok(text) => Ok(text),
        Err(error) if error.kind() == ErrorKind::OutOfMemory => Err(DivisionFault::Memory),
        Err(error) => Err(DivisionFault::CannotRead(name, error)),
    }
}

/// The cubes of the file of this name, over `vars` variables. Without a name there are none.
fn cubes_of_file<'a, F: Folders>(
    alloc: Global,
    folders: &mut F,
    name: Option<&'a str>,
    vars: u32,
) -> Result<CubeFile, DivisionFault<'a>>
    ensures read { IfOk result (λ found. ReadsCubes F.reads (option_map (λ name. name.now) name.entry) vars found.cubes.items found.digest folders.old folders.new) }
    ensures within { IfOk result (λ found. AreWithin vars found.cubes.items) }
    ensures refused { IfErr result (λ fault. IfRefused fault (λ refusal. (of_file : ReadFault) × (refusal ≡ Refusal.Cubes of_file) × ReadsFaultyCubes F.reads (option_map (λ name. name.now) name.entry) vars of_file folders.old folders.new)) }
{
    let Some(name) = name else {
        return Ok(CubeFile {
            cubes: Vec::new(alloc),
            digest: None,
        });
    };
    let text = read_file(folders, name)?;
    match read_cubes(alloc, &text, vars) {
        Ok(cubes) => Ok(CubeFile {
            cubes,
            digest: Some(Sha256::digest(text.as_slice())),
        }),
        Err(fault) if fault.kind == ReadKind::Memory => Err(DivisionFault::Memory),
        Err(fault) => {
            let hint = hint_on_cube_file(alloc, name, &text, vars, fault);
            Err(DivisionFault::Refused(name, Refusal::Cubes(fault), hint))
        }
    }
}

/// The cubes of the split over `variables` variables. Over none there are none, since one empty cube would divide nothing.
fn cubes_of_split<'a>(
    alloc: Global,
    file: &'a str,
    instance: &Instance,
    variables: u32,
) -> Result<Vec<Cube>, DivisionFault<'a>>
    ensures cubes { IfOk result (λ cubes. AreOfSplit instance.now variables cubes.items) }
    ensures within { IfOk result (λ cubes. AreWithin instance.now.vars cubes.items) }
    ensures accepted { IfOk result (λ cubes. ¬ AreTooManyToSplit variables instance.now) }
    ensures refused { IfErr result (λ fault. IfRefused fault (λ refusal. (refusal ≡ Refusal.Split) × AreTooManyToSplit variables instance.now)) }
{
    if variables == 0 {
        return Ok(Vec::new(alloc));
    }
    match split(alloc, instance, variables) {
        Ok(cubes) => Ok(cubes),
        Err(CubeFault::Memory) => Err(DivisionFault::Memory),
        Err(_) => {
            let hint = hint_on_division(alloc, file, instance.vars(), variables);
            Err(DivisionFault::Refused(file, Refusal::Split, hint))
        }
    }
}

/// The pieces of these cubes, the last of which are those of the split. Their variables are within range already, so there can
/// only be too many of them.
fn pieces_of<'a>(
    alloc: Global,
    file: &'a str,
    vars: u32,
    split: u32,
    cubes: Vec<Cube>,
) -> Result<Pieces, DivisionFault<'a>>
    requires { AreWithin vars cubes.items }
    ensures pieces { IfOk result (λ pieces. pieces ≡ record { vars = vars; cubes = cubes.items }) }
    ensures refused { IfErr result (λ fault. IfRefused fault (λ refusal. (refusal ≡ Refusal.TooManyCubes) × (MAX_CUBES < length cubes.items))) }
{
    match Pieces::new(vars, cubes) {
        Ok(pieces) => Ok(pieces),
        Err(_) => {
            let hint = hint_on_division(alloc, file, vars, split);
            Err(DivisionFault::Refused(file, Refusal::TooManyCubes, hint))
        }
    }
}
