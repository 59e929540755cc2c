//! Writing the files of the pieces and of the index.
ghost use Rattle.std.specs.Prelude.{◌≡◌, ◌≤◌, ◌+◌, ℕ, List, [], length, string_bytes, OnOk};
ghost use Rattle.pb_read.specs.Format.{Spells};
ghost use Rattle.pb_write.specs.Pieces.{piece_problem};
ghost use Rattle.pb_write.specs.Turned.{written_problem};
ghost use Rattle.pb_write.specs.Written.{written_format};
ghost use Rattle.pb_files.specs.Writing.{MakesRoom, WritesDivided, WritesPieces, index_text};

use crate::folders::Folders;
use crate::index::index_of;
use crate::piece_names::{INDEX, path, piece_name};
use crate::pieces_fault::PiecesFault;
use crate::prepared::Prepared;
use pb_read::Format;
use pb_write::{WriteFault, write_piece};
use std::alloc::Global;
use std::io::{self, ErrorKind};

/// Writes every piece of an instance in this format to a file of its own in the folder, and then the index.
pub fn write_pieces<'a, F: Folders>(
    alloc: Global,
    folders: &mut F,
    format: Format,
    folder: &'a str,
    prepared: &Prepared,
) -> Result<(), PiecesFault<'a>>
    requires { prepared.now.pieces.vars ≡ prepared.now.instance.vars }
    ensures { OnOk result (WritesDivided F.makes F.looks F.writes format folder.now prepared.now.instance prepared.now.pieces.cubes prepared.now.digest folders.old folders.new) }
{
    let index = path(alloc, folder, INDEX)?;
    make_room(folders, folder, &index)?;
    write_each(alloc, folders, format, folder, prepared)?;
    put_index(alloc, folders, index, format, prepared)
}

/// Makes the folder where it is missing, and refuses it where it holds an index.
fn make_room<'a, F: Folders>(
    folders: &mut F,
    folder: &'a str,
    index: &str,
) -> Result<(), PiecesFault<'a>>
    ensures { OnOk result (MakesRoom F.makes F.looks folder.now index.now folders.old folders.new) }
{
    if let Err(error) = folders.make_folder(folder) {
        return Err(PiecesFault::CannotUse(folder, error));
    }
    match folders.exists(index) {
        Ok(false) => Ok(()),
        Ok(true) => Err(PiecesFault::HoldsIndex(folder)),
        Err(error) => Err(PiecesFault::CannotUse(folder, error)),
    }
}

/// Writes each piece to the file of its number.
fn write_each<'a, F: Folders>(
    alloc: Global,
    folders: &mut F,
    format: Format,
    folder: &str,
    prepared: &Prepared,
) -> Result<(), PiecesFault<'a>>
    requires { prepared.now.pieces.vars ≡ prepared.now.instance.vars }
    ensures { OnOk result (WritesPieces F.writes format folder.now prepared.now.instance prepared.now.pieces.cubes (length prepared.now.pieces.cubes + 1) folders.old folders.new) }
{
    let pieces = prepared.pieces.len();
    for number in 0..pieces {
        let name = piece_name(alloc, format, number, pieces - 1)?;
        let file = path(alloc, folder, &name)?;
        write_one(alloc, folders, file, format, prepared, number)?;
    }
    Ok(())
}

/// Writes one piece to the file of this name. Its text is made in memory first, so that no file is made where that fails.
fn write_one<'a, F: Folders>(
    alloc: Global,
    folders: &mut F,
    file: String,
    format: Format,
    prepared: &Prepared,
    number: u32,
) -> Result<(), PiecesFault<'a>>
    requires same_variables { prepared.now.pieces.vars ≡ prepared.now.instance.vars }
    requires number { number ≤ length prepared.now.pieces.cubes }
    ensures { OnOk result ((text : List ℕ) × Spells (written_format format) text (written_problem (piece_problem prepared.now.instance prepared.now.pieces.cubes number)) [] × F.writes folders.old (string_bytes file) text folders.new) }
{
    let mut text = Vec::new(alloc);
    let written = write_piece(
        &mut text,
        format,
        &prepared.instance,
        &prepared.pieces,
        number,
    );
    match written {
        Ok(()) => {}
        Err(WriteFault::Memory) => return Err(PiecesFault::Memory),
        Err(fault) => return Err(PiecesFault::HasNoText(file, fault)),
    }
    put_file(folders, file, &text)
}

/// Writes the index to the file of this name.
fn put_index<'a, F: Folders>(
    alloc: Global,
    folders: &mut F,
    file: String,
    format: Format,
    prepared: &Prepared,
) -> Result<(), PiecesFault<'a>>
    ensures { OnOk result (F.writes folders.old (string_bytes file) (index_text format prepared.now.pieces.cubes prepared.now.instance.vars prepared.now.digest) folders.new) }
{
    let (pieces, vars) = (prepared.pieces.len(), prepared.instance.vars());
    match index_of(alloc, format, pieces, vars, prepared.digest) {
        Ok(text) => put_file(folders, file, &text),
        Err(error) => Err(cannot_write(file, &error)),
    }
}

/// Makes the file of this name with these bytes.
fn put_file<'a, F: Folders>(
    folders: &mut F,
    file: String,
    text: &[u8],
) -> Result<(), PiecesFault<'a>>
    ensures { OnOk result (F.writes folders.old (string_bytes file) text.now folders.new) }
{
    match folders.write_new(&file, text) {
        Ok(()) => Ok(()),
        Err(error) => Err(cannot_write(file, &error)),
    }
}

fn cannot_write<'a>(file: String, error: &io::Error) -> PiecesFault<'a> {
    if error.kind() == ErrorKind::OutOfMemory {
        PiecesFault::Memory
    } else {
        PiecesFault::CannotWrite(file, *error)
    }
}
