//! The program over any files and any outputs.
ghost use Rattle.std.specs.Prelude.{◌≡◌, ◌≤◌, [], codes, decimal, map, IfOk, OnOk};
ghost use Rattle.std.specs.Io.KnownBytes.{Appends};
ghost use Rattle.clap.specs.Words.{fault_of, kind_of};
ghost use Rattle.pb_files.specs.Writing.{told_line};
ghost use Rattle.pb_line.specs.Ends.{EndsBy};
ghost use Rattle.pb_line.specs.Dividing.{pbcube_pieces};
ghost use Rattle.pbcube_pieces.specs.Ending.{Ends};
ghost use Rattle.pbcube_pieces.specs.Writing.{Divides, DividesAsAsked};

use clap::Error;
use pb_files::{Folders, PiecesFault, prepare, write_pieces};
use pb_line::dividing::{Line, line};
use pb_line::{end_at_line, tell_failure, tell_hint, tell_range};
use std::alloc::Global;
use std::io::{self, Write};

/// The options that take a number.
const OPTIONS: [&str; 1] = ["--split"];

/// Runs the program on its words, of which the first is its own name, and answers its exit status. The output is told how many
/// pieces were written.
pub fn program<'a, F: Folders, W: Write, E: Write>(
    alloc: Global,
    words: &'a [&'a str],
    folders: &mut F,
    out: &mut W,
    err: &mut E,
) -> u8
    ensures status { result ≤ 2 }
    ensures ended { Ends (map (λ word. word.now) words.now) result }
    ensures divided { fault_of pbcube_pieces (map (λ word. word.now) words.now) ≡ [] → result ≡ 0 → DividesAsAsked F.reads F.makes F.looks F.writes (map (λ word. word.now) words.now) folders.old folders.new (W.contents out.old) (W.contents out.new) }
{
    let line = match line(alloc, words) {
        Ok(line) => line,
        Err(fault) => {
            tell_range("pbcube_pieces", &OPTIONS, &fault, words, err);
            return end_without_run(&fault, out, err);
        }
    };
    let pieces = match write_all(alloc, folders, &line) {
        Ok(pieces) => pieces,
        Err(fault) => return end_at_fault(&fault, err),
    };
    match tell(pieces, out) {
        Ok(()) => 0,
        Err(reason) => end_unwritten(reason, err),
    }
}

/// The program's end where there was no memory for its words.
pub fn out_of_memory<E: Write>(err: &mut E) -> u8
    ensures { result ≡ 1 }
{
    end_at_fault(&PiecesFault::Memory, err)
}

/// Reads and divides what the line names, writes the pieces, and answers how many there are.
fn write_all<'a, F: Folders>(
    alloc: Global,
    folders: &mut F,
    line: &Line<'a>,
) -> Result<u32, PiecesFault<'a>>
    ensures { IfOk result (λ pieces. Divides F.reads F.makes F.looks F.writes line.now pieces folders.old folders.new) }
{
    let prepared = prepare(
        alloc,
        folders,
        line.format,
        line.file,
        line.cubes,
        line.split,
    )?;
    write_pieces(alloc, folders, line.format, line.out, &prepared)?;
    Ok(prepared.pieces.len())
}

/// Tells how many pieces were written, as the first line of the index does.
fn tell<W: Write>(pieces: u32, out: &mut W) -> io::Result<()>
    ensures { OnOk result (Appends (W.contents out.old) (W.contents out.new) (told_line (codes "pieces") (decimal pieces))) }
{
    writeln!(out, "pieces {pieces}")
}

/// The end where the words ask for no run: help, the version, a refusal, or no memory.
fn end_without_run<W: Write, E: Write>(fault: &Error, out: &mut W, err: &mut E) -> u8
    ensures { EndsBy (λ status. status ≡ 1) (kind_of fault.now) result }
{
    match end_at_line("pbcube_pieces", fault, out, err) {
        Some(status) => status,
        None => out_of_memory(err),
    }
}

/// The end where the output did not take all: one line to the standard error with the reason, unless whoever reads the output
/// wants no more of it.
fn end_unwritten<E: Write>(reason: io::Error, err: &mut E) -> u8
    ensures { result ≡ 1 }
{
    tell_failure("pbcube_pieces", "cannot write", Some(reason), err);
    1
}

/// Writes one line to the standard error, and one more with what may help, if there is such a hint.
fn end_at_fault<E: Write>(fault: &PiecesFault<'_>, err: &mut E) -> u8
    ensures { result ≡ 1 }
{
    tell_failure("pbcube_pieces", fault, None, err);
    tell_hint("pbcube_pieces", fault.hint(), err);
    1
}
