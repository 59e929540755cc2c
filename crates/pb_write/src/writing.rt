//! Writing an instance, or one piece of it.
ghost use Rattle.std.specs.Prelude.{◌≡◌, ◌↔◌, ◌≤◌, ◌⊎◌, [], flat_map, length, IsErrOf, IfErr, OnOk};
ghost use Rattle.pb_inst.specs.Constraints.{linear};
ghost use Rattle.pb_inst.specs.Limits.{IsProper, constraint_magnitude};
ghost use Rattle.pb_inst.specs.declared.limits.TheConstants.{SUM_BOUND};
ghost use Rattle.pb_cubes.specs.Pieces.{AreWithin};
ghost use Rattle.pb_write.specs.Pieces.{clauses_of, with_clauses, piece_problem, KeepsCounts};
ghost use Rattle.pb_write.specs.Text.{constraint_text, objective_text, text_with_clauses};
ghost use Rattle.pb_write.specs.Written.{Adds, HasText, HaveVariables, IsWritten};

use crate::clauses::{put_clause, put_piece};
use crate::counts::constraint_count;
use crate::fault::WriteFault;
use crate::formats::put_header;
use crate::forms::has_text;
use crate::opb;
use pb_cubes::{Piece, Pieces};
use pb_inst::{Constraint, Instance};
use pb_read::Format;
use std::io::{self, Error, ErrorKind, Write};

/// Writes the instance as a text of the format, statement by statement in its order, and an instance of iCNF as CNF. The
/// header keeps the number of variables. A constraint with `<=` is written with `>=` and all its numbers negated, since not
/// every solver reads `<=`.
///
/// Fails with `NotClauses` where the format is not OPB and there is an objective or a constraint that is no clause; then nothing
/// was written. Where the writer fails with `Memory` or `Write`, some bytes may have been written. Takes no memory itself. The
/// writer gets many small writes, so a file should stand behind a buffer, which the caller flushes.
pub fn write_instance<W: Write>(
    out: &mut W,
    format: Format,
    instance: &Instance,
) -> Result<(), WriteFault>
    ensures written { OnOk result (IsWritten format (W.contents out.old) (W.contents out.new) instance.now) }
    ensures not_clauses { IsErrOf result WriteFault.NotClauses ↔ (¬ HasText format instance.now) }
    ensures never_too_many { ¬ IsErrOf result WriteFault.TooMany }
    ensures unwritten { IsErrOf result WriteFault.NotClauses → out.new ≡ out.old }
{
    if !has_text(format, instance) {
        return Err(WriteFault::NotClauses);
    }
    write_text(out, format, instance, Piece::Rest(&[]), instance.len())
}

/// Writes piece `number` of the instance, from 0 and below `pieces.len()`: the instance with the clauses that say that an
/// assignment lies in the piece. For a cube these are its literals, for the remainder the negation of each cube. Otherwise the
/// text is that of `write_instance`.
///
/// Fails with `NotClauses` as `write_instance` does, else with `TooMany` where there would be more than `MAX_CONSTRAINTS`
/// constraints or `MAX_TERMS` terms, which no reader would take; then nothing was written. Else it fails as `write_instance`
/// does.
pub fn write_piece<W: Write>(
    out: &mut W,
    format: Format,
    instance: &Instance,
    pieces: &Pieces,
    number: u32,
) -> Result<(), WriteFault>
    requires same_variables { pieces.now.vars ≡ instance.now.vars }
    requires number { number ≤ length pieces.now.cubes }
    ensures written { OnOk result (IsWritten format (W.contents out.old) (W.contents out.new) (piece_problem instance.now pieces.now.cubes number)) }
    ensures not_clauses { IsErrOf result WriteFault.NotClauses ↔ (¬ HasText format instance.now) }
    ensures too_many { IsErrOf result WriteFault.TooMany ↔ (HasText format instance.now × ¬ KeepsCounts (piece_problem instance.now pieces.now.cubes number)) }
    ensures unwritten { (IsErrOf result WriteFault.NotClauses ⊎ IsErrOf result WriteFault.TooMany) → out.new ≡ out.old }
{
    if !has_text(format, instance) {
        return Err(WriteFault::NotClauses);
    }
    let piece = pieces.piece(number);
    let Some(constraints) = constraint_count(instance, piece) else {
        return Err(WriteFault::TooMany);
    };
    write_text(out, format, instance, piece, constraints)
}

/// Writes the instance with the clauses of the piece, under a header that announces `constraints` constraints.
fn write_text<W: Write>(
    out: &mut W,
    format: Format,
    instance: &Instance,
    piece: Piece<'_>,
    constraints: usize,
) -> Result<(), WriteFault>
    requires form { HasText format instance.now }
    requires constraints { constraints ≡ length (with_clauses instance.now (clauses_of piece)).constraints }
    requires counts { KeepsCounts (with_clauses instance.now (clauses_of piece)) }
    requires within { AreWithin instance.now.vars (clauses_of piece) }
    ensures written { OnOk result (IsWritten format (W.contents out.old) (W.contents out.new) (with_clauses instance.now (clauses_of piece.entry))) }
    ensures fault { IfErr result (λ fault. (fault ≡ WriteFault.Memory) ⊎ (fault ≡ WriteFault.Write)) }
{
    match put_text(out, format, instance, piece, constraints) {
        Ok(()) => Ok(()),
        Err(error) => Err(fault_of(&error)),
    }
}

fn fault_of(error: &Error) -> WriteFault
    ensures { (result ≡ WriteFault.Memory) ⊎ (result ≡ WriteFault.Write) }
{
    if error.kind() == ErrorKind::OutOfMemory {
        WriteFault::Memory
    } else {
        WriteFault::Write
    }
}

fn put_text<W: Write>(
    out: &mut W,
    format: Format,
    instance: &Instance,
    piece: Piece<'_>,
    constraints: usize,
) -> io::Result<()>
    requires { constraints ≡ length (with_clauses instance.now (clauses_of piece)).constraints }
    ensures written { OnOk result (Adds W.contents out.old out.new (text_with_clauses format instance.now (clauses_of piece.entry))) }
    ensures variables { OnOk result (HaveVariables (clauses_of piece.entry)) }
    ensures proper { OnOk result (IsProper instance.now) }
{
    put_header(out, format, instance.vars(), constraints)?;
    put_objective(out, instance)?;
    put_constraints(out, format, instance)?;
    put_piece(out, format, piece)
}

/// Writes the objective, where there is one.
fn put_objective<W: Write>(out: &mut W, instance: &Instance) -> io::Result<()>
    ensures { OnOk result (Adds W.contents out.old out.new (objective_text instance.now.objective)) }
{
    match instance.objective() {
        Some(terms) => opb::put_objective(out, &terms),
        None => Ok(()),
    }
}

fn put_constraints<W: Write>(out: &mut W, format: Format, instance: &Instance) -> io::Result<()>
    ensures { OnOk result (Adds W.contents out.old out.new (flat_map (constraint_text format) instance.now.constraints)) }
{
    for i in 0..instance.len() {
        put_constraint(out, format, &instance.constraint(i))?;
    }
    Ok(())
}

fn put_constraint<W: Write>(
    out: &mut W,
    format: Format,
    constraint: &Constraint<'_>,
) -> io::Result<()>
    requires { constraint_magnitude (linear constraint.now) ≤ SUM_BOUND }
    ensures { OnOk result (Adds W.contents out.old out.new (constraint_text format (linear constraint.now))) }
{
    if format.is_clausal() {
        put_clause(out, format, &constraint.terms)
    } else {
        opb::put_constraint(out, constraint)
    }
}
