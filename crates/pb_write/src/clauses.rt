//! Writing clauses, and those of a piece, in the format of the instance.
//! Source: [OPB], [DIMACS]
ghost use Rattle.std.specs.Prelude.{◌≡◌, ◌≤◌, flat_map, map, All, OnOk};
ghost use Rattle.pb_write.specs.Pieces.{negation, negated_clause, unit_clauses, clauses_of};
ghost use Rattle.pb_write.specs.Written.{Adds, HaveVariables};
ghost use Rattle.pb_write.specs.Text.{cnf_literal, clause_literal, clause_end, clause_text};

use crate::opb;
use crate::put::{put, put_number};
use pb_cubes::Piece;
use pb_inst::{Cube, Lit, Term, Terms};
use pb_read::Format;
use std::io::{self, Write};

fn put_cnf_literal<W: Write>(out: &mut W, lit: Lit) -> io::Result<()>
    ensures { OnOk result (Adds W.contents out.old out.new (cnf_literal lit)) }
{
    put(out, if lit.positive() { b"" } else { b"-" })?;
    put_number(out, lit.var())?;
    put(out, b" ")
}

/// Writes a literal of a clause.
fn put_literal<W: Write>(out: &mut W, format: Format, lit: Lit) -> io::Result<()>
    ensures written { OnOk result (Adds W.contents out.old out.new (clause_literal format lit)) }
    ensures variable { 1 ≤ lit.var }
{
    if format.is_clausal() {
        put_cnf_literal(out, lit)
    } else {
        opb::put_term(out, Term { coef: 1, lit })
    }
}

/// Writes what ends a clause.
fn put_end<W: Write>(out: &mut W, format: Format) -> io::Result<()>
    ensures { OnOk result (Adds W.contents out.old out.new (clause_end format)) }
{
    if format.is_clausal() {
        put(out, b"0\n")
    } else {
        put(out, b">= 1 ;\n")
    }
}

/// Writes the clause of the terms' literals on a line of its own.
pub(crate) fn put_clause<W: Write>(out: &mut W, format: Format, terms: &Terms<'_>) -> io::Result<()>
    ensures { OnOk result (Adds W.contents out.old out.new (clause_text format (map (λ t. t.lit) terms.now))) }
{
    for i in 0..terms.len() {
        put_literal(out, format, terms.get(i).lit)?;
    }
    put_end(out, format)
}

/// Writes the clauses that an assignment meets exactly where it lies in the piece.
pub(crate) fn put_piece<W: Write>(out: &mut W, format: Format, piece: Piece<'_>) -> io::Result<()>
    ensures written { OnOk result (Adds W.contents out.old out.new (flat_map (clause_text format) (clauses_of piece.entry))) }
    ensures variables { OnOk result (HaveVariables (clauses_of piece.entry)) }
{
    match piece {
        Piece::Cube(cube) => put_unit_clauses(out, format, cube.lits()),
        Piece::Rest(cubes) => put_negated_clauses(out, format, cubes),
    }
}

fn put_unit_clauses<W: Write>(out: &mut W, format: Format, lits: &[Lit]) -> io::Result<()>
    ensures written { OnOk result (Adds W.contents out.old out.new (flat_map (clause_text format) (unit_clauses lits.now))) }
    ensures variables { OnOk result (HaveVariables (unit_clauses lits.now)) }
{
    for lit in lits {
        put_literal(out, format, *lit)?;
        put_end(out, format)?;
    }
    Ok(())
}

fn put_negated_clauses<W: Write>(out: &mut W, format: Format, cubes: &[Cube]) -> io::Result<()>
    ensures written { OnOk result (Adds W.contents out.old out.new (flat_map (clause_text format) (map negated_clause cubes.now))) }
    ensures variables { OnOk result (HaveVariables (map negated_clause cubes.now)) }
{
    for cube in cubes {
        put_negated_clause(out, format, cube.lits())?;
    }
    Ok(())
}

fn put_negated_clause<W: Write>(out: &mut W, format: Format, lits: &[Lit]) -> io::Result<()>
    ensures written { OnOk result (Adds W.contents out.old out.new (clause_text format (negated_clause lits.now))) }
    ensures variables { OnOk result (All (λ l. 1 ≤ l.var) (negated_clause lits.now)) }
{
    for lit in lits {
        put_literal(out, format, lit.negate())?;
    }
    put_end(out, format)
}
