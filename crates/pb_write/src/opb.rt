//! Writing literals, terms and statements in OPB.
//! Source: [OPB]
ghost use Rattle.std.specs.Prelude.{◌≡◌, ◌++◌, ◌≤◌, codes, map, unsigned_abs, OnOk};
ghost use Rattle.std.specs.Fmt.{signed_decimal};
ghost use Rattle.pb_inst.specs.Constraints.{linear};
ghost use Rattle.pb_inst.specs.Limits.{total_magnitude, constraint_magnitude};
ghost use Rattle.pb_inst.specs.declared.limits.TheConstants.{SUM_BOUND};
ghost use Rattle.pb_write.specs.Turned.{turned_term, written_constraint};
ghost use Rattle.pb_write.specs.Written.{Adds};
ghost use Rattle.pb_write.specs.Text.{opb_literal, term_text, terms_text, constraint_line, objective_line};

use crate::put::{put, put_number};
use pb_inst::{Constraint, Lit, Number, Relation, Term, Terms};
use std::io::{self, Write};

fn put_literal<W: Write>(out: &mut W, lit: Lit) -> io::Result<()>
    ensures { OnOk result (Adds W.contents out.old out.new (opb_literal lit)) }
{
    put(out, if lit.positive() { b"x" } else { b"~x" })?;
    put_number(out, lit.var())
}

/// Writes a coefficient and its literal, each with a space behind it.
pub(crate) fn put_term<W: Write>(out: &mut W, term: Term) -> io::Result<()>
    ensures { OnOk result (Adds W.contents out.old out.new (term_text term)) }
{
    put_number(out, term.coef)?;
    put(out, b" ")?;
    put_literal(out, term.lit)?;
    put(out, b" ")
}

fn put_terms<W: Write>(out: &mut W, terms: &Terms<'_>) -> io::Result<()>
    ensures { OnOk result (Adds W.contents out.old out.new (terms_text terms.now)) }
{
    for i in 0..terms.len() {
        put_term(out, terms.get(i))?;
    }
    Ok(())
}

/// Writes the terms with their coefficients negated.
fn put_turned_terms<W: Write>(out: &mut W, terms: &Terms<'_>) -> io::Result<()>
    requires { total_magnitude terms.now ≤ SUM_BOUND }
    ensures { OnOk result (Adds W.contents out.old out.new (terms_text (map turned_term terms.now))) }
{
    for i in 0..terms.len() {
        put_term(out, turned(terms.get(i)))?;
    }
    Ok(())
}

/// The term with its coefficient negated.
fn turned(term: Term) -> Term
    requires { unsigned_abs term.coef ≤ SUM_BOUND }
    ensures { result ≡ turned_term term }
{
    Term {
        coef: -term.coef,
        lit: term.lit,
    }
}

/// Writes a constraint on a line of its own, one with `<=` as one with `>=`.
pub(crate) fn put_constraint<W: Write>(out: &mut W, constraint: &Constraint<'_>) -> io::Result<()>
    requires { constraint_magnitude (linear constraint.now) ≤ SUM_BOUND }
    ensures { OnOk result (Adds W.contents out.old out.new (constraint_line (written_constraint (linear constraint.now)))) }
{
    match constraint.relation {
        Relation::AtLeast => {
            put_terms(out, &constraint.terms)?;
            put_bound(out, b">=", constraint.bound)
        }
        Relation::AtMost => {
            put_turned_terms(out, &constraint.terms)?;
            put_bound(out, b">=", -constraint.bound)
        }
        Relation::Equal => {
            put_terms(out, &constraint.terms)?;
            put_bound(out, b"=", constraint.bound)
        }
    }
}

/// Writes the sign of the relation and the bound, which end a constraint.
fn put_bound<W: Write>(out: &mut W, sign: &[u8], bound: Number) -> io::Result<()>
    ensures { OnOk result (Adds W.contents out.old out.new (sign.now ++ codes " " ++ signed_decimal bound ++ codes " ;\n")) }
{
    put(out, sign)?;
    put(out, b" ")?;
    put_number(out, bound)?;
    put(out, b" ;\n")
}

/// Writes an objective on a line of its own.
pub(crate) fn put_objective<W: Write>(out: &mut W, terms: &Terms<'_>) -> io::Result<()>
    ensures { OnOk result (Adds W.contents out.old out.new (objective_line terms.now)) }
{
    put(out, b"min: ")?;
    put_terms(out, terms)?;
    put(out, b";\n")
}
