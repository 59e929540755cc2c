//! Literals, relations, formats and the sets of assignments that are asked about, as C writes them.
ghost use Rattle.std.specs.Prelude.{◌≡◌, ◌↔◌, IfOk, IfErr, IsOk, IfSome, IfNone};
ghost use Rattle.pb_c.specs.Called.{number_of, IsVariable, relation_number, format_number};
ghost use Rattle.pb_c.specs.Questions.{among_number};

use pb_inst::{InstFault, Lit, Relation};
use pb_questions::Among;
use pb_solve::Format;

/// The literal of a number: n stands for variable n, and -n for its negation. Fails with `BadVariable` where n is not from 1 to
/// `MAX_VARS`.
pub(crate) fn literal_of(number: i32) -> Result<Lit, InstFault>
    ensures literal { IfOk result (λ lit. number_of lit ≡ number) }
    ensures accepts { IsOk result ↔ IsVariable number }
    ensures fault { IfErr result (λ fault. fault ≡ InstFault.BadVariable) }
{
    Lit::new(number.unsigned_abs(), number > 0)
}

/// The number of a literal.
pub(crate) fn number_of(lit: Lit) -> i32
    ensures { result ≡ number_of lit }
{
    let number = lit.var() as i32;
    if lit.positive() { number } else { -number }
}

/// The relation of a number, if the number stands for one.
pub(crate) fn relation_of(number: i32) -> Option<Relation>
    ensures some { IfSome result (λ relation. relation_number relation ≡ number) }
    ensures none { IfNone result ((relation : Relation) → ¬ (relation_number relation ≡ number)) }
{
    match number {
        0 => Some(Relation::AtLeast),
        1 => Some(Relation::AtMost),
        2 => Some(Relation::Equal),
        _ => None,
    }
}

/// The format of a number, if the number stands for one.
pub(crate) fn format_of(number: i32) -> Option<Format>
    ensures some { IfSome result (λ format. format_number format ≡ number) }
    ensures none { IfNone result ((format : Format) → ¬ (format_number format ≡ number)) }
{
    match number {
        0 => Some(Format::Opb),
        1 => Some(Format::Cnf),
        2 => Some(Format::Icnf),
        _ => None,
    }
}

/// The assignments that are asked about, if the number stands for some.
pub(crate) fn among_of(number: i32) -> Option<Among>
    ensures some { IfSome result (λ among. among_number among ≡ number) }
    ensures none { IfNone result ((among : Among) → ¬ (among_number among ≡ number)) }
{
    match number {
        0 => Some(Among::Feasible),
        1 => Some(Among::Least),
        _ => None,
    }
}
