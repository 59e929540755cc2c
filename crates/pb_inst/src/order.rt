//! The order of assignments: by cost, and then by their variables.

ghost use Rattle.std.specs.Prelude.{◌≡◌, ◌≢◌, ◌↔◌, ◌<◌, ℕ, false, IsTrue, length};
ghost use Rattle.pb_inst.specs.Order.{Precedes, IsLexBefore};
ghost use Rattle.pb_inst.specs.OrderLaws.{NoneBeforeItself, BeforeIsTransitive, BeforeIsTotal, LeastIsUnique, LeastExists};
ghost use Rattle.pb_inst.specs.Words.{has_bit};

use crate::{Assignment, Number};

/// Whether the first cost is less, or the costs are equal and at the first variable where the assignments differ the
/// first has 0. Both are to the same number of variables. Takes no memory.
pub fn precedes(cost_a: Number, a: &Assignment, cost_b: Number, b: &Assignment) -> bool
    requires { length a.now ≡ length b.now }
    ensures { IsTrue result ↔ Precedes cost_a a.now cost_b b.now }
{
    cost_a < cost_b || cost_a == cost_b && is_lex_before(a, b)
}

/// Whether at the first variable where the assignments differ the first has 0.
fn is_lex_before(a: &Assignment, b: &Assignment) -> bool
    requires { length a.now ≡ length b.now }
    ensures { IsTrue result ↔ IsLexBefore a.now b.now }
{
    for i in 0..a.words() {
        let (x, y) = (a.word(i), b.word(i));
        if x != y {
            let place = (x ^ y).trailing_zeros();
            return x >> place & 1 == 0;
        }
    }
    false
}

/// The laws of the order of assignments by cost and then by their variables, and of the least feasible one.
pub fn order_laws()
    ensures none_before_itself { NoneBeforeItself }
    ensures transitive { BeforeIsTransitive }
    ensures total { BeforeIsTotal }
    ensures one_least { LeastIsUnique }
    ensures least_exists { LeastExists }
{}
