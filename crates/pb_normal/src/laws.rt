//! Laws of the normal form.

ghost use Rattle.pb_normal.specs.Exact.{NormalFormIsUnique, LeastValueIsSumOfMinima};

/// The definition of the normal form leaves no choice: two normal forms of one instance are the same. And what it says
/// of the least value of a sum can be computed: of each variable the lesser of its literals' coefficients, added up.
pub fn normal_form_laws()
    ensures one_form { NormalFormIsUnique }
    ensures least_value { LeastValueIsSumOfMinima }
{}
