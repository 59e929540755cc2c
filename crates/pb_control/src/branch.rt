//! A decision of the search.

ghost use Rattle.std.specs.Prelude.{◌≡◌, true};

use crate::hints::Hints;
use pb_inst::{Lit, Number};

/// A decision of the search.
#[derive(Clone, Copy)]
pub struct Branch {
    /// The literal that is assumed.
    pub lit: Lit,
    /// Whether the other value was tried before it, or can lead to nothing better.
    pub flipped: bool,
    /// The bound of the trail before the decision, or none where none was taken: no more than a hint of whether to ask the
    /// engine again. It is a cost, in the instance's numbers.
    pub bound: Option<Number>,
    pub hints: Hints,
}

/// The decision for a literal whose negation can lead to nothing better: its other value counts as tried.
pub fn one_sided(lit: Lit, bound: Option<Number>, hints: Hints) -> Branch
    ensures literal { result.lit ≡ lit }
    ensures flipped { result.flipped ≡ true }
{
    Branch {
        lit,
        flipped: true,
        bound,
        hints,
    }
}
