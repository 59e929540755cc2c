//! Why a form was not built.

ghost use Rattle.std.specs.Prelude.{◌≡◌};
ghost use Rattle.pb_normal.specs.declared.unbuilt.Unbuilt.TheVariants.{Memory};

use pb_inst::Memory;

/// Why a form of some width was not built.
#[derive(Clone, Copy, Debug, PartialEq, Eq)]
pub enum Unbuilt {
    /// A growth of memory was refused.
    Memory,
    /// A sum is not below the limit of the form's numbers.
    TooWide,
}

impl From<Memory> for Unbuilt {
    ghost from_gives = { λ _ unbuilt. unbuilt ≡ Memory };

    fn from(_: Memory) -> Unbuilt {
        Unbuilt::Memory
    }
}
