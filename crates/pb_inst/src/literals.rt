//! Variables with a sign.

ghost use Rattle.std.specs.Prelude.{◌≡◌, ◌≤◌, OkIff, IfErr, not, true};
ghost use Rattle.pb_inst.specs.Literal.{Literal};
ghost use Rattle.pb_inst.specs.declared.limits.TheConstants.{MAX_VARS};

use crate::{InstFault, MAX_VARS};
use std::marker::Model;

/// A literal: a variable, numbered from 1 to `MAX_VARS`, or its negation. Contracts see a `Literal`.
#[derive(Clone, Copy, Debug, PartialEq, Eq)]
pub struct Lit {
    /// Twice the variable, and 1 more where the literal is positive.
    code: u32,
}

impl Model for Lit {
    ghost use Rattle.std.specs.Prelude.{ℕ, ◌/◌, ◌≤◌};
    ghost use Rattle.std.proofs.Common.{ap};
    ghost use Rattle.pb_inst.specs.Literal.{Literal};
    ghost use Rattle.pb_inst.specs.declared.limits.TheConstants.{MAX_VARS};
    ghost use Rattle.pb_inst.specs.LiteralCodes.{literal_of_code, code_of_literal, code_back};

    ghost Value = { Literal };

    ghost view = { λ l. literal_of_code l.code };

    ghost invariant = { λ l. (1 ≤ l.code / 2) × (l.code / 2 ≤ MAX_VARS) };

    ghost inverse = { λ l. record { code = code_of_literal l } };

    ghost inverse_ok = { λ a h. ap (λ (n : ℕ). let l : Inside = record { code = n } in l) (code_back a.code) };
}

impl Lit {
    /// The variable where `positive`, else its negation. Fails with `BadVariable` where `var` is not from 1 to `MAX_VARS`.
    pub fn new(var: u32, positive: bool) -> Result<Lit, InstFault>
        ensures in_range { OkIff result ((1 ≤ var) × (var ≤ MAX_VARS)) (record { var = var; positive = positive }) }
        ensures refused { IfErr result (λ fault. fault ≡ InstFault.BadVariable) }
    {
        if var == 0 || var > MAX_VARS {
            return Err(InstFault::BadVariable);
        }
        Ok(Lit::of(var, positive))
    }

    /// The variable, from 1 to `MAX_VARS`.
    pub fn var(self) -> u32
        ensures value { result ≡ self.var }
        ensures in_range { (1 ≤ result) × (result ≤ MAX_VARS) }
    {
        self.code / 2
    }

    /// Whether the literal is the variable itself, and not its negation.
    pub fn positive(self) -> bool
        ensures { result ≡ self.positive }
    {
        self.code % 2 == 1
    }

    /// The literal of the same variable with the other sign.
    pub fn negate(self) -> Lit
        ensures same_variable { result.var ≡ self.var }
        ensures other_sign { result.positive ≡ not self.positive }
    {
        Lit::of(self.var(), !self.positive())
    }

    fn of(var: u32, positive: bool) -> Lit
        requires { (1 ≤ var) × (var ≤ MAX_VARS) }
        ensures { result ≡ record { var = var; positive = positive } }
    {
        Lit {
            code: 2 * var + u32::from(positive),
        }
    }
}

/// The literal `x1`, with which a small vector fills its unused places.
impl Default for Lit {
    ghost is_default = { λ l. (l.var ≡ 1) × (l.positive ≡ true) };

    fn default() -> Lit {
        Lit::of(1, true)
    }
}
