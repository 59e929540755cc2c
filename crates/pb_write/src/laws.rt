//! What the instance of a piece means, and an instance as it is written. It has no code: the contracts are the theorems.

ghost use Rattle.pb_write.specs.Laws.{FeasibleInPiece, CostInPiece, VariablesInPiece, NeverAtMost, FeasibleAsWritten, CostAsWritten, VariablesAsWritten};

/// The instance of a piece allows the assignments of the whole instance that lie in the piece, each at its cost in the whole
/// instance, over the same variables.
pub fn piece_laws()
    ensures feasible { FeasibleInPiece }
    ensures cost { CostInPiece }
    ensures variables { VariablesInPiece }
{}

/// What is written has no `<=`, and allows the assignments that the instance allows, each at its cost in the instance, over the
/// same variables.
pub fn written_laws()
    ensures never_at_most { NeverAtMost }
    ensures feasible { FeasibleAsWritten }
    ensures cost { CostAsWritten }
    ensures variables { VariablesAsWritten }
{}
