//! What follows from the rule that a board keeps between any two steps. It has no code: the contract is the theorem.

ghost use Rattle.pb_board.specs.Laws.{ClaimsOfTheRest, LeastWordIsLeast, NextNumberIsNew, OffersOfTheRest};

/// The number that is drawn next was drawn by no seat; the least word is the least of the top key and all offers; and
/// the rule holds of the seats that are left where others were dropped.
pub fn rule_laws()
    ensures next_number { NextNumberIsNew }
    ensures least_word { LeastWordIsLeast }
    ensures claims_of_the_rest { ClaimsOfTheRest }
    ensures offers_of_the_rest { OffersOfTheRest }
{}
