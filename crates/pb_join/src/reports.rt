//! The reports of pieces.

use pb_report::Claim;

/// What the report of the piece with this number, from 0, claims.
#[derive(Drop)]
pub struct PieceReport {
    pub number: u32,
    pub claim: Claim,
}
