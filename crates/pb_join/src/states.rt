//! What became of a piece.

/// What became of a piece: whether there is a report of it, and whether that claims to be its answer.
#[derive(Clone, Copy, PartialEq, Eq)]
pub enum PieceState {
    /// No report is of this piece.
    Missing,
    /// Its report does not claim to be the answer: it is `SATISFIABLE` beside an objective, `UNKNOWN` or `UNSUPPORTED`.
    Cut,
    /// Its report claims to be the answer.
    Done,
}
