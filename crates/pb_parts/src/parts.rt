//! What a part's report says.
ghost use Rattle.std.specs.Prelude.{◌≡◌};

use pb_report::Claim;

/// How an instance was divided among tasks. Piece n, from 0, is dealt to the task n modulo the number of tasks.
#[derive(Clone, Copy, Debug, PartialEq, Eq)]
pub struct Division {
    /// The SHA-256 of the instance's bytes.
    pub instance: [u8; 32],
    /// The number of pieces.
    pub pieces: u32,
    /// The number of variables that the instance was split over.
    pub split: u32,
    /// The SHA-256 of the cube file's bytes, if there was a cube file.
    pub cubes: Option<[u8; 32]>,
    /// The number of tasks.
    pub tasks: u32,
}

/// What a part's report says before its claim.
#[derive(Drop)]
pub struct Heading {
    pub division: Division,
    /// The number of the task, from 0.
    pub task: u32,
    /// The pieces that the task searched to their end, in rising order, whether they are dealt to it or not.
    pub done: Vec<u32>,
    /// The pieces whose search by the task was cut, in rising order.
    pub cut: Vec<u32>,
}

/// What a part's report says.
#[derive(Drop)]
pub struct PartReport {
    pub heading: Heading,
    /// What is claimed of the pieces that were searched.
    pub claim: Claim,
}
