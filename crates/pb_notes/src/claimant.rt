//! Who claims pieces, and which.

/// How an instance was divided among tasks. Claims of another division are not those of its pieces.
#[derive(Clone, Copy, Debug, PartialEq, Eq)]
pub struct Division {
    /// The SHA-256 of the instance's text.
    pub instance: [u8; 32],
    /// The number of pieces.
    pub pieces: u32,
    /// The number of variables that the instance was split over.
    pub split: u32,
    /// The SHA-256 of the cube file's text, if there was a cube file.
    pub cubes: Option<[u8; 32]>,
    /// The number of tasks that have a piece.
    pub tasks: u32,
}

/// Successive pieces of those that one task is dealt, which are claimed together.
#[derive(Clone, Copy, Debug, PartialEq, Eq)]
pub struct Block {
    /// The task that is dealt the pieces.
    pub task: u32,
    /// The block's number among those of the task, from 0 on and below 64.
    pub number: u32,
}

/// The most blocks of one task, and thus the most claims of its pieces, however many these are.
pub(crate) const MOST_BLOCKS: u32 = 64;

impl Division {
    /// The block in which a piece lies. The piece is dealt to the task of its number modulo the tasks. All tasks have blocks of one
    /// length, which thus depends on the division alone.
    pub(crate) fn block_of(&self, piece: u32) -> Block {
        let tasks = self.tasks.max(1);
        let of_a_task = self.pieces.div_ceil(tasks);
        let of_a_block = of_a_task.div_ceil(MOST_BLOCKS).max(1);
        Block {
            task: piece % tasks,
            number: piece / tasks / of_a_block % MOST_BLOCKS,
        }
    }
}
