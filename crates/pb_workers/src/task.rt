//! Tasks, among which the pieces of an instance are dealt.
ghost use Rattle.std.specs.Prelude.{◌≡◌, ◌<◌, ◌≤◌, [], ◌∷◌, IfNone, IfSome};
ghost use Rattle.pb_workers.specs.Dealing.{has_claims, is_dealt, numbers_for, piece_of};

use std::marker::Model;

/// The most pieces of which a task claims others. A worker draws two numbers for each piece and one more, and fewer than 2^32.
const MOST_CLAIMED: u32 = 2_147_483_647;

/// One of several tasks, among which the pieces of an instance are dealt in turn: piece 0 to the first, piece 1 to the second,
/// and so on from the first again. So adjacent pieces, which are often about as hard as one another, go to different tasks.
///
/// A task may also claim pieces. Then it searches those that it is dealt and that no other task has claimed, and after these the
/// ones that others are dealt and that nobody has claimed.
#[derive(Clone, Copy, Debug, PartialEq, Eq)]
pub struct Task {
    number: u32,
    tasks: u32,
    claims: bool,
}

impl Model for Task {
    ghost use Rattle.std.specs.Prelude.{◌<◌};
    ghost use Rattle.pb_workers.specs.Dealing.{TaskView};

    ghost Value = { TaskView };

    ghost view = { λ t. record { number = t.number; tasks = t.tasks; claims = t.claims } };

    ghost invariant = { λ t. t.number < t.tasks };

    ghost inverse = { λ t. record { number = t.number; tasks = t.tasks; claims = t.claims } };
}

impl Task {
    /// The task of this number, from 0 on, among `tasks` tasks, which may claim pieces or not. None where `number` is not below
    /// `tasks`.
    pub fn new(number: u32, tasks: u32, claims: bool) -> Option<Task>
        ensures some { IfSome result (λ task. (task ≡ record { number = number; tasks = tasks; claims = claims }) × (number < tasks)) }
        ensures none { IfNone result (tasks ≤ number) }
    {
        if number < tasks {
            Some(Task {
                number,
                tasks,
                claims,
            })
        } else {
            None
        }
    }

    /// The task's number.
    pub fn number(self) -> u32
        ensures value { result ≡ self.number }
        ensures below { result < self.tasks }
    {
        self.number
    }

    /// The number of tasks.
    pub fn tasks(self) -> u32
        ensures { result ≡ self.tasks }
    {
        self.tasks
    }

    /// How many of `pieces` pieces the task is dealt.
    pub fn share_of(self, pieces: u32) -> u32
        ensures { result ≤ pieces }
    {
        if self.number < pieces {
            (pieces - 1 - self.number) / self.tasks + 1
        } else {
            0
        }
    }
}

/// Whether the task is dealt the piece of this number. Without a task every piece is.
pub(crate) fn has_piece(task: &Option<Task>, piece: u32) -> bool
    ensures { result ≡ is_dealt task.now piece }
{
    match task {
        Some(task) => piece % task.tasks == task.number,
        None => true,
    }
}

/// Whether the task claims pieces beyond those that it is dealt. Without a task nobody else does.
pub(crate) fn claims_pieces(task: &Option<Task>) -> bool
    ensures { result ≡ has_claims task.now }
{
    match task {
        Some(task) => task.claims,
        None => false,
    }
}

/// As many numbers as stand for pieces: those below `count` for the pieces that a task is dealt, and where it claims others as many
/// again. With more pieces than a worker can draw numbers for there are no others.
pub(crate) fn numbers_of(task: &Option<Task>, count: u32) -> u32
    ensures { result ≡ numbers_for task.now count }
{
    if claims_pieces(task) && count <= MOST_CLAIMED {
        2 * count
    } else {
        count
    }
}

/// The piece that a number below those of `numbers_of` stands for, where the task may search it. The pieces of other tasks come
/// after its own, the last one first, since their tasks come to that one last.
pub(crate) fn piece_at(task: &Option<Task>, count: u32, number: u32) -> Option<u32>
    requires { number < numbers_for task.now count }
    ensures some { IfSome result (λ piece. (piece < count) × (piece_of task.now count number ≡ piece ∷ [])) }
    ensures none { IfNone result (piece_of task.now count number ≡ []) }
{
    if number < count {
        return if has_piece(task, number) {
            Some(number)
        } else {
            None
        };
    }
    let piece = 2 * count - (number + 1);
    if has_piece(task, piece) {
        None
    } else {
        Some(piece)
    }
}
