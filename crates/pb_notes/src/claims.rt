//! One worker's claims of pieces.
ghost use Rattle.std.specs.Prelude.{◌≡◌, ◌≤◌, IfOk};

use crate::claim_text::{CLAIM_ROOM, claimed_by, write_claim};
use crate::claimant::{Block, Division};
use crate::notes::Notes;
use pb_inst::Memory;
use std::alloc::Global;
use std::marker::Model;

/// Which blocks of one task's pieces were asked for: a bit for each block.
#[derive(Clone, Copy)]
struct Asked {
    /// The blocks that this task has.
    ours: u64,
    /// The other ones.
    others: u64,
}

/// The claims of a worker of a task. All tasks claim blocks of pieces in one place, before they search them, so that a task that is
/// done with its own pieces takes over those that nobody has begun. Nothing there is trusted: what is no claim of another task on
/// this division keeps no task from the pieces that it is dealt. So what lies there costs work, or leaves pieces to nobody, which
/// no report then names.
///
/// It takes all its memory at the start. Contracts see the division.
#[derive(Drop)]
pub struct Claims<'n, N> {
    notes: &'n N,
    division: Division,
    task: u32,
    worker: u32,
    /// The claim of this task.
    text: Vec<u8>,
    /// Room for a claim that is read, and one byte more.
    room: Vec<u8>,
    /// Room for a claim of another task, which is compared with what is read.
    other: Vec<u8>,
    /// What is known of the blocks of each task.
    asked: Vec<Asked>,
}

impl<'n, N> Model for Claims<'n, N> {
    ghost use Rattle.std.specs.Prelude.{◌≤◌, vec_capacity};
    ghost use Rattle.pb_notes.specs.declared.claimant.Division.{Division};

    ghost Value = { Division };

    ghost view = { λ c. c.division };

    ghost invariant = { λ c. 226 ≤ vec_capacity c.other };
}

impl<'n, N: Notes> Claims<'n, N> {
    /// The claims of this worker of this task. Fails where memory is refused.
    pub fn new(
        alloc: Global,
        notes: &'n N,
        division: Division,
        task: u32,
        worker: u32,
    ) -> Result<Claims<'n, N>, Memory>
        ensures { IfOk result (λ claims. claims ≡ division) }
    {
        let mut text = Vec::with_capacity(alloc, CLAIM_ROOM)?;
        write_claim(&mut text, &division, task);
        let other = Vec::with_capacity(alloc, CLAIM_ROOM)?;
        let room = vec![in alloc; 0u8; CLAIM_ROOM + 1]?;
        let none = Asked { ours: 0, others: 0 };
        let asked = vec![in alloc; none; division.tasks as usize]?;
        Ok(Claims {
            notes,
            division,
            task,
            worker,
            text,
            room,
            other,
            asked,
        })
    }

    /// Whether the task may search a piece: one that it claims here, or has claimed before. It may search one that it is dealt
    /// unless another task has claimed that, so that what lies there by mistake leaves no piece to nobody. The place is asked once
    /// for each block.
    pub fn may_search(&mut self, piece: u32) -> bool
        ensures { self.new ≡ self.old }
    {
        let block = self.division.block_of(piece);
        if let Some(known) = self.known(block) {
            return known;
        }
        let is_ours = self.is_ours(block);
        self.note(block, is_ours);
        is_ours
    }

    /// What is known of a block.
    fn known(&self, block: Block) -> Option<bool> {
        let asked = self.asked.get(block.task as usize)?;
        let bit = bit_of(block);
        if asked.ours & bit != 0 {
            Some(true)
        } else if asked.others & bit != 0 {
            Some(false)
        } else {
            None
        }
    }

    /// Keeps what is known of a block.
    fn note(&mut self, block: Block, is_ours: bool)
        ensures { self.new ≡ self.old }
    {
        let bit = bit_of(block);
        if let Some(asked) = self.asked.get_mut(block.task as usize) {
            if is_ours {
                asked.ours |= bit;
            } else {
                asked.others |= bit;
            }
        }
    }

    /// Asks for a block.
    fn is_ours(&mut self, block: Block) -> bool
        ensures { self.new ≡ self.old }
    {
        let is_dealt = block.task == self.task;
        match self
            .notes
            .claim(self.worker, block, &self.text, &mut self.room)
        {
            Ok(None) => true,
            Ok(Some(len)) => self.is_ours_by(block, len),
            Err(_) => is_dealt,
        }
    }

    /// Whether the task has a block by the claim on it, of `len` bytes, that was read.
    fn is_ours_by(&mut self, block: Block, len: usize) -> bool
        ensures { self.new ≡ self.old }
    {
        let is_dealt = block.task == self.task;
        let text = &self.room[..len.min(self.room.len())];
        match claimed_by(&self.division, text, &mut self.other) {
            Some(task) if task == self.task => true,
            Some(task) => {
                if task == block.task {
                    self.pass_over_earlier(block);
                }
                false
            }
            // A claim that is only begun is neither foreign nor anybody's. Whoever makes it goes on to search the block.
            None if self.text.starts_with(text) => is_dealt,
            None => {
                self.notes.tell_foreign(block);
                is_dealt
            }
        }
    }

    /// A task claims its own blocks upwards, and others claim them downwards. So where a task has claimed one itself it also has
    /// those before, which no other need ask for.
    fn pass_over_earlier(&mut self, block: Block)
        ensures { self.new ≡ self.old }
    {
        let earlier = bit_of(block) - 1;
        if let Some(asked) = self.asked.get_mut(block.task as usize) {
            asked.others |= earlier & !asked.ours;
        }
    }
}

/// The bit of a block.
fn bit_of(block: Block) -> u64
    ensures { 1 ≤ result }
{
    1 << (block.number % 64)
}
