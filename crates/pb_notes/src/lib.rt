//! Tasks on many machines tell each other their best assignments as notes in a folder, and claim pieces there. Nothing that is
//! read is trusted.
#![tactic(auto)]

mod claim_text;
mod claimant;
mod claims;
mod exchange;
mod folder;
mod notes;
mod reading;
mod writing;

pub use claimant::{Block, Division};
pub use claims::Claims;
pub use exchange::{Exchange, looks_apart};
pub use folder::Folder;
pub use notes::Notes;
pub use reading::{Note, read_note};
pub use writing::{note_room, write_note};
