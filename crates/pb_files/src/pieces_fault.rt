//! Why the pieces were not written.
ghost use Rattle.std.specs.Prelude.{◌≡◌};

use pb_hint::hint_on_name;
use pb_read::ReadFault;
use pb_write::WriteFault;
use std::alloc::AllocError;
use std::io;
use std::io::ErrorKind;
use thiserror::Error;

/// What keeps pieces from being written, with the name of the file where it was met, and for inputs with what may help.
#[derive(Debug, Drop, Error)]
pub enum PiecesFault<'a> {
    /// The file cannot be opened or read, for this reason.
    #[error("cannot read {0}: {1}")]
    CannotRead(&'a str, io::Error),
    /// The file is refused.
    #[error("{0}: {1}")]
    Refused(&'a str, ReadFault, Option<String>),
    /// The split is over more variables than the instance has.
    #[error("the split is over more variables than there are")]
    BadSplit(Option<String>),
    /// All cubes together are more than there may be.
    #[error("there are too many cubes")]
    TooManyCubes(Option<String>),
    /// The folder cannot be made or looked into, for this reason.
    #[error("cannot use {0}: {1}")]
    CannotUse(&'a str, io::Error),
    /// The folder holds an index.
    #[error("{0} holds an index already: remove it, or name another folder")]
    HoldsIndex(&'a str),
    /// The file cannot be made or written, for this reason.
    #[error("cannot write {0}: {1}")]
    CannotWrite(String, io::Error),
    /// The file's piece has no text.
    #[error("{0}: {1}")]
    HasNoText(String, WriteFault),
    /// Memory was refused.
    #[error("out of memory")]
    Memory,
}

impl PiecesFault<'_> {
    /// What may help with the input, if there is such a hint.
    pub fn hint(&self) -> Option<&str> {
        if let PiecesFault::CannotRead(name, _) = self {
            return hint_on_name(name);
        }
        match self {
            PiecesFault::CannotWrite(_, error) if error.kind() == ErrorKind::AlreadyExists => {
                Some("remove the pieces that the folder holds, or name another folder")
            }
            PiecesFault::Refused(_, _, hint)
            | PiecesFault::BadSplit(hint)
            | PiecesFault::TooManyCubes(hint) => hint.as_deref(),
            _ => None,
        }
    }
}

impl From<AllocError> for PiecesFault<'_> {
    fn from(_: AllocError) -> Self {
        PiecesFault::Memory
    }
}
