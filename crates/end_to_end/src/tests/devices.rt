//! A reader and a writer that fail or that behave oddly.

use std::io::{self, Error, ErrorKind, Read, Write};

pub const KINDS: [ErrorKind; 5] = [
    ErrorKind::Other,
    ErrorKind::Interrupted,
    ErrorKind::WouldBlock,
    ErrorKind::UnexpectedEof,
    ErrorKind::OutOfMemory,
];

/// How many bytes a device moves a call at most, and after how many calls each one fails, with a fault of this kind.
#[derive(Clone, Copy)]
pub struct Limits {
    pub step: usize,
    pub calls_left: usize,
    pub kind: ErrorKind,
}

pub const UNLIMITED: Limits = Limits {
    step: usize::MAX,
    calls_left: usize::MAX,
    kind: ErrorKind::Other,
};

impl Limits {
    fn turn(&mut self) -> io::Result<()> {
        if self.calls_left == 0 {
            return Err(Error::from(self.kind));
        }
        self.calls_left -= 1;
        Ok(())
    }
}

/// Gives a text, says that it has ended, and then gives more.
#[derive(Clone, Copy)]
pub struct Source<'t> {
    pub text: &'t [u8],
    pub more: &'t [u8],
    pub limits: Limits,
}

impl Read for Source<'_> {
    fn read(&mut self, buf: &mut [u8]) -> io::Result<usize> {
        self.limits.turn()?;
        let len = self.limits.step.min(buf.len());
        let given = self.text.read(&mut buf[..len])?;
        if given == 0 {
            self.text = self.more;
        }
        Ok(given)
    }
}

/// Has room for `room` bytes, keeps them back, and lets go of them at a flush.
#[derive(Drop)]
pub struct Sink {
    pub limits: Limits,
    pub room: usize,
    pub kept: Vec<u8>,
    pub flushed: Vec<u8>,
}

impl Sink {
    /// Whether it let go of just these bytes, and keeps back none.
    pub fn has_flushed(&self, bytes: &[u8]) -> bool {
        self.kept.is_empty() && self.flushed.as_slice() == bytes
    }
}

impl Write for Sink {
    fn write(&mut self, buf: &[u8]) -> io::Result<usize> {
        self.limits.turn()?;
        let len = self.limits.step.min(self.room).min(buf.len());
        self.kept.extend_from_slice(&buf[..len])?;
        self.room -= len;
        Ok(len)
    }

    fn flush(&mut self) -> io::Result<()> {
        self.limits.turn()?;
        self.flushed.append(&mut self.kept)?;
        Ok(())
    }
}
