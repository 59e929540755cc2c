//! Keeping the reason why a call to the system failed, for the line that tells of it.
ghost use Rattle.std.specs.Prelude.{◌≡◌};

use std::cell::Cell;
use std::io::{self, Error, Read, Write};

/// The last fault that was noted.
#[derive(Drop)]
pub struct LastFault {
    fault: Cell<Option<Error>>,
}

impl LastFault {
    /// A place where no fault was noted yet.
    pub fn new() -> LastFault {
        LastFault {
            fault: Cell::new(None),
        }
    }

    /// Notes a fault in place of the one before.
    pub fn note(&self, fault: Error) {
        self.fault.set(Some(fault));
    }

    /// The fault, if one was noted.
    pub fn get(&self) -> Option<Error> {
        self.fault.get()
    }
}

/// A reader or writer whose faults are noted.
#[derive(Drop)]
pub struct Noting<'a, T> {
    inner: T,
    faults: &'a LastFault,
}

impl<'a, T> Noting<'a, T> {
    /// This reader or writer, whose faults are noted here.
    pub fn new(inner: T, faults: &'a LastFault) -> Noting<'a, T>
        ensures { result.inner ≡ inner }
    {
        Noting { inner, faults }
    }
}

impl<T: Read> Read for Noting<'_, T> {
    ghost remaining = { λ noting. T.remaining noting.inner };

    fn read(&mut self, buf: &mut [u8]) -> io::Result<usize> {
        let outcome = self.inner.read(buf);
        if let Err(fault) = &outcome {
            self.faults.note(*fault);
        }
        outcome
    }
}

impl<T: Write> Write for Noting<'_, T> {
    ghost contents = { λ noting. T.contents noting.inner };

    fn write(&mut self, buf: &[u8]) -> io::Result<usize> {
        let outcome = self.inner.write(buf);
        if let Err(fault) = &outcome {
            self.faults.note(*fault);
        }
        outcome
    }

    fn flush(&mut self) -> io::Result<()> {
        let outcome = self.inner.flush();
        if let Err(fault) = &outcome {
            self.faults.note(*fault);
        }
        outcome
    }
}
