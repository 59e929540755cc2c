//! Readers and writers that note their faults.
ghost use Rattle.std.specs.Prelude.{◌≡◌, ◌<◌, ◌≤◌, length, false, IfOk};
ghost use Rattle.std.specs.Io.{ReadsAtMost, WritesAtMost};
ghost use Rattle.std.specs.Io.KnownBytes.{Keeps, ReadConsumes, WriteAppends};
ghost use Rattle.pb_report.specs.Device.{NotesFault};

use std::io;
use std::io::{Error, ErrorKind, Read, Write};
use std::marker::Model;

/// A reader or writer, and whether one of its calls has failed.
#[derive(Drop)]
pub struct Device<T> {
    inner: T,
    has_failed: bool,
}

impl<T> Model for Device<T> {
    ghost use Rattle.pb_report.specs.Device.{Device as Held, device_code};

    ghost Value = { Held T };

    ghost coded = { device_code T.code };

    ghost view = { λ d. record { held = d.inner; failed = d.has_failed } };
}

impl<T> Device<T> {
    pub fn new(inner: T) -> Device<T>
        ensures held { result.held ≡ inner }
        ensures unfailed { result.failed ≡ false }
    {
        Device {
            inner,
            has_failed: false,
        }
    }

    /// The reader or writer itself.
    pub fn into_inner(self) -> T
        ensures { result ≡ self.held }
    {
        let Device {
            inner,
            has_failed: _,
        } = self;
        inner
    }

    /// Whether a call has failed.
    pub fn failed(&self) -> bool
        ensures { result ≡ self.now.failed }
    {
        self.has_failed
    }
}

impl<T: Read> Read for Device<T> {
    ghost remaining = { λ d. T.remaining d.held };

    fn read(&mut self, buf: &mut [u8]) -> io::Result<usize>
        ensures bound { ReadsAtMost result buf.new }
        ensures bytes { ReadConsumes (T.remaining self.old.held) (T.remaining self.new.held) result buf.new }
        ensures fault { NotesFault self.old self.new result }
    {
        let outcome = self.inner.read(buf);
        if outcome.is_err() {
            self.has_failed = true;
        }
        outcome
    }
}

impl<T: Write> Write for Device<T> {
    ghost contents = { λ d. T.contents d.held };

    // A write that takes none of some bytes counts as a fault, or else a caller that writes the rest would never end.
    fn write(&mut self, buf: &[u8]) -> io::Result<usize>
        ensures bound { WritesAtMost result buf.now }
        ensures bytes { WriteAppends (T.contents self.old.held) (T.contents self.new.held) result buf.now }
        ensures progress { IfOk result (λ n. 0 < length buf.now → 0 < n) }
        ensures fault { NotesFault self.old self.new result }
    {
        let outcome = match self.inner.write(buf) {
            Ok(0) if !buf.is_empty() => Err(Error::from(ErrorKind::WriteZero)),
            outcome => outcome,
        };
        if outcome.is_err() {
            self.has_failed = true;
        }
        outcome
    }

    fn flush(&mut self) -> io::Result<()>
        ensures bytes { Keeps (T.contents self.old.held) (T.contents self.new.held) }
        ensures fault { NotesFault self.old self.new result }
    {
        let outcome = self.inner.flush();
        if outcome.is_err() {
            self.has_failed = true;
        }
        outcome
    }
}
