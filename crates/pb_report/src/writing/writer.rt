//! A report that is being written, with no memory taken.
ghost use Rattle.std.specs.Prelude.{◌≡◌, [], is_err, IfErr, IfOk};
ghost use Rattle.pb_report.specs.Sending.{Adds, Writes};

use crate::device::Device;
use crate::ends::RunFault;
use crate::statuses::Status;
use crate::writing::chunk::{Chunk, ROOM};
use std::io::Write;

/// A report on its way to a device. Some of its bytes wait, so that the device gets few writes. Once the device has failed
/// nothing more is written, and the device tells the fault. Only `finish` ends it: it cannot be dropped.
pub(crate) struct Report<'d, W> {
    out: &'d mut Device<W>,
    waiting: Chunk,
}

impl<'d, W: Write> Report<'d, W> {
    /// A report to which nothing is added yet.
    pub(crate) fn new(out: &'d mut Device<W>) -> Report<'d, W>
        ensures same_device { result.out.ghost_name ≡ out.entry.ghost_name }
        ensures unwritten { result.out.now ≡ out.old }
        ensures empty { result.waiting ≡ [] }
    {
        Report {
            out,
            waiting: Chunk::new(),
        }
    }

    /// Adds bytes behind those that wait. Where there is no room for them it writes first.
    pub(crate) fn put(&mut self, bytes: &[u8])
        ensures { Adds W.contents self.old self.new bytes.now }
    {
        if bytes.len() > self.waiting.room() {
            self.send();
            if bytes.len() > ROOM {
                return write_out(self.out, bytes);
            }
        }
        self.waiting.keep(bytes);
    }

    // Writes what waits.
    fn send(&mut self)
        ensures same_device { self.new.out.ghost_name ≡ self.old.out.ghost_name }
        ensures emptied { self.new.waiting ≡ [] }
        ensures written { Writes W.contents self.old.out.now self.new.out.now self.old.waiting }
    {
        write_out(self.out, self.waiting.bytes());
        self.waiting.clear();
    }

    /// Writes what waits, and flushes. The status is that of the report, unless the device has failed.
    pub(crate) fn finish(self, status: Status) -> Result<Status, RunFault>
        ensures status { IfOk result (λ ended. ended ≡ status) }
        ensures written { Writes W.contents self.entry.out.now self.exit.0.now self.entry.waiting }
        ensures fault { IfErr result (λ fault. fault ≡ RunFault.Write) }
        ensures failed { self.exit.0.now.failed ≡ is_err result }
    {
        let Report { out, waiting } = self;
        write_out(out, waiting.bytes());
        let _ = out.flush();
        if out.failed() {
            Err(RunFault::Write)
        } else {
            Ok(status)
        }
    }
}

/// Writes all of the bytes, unless the device has failed or fails.
fn write_out<W: Write>(out: &mut Device<W>, bytes: &[u8])
    ensures { Writes W.contents out.old out.new bytes.now }
{
    let mut rest = bytes;
    while !out.failed() && !rest.is_empty() {
        match out.write(rest) {
            Ok(taken) => rest = &rest[taken..],
            Err(_) => return,
        }
    }
}
