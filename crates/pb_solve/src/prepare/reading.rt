//! Reading a device to its end.
ghost use Rattle.std.specs.Prelude.{◌≡◌, ℕ, List, Bool, false, Option, Some, None, IfOk, IfSome, vec_items};
ghost use Rattle.std.specs.Option.{option_map};
ghost use Rattle.pb_solve.specs.Reading.{is_fault, TellsText};

use pb_report::Device;
use std::alloc::Global;
use std::io::Read;

/// Why a device was not read to its end.
pub(crate) enum ReadStop {
    Fault,
    Memory,
}

const ROOM: usize = 32_768;

/// All that a device gives. The library's `read_to_end` tries again after `Interrupted`; here any fault of the device ends the
/// reading, so a run that tells of a fault really had one.
pub(crate) fn read_all<R: Read>(alloc: Global, input: &mut Device<R>) -> Result<Vec<u8>, ReadStop>
    requires { input.old.failed ≡ false }
    ensures text { IfOk result (λ text. IfSome (R.remaining input.old.held) (λ t. text.items ≡ t)) }
    ensures failed { input.new.failed ≡ is_fault result }
{
    let mut text = Vec::new(alloc);
    let mut buf = [0u8; ROOM];
    'reading: loop {
        match input.read(&mut buf) {
            Err(_) => return Err(ReadStop::Fault),
            Ok(0) => return Ok(text),
            Ok(n) => {
                if text.extend_from_slice(&buf[..n]).is_err() {
                    return Err(ReadStop::Memory);
                }
            }
        }
    }
}

/// The cube file of a run, or the fact that there is none.
pub(crate) trait CubeFile {
    // Nothing where there is no file, else its text where the reader tells it.
    ghost text_left: { Self → Option (Option (List ℕ)) };

    ghost has_failed: { Self → Bool };

    fn read_text(&mut self, alloc: Global) -> Result<Option<Vec<u8>>, ReadStop>
        requires { has_failed self.old ≡ false }
        ensures text { IfOk result (λ text. TellsText (text_left self.old) (option_map vec_items text)) }
        ensures failed { has_failed self.new ≡ is_fault result };
}

impl<R: Read> CubeFile for Device<R> {
    ghost text_left = { λ device. Some (R.remaining device.held) };

    ghost has_failed = { λ device. device.failed };

    fn read_text(&mut self, alloc: Global) -> Result<Option<Vec<u8>>, ReadStop> {
        match read_all(alloc, self) {
            Ok(text) => Ok(Some(text)),
            Err(stop) => Err(stop),
        }
    }
}

/// No cube file.
#[derive(Clone, Copy)]
pub(crate) struct NoCubeFile;

impl CubeFile for NoCubeFile {
    ghost text_left = { λ _. None };

    ghost has_failed = { λ _. false };

    fn read_text(&mut self, _: Global) -> Result<Option<Vec<u8>>, ReadStop> {
        Ok(None)
    }
}
