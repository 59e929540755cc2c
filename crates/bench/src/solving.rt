//! Solves the text as the program does with one worker, and writes the report.

ghost use Rattle.std.specs.Prelude.{◌≡◌, false};

use crate::texts::format_of;
use pb_inst::Workers;
use pb_solve::{Device, Options, run as solve};
use std::alloc::Global;
use std::io::{self, Empty, Write};
use std::thread::Threads;

/// Solves the text.
pub fn run<R: Threads + Sync, W: Write, E: Write>(
    rt: &R,
    alloc: Global,
    text: &[u8],
    out: &mut Device<W>,
    err: &mut E,
) -> io::Result<()>
    requires { out.old.failed ≡ false }
{
    let Ok(workers) = Workers::new(1) else {
        return Ok(());
    };
    let options = Options {
        format: format_of(text),
        workers,
        split: 0,
        nodes: None,
    };
    let input = &mut Device::new(text);
    let no_cubes = None::<&mut Device<Empty>>;
    match solve(rt, alloc, input, no_cubes, options, out) {
        Ok(_) => Ok(()),
        Err(fault) => writeln!(err, "{fault}"),
    }
}
