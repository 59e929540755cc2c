//! Writing the heading of a part's report.
ghost use Rattle.std.specs.Prelude.{◌≡◌, is_err, IfErr, OnOk};
ghost use Rattle.std.specs.Io.KnownBytes.{Appends};
ghost use Rattle.pb_parts.specs.Heading.{part_heading};

use crate::parts::Division;
use crate::putting::{put_numbers, put_part, put_pieces};
use pb_report::{Device, RunFault};
use std::io::Write;

/// Writes what a part's report says before its claim: the number of the task, how the instance was divided, and which
/// pieces the task has done and which were cut. The caller writes the lines of the claim after it. It takes no memory, and gives
/// the device a few bytes at a time. A fault is `Write`, where the device has failed.
pub fn report_heading<W: Write>(
    out: &mut Device<W>,
    division: &Division,
    task: u32,
    done: &[u32],
    cut: &[u32],
) -> Result<(), RunFault>
    ensures written { OnOk result (Appends (W.contents out.old.held) (W.contents out.new.held) (part_heading division.now task done.now cut.now)) }
    ensures fault { IfErr result (λ fault. fault ≡ RunFault.Write) }
    ensures failed { out.new.failed ≡ is_err result }
{
    put_part(out, task, division.tasks, &division.instance)?;
    put_pieces(out, division.pieces, division.split, &division.cubes)?;
    put_numbers(out, b"c done", done)?;
    put_numbers(out, b"c cut", cut)
}
