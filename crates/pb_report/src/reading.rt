//! Reading a report.
//! Source: [OPB]
ghost use Rattle.std.specs.Prelude.{◌≡◌, IfErr, IfOk};
ghost use Rattle.pb_report.specs.Report.{AreNarrow, Claims};
ghost use Rattle.pb_report.specs.declared.claims.Claim.{Claim};

use crate::claims::Claim;
use crate::draft::Draft;
use crate::faults::{ReportFault, ReportKind};
use bstr::ByteSlice;
use pb_read::Format;
use std::alloc::Global;

/// What a report claims of an instance of `vars` variables.
///
/// The report is that of a solver, in the form of the pseudo-Boolean and SAT competitions: lines that begin with `o` and have a
/// number, of which the last counts; one line that begins with `s` and has the status; lines that begin with `v` and have,
/// together, one literal of each variable, `x1` and `-x1` or `~x1` in OPB, `1` and `-1` in DIMACS CNF, where `0` ends them. Lines
/// that begin with `c` are comments. Every other report is refused with its first fault. A report whose lines claim something is
/// accepted, unless memory is refused; the number of an `o` line has at most 128 bits.
pub fn read_report(
    alloc: Global,
    format: Format,
    vars: u32,
    text: &[u8],
) -> Result<Claim, ReportFault>
    ensures claimed { IfOk result (λ claim. Claims format vars text.now claim) }
    ensures accepted { (claim : Claim) → Claims format vars text.now claim → AreNarrow text.now → IfErr result (λ fault. fault.kind ≡ ReportKind.Memory) }
{
    let Ok(mut draft) = Draft::new(alloc, format, vars) else {
        return Err(ReportFault {
            kind: ReportKind::Memory,
            line: 0,
        });
    };
    let mut number: u64 = 0;
    for line in text.lines() {
        number += 1;
        if let Err(kind) = draft.take_line(line, number) {
            return Err(ReportFault { kind, line: number });
        }
    }
    draft.finish(number.max(1))
}
