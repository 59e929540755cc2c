//! The reports of a run. Writing one takes no memory.
//! Source: [OPB]
ghost use Rattle.std.specs.Prelude.{◌≡◌, ◌++◌, false, is_err, IfOk, IfErr, OnOk};
ghost use Rattle.std.specs.Io.KnownBytes.{Appends};
ghost use Rattle.pb_report.specs.Written.{line, cost_line, value_line, refusal_report, memory_report, infeasible_report, unknown_report, satisfiable_report, attained_report, optimum_report};

mod chunk;
mod lines;
mod writer;

use crate::device::Device;
use crate::ends::{Refusal, RunFault};
use crate::statuses::Status;
use pb_inst::{Assignment, Number};
use pb_read::Format;
use std::io::Write;
use writer::Report;

/// Reports that something was refused.
pub fn report_refusal<W: Write>(out: &mut Device<W>, refusal: Refusal) -> Result<Status, RunFault>
    ensures status { IfOk result (λ status. status ≡ Status.Unsupported) }
    ensures written { OnOk result (Appends (W.contents out.old.held) (W.contents out.new.held) (refusal_report refusal)) }
    ensures fault { IfErr result (λ fault. fault ≡ RunFault.Write) }
    ensures failed { out.new.failed ≡ is_err result }
{
    let mut report = Report::new(out);
    report.put_refusal(refusal);
    report.put_line(b"s UNSUPPORTED");
    report.finish(Status::Unsupported)
}

/// Reports that memory ran out before the answer was known: `c refused: Memory` and `s UNKNOWN`. Writing it takes no memory.
///
/// A caller that runs out of memory before `run` ends with this report too. A fault is `Write`, where the device has failed.
pub fn report_memory<W: Write>(out: &mut Device<W>) -> Result<Status, RunFault>
    requires { out.old.failed ≡ false }
    ensures status { IfOk result (λ status. status ≡ Status.Unknown) }
    ensures written { OnOk result (Appends (W.contents out.old.held) (W.contents out.new.held) memory_report) }
    ensures fault { IfErr result (λ fault. fault ≡ RunFault.Write) }
    ensures failed { out.new.failed ≡ is_err result }
{
    let mut report = Report::new(out);
    report.put_line(b"c refused: Memory");
    report.put_line(b"s UNKNOWN");
    report.finish(Status::Unknown)
}

/// Reports that no assignment meets every constraint: `s UNSATISFIABLE`. A fault is `Write`, where the device has failed.
pub fn report_infeasible<W: Write>(out: &mut Device<W>) -> Result<Status, RunFault>
    ensures status { IfOk result (λ status. status ≡ Status.Unsatisfiable) }
    ensures written { OnOk result (Appends (W.contents out.old.held) (W.contents out.new.held) infeasible_report) }
    ensures fault { IfErr result (λ fault. fault ≡ RunFault.Write) }
    ensures failed { out.new.failed ≡ is_err result }
{
    let mut report = Report::new(out);
    report.put_line(b"s UNSATISFIABLE");
    report.finish(Status::Unsatisfiable)
}

/// Reports an assignment of an instance without an objective, the least one or the best that was found: `s SATISFIABLE` and the
/// `v` line. A fault is `Write`, where the device has failed.
pub fn report_satisfiable<W: Write>(
    out: &mut Device<W>,
    format: Format,
    values: &Assignment,
) -> Result<Status, RunFault>
    ensures status { IfOk result (λ status. status ≡ Status.Satisfiable) }
    ensures written { OnOk result (Appends (W.contents out.old.held) (W.contents out.new.held) (satisfiable_report format values.now)) }
    ensures fault { IfErr result (λ fault. fault ≡ RunFault.Write) }
    ensures failed { out.new.failed ≡ is_err result }
{
    let mut report = Report::new(out);
    report.put_line(b"s SATISFIABLE");
    report.put_values(format, values);
    report.finish(Status::Satisfiable)
}

/// Reports the least assignment and its cost: the `o` line, `s OPTIMUM FOUND` and the `v` line. A fault is `Write`, where the
/// device has failed.
pub fn report_optimum<W: Write>(
    out: &mut Device<W>,
    format: Format,
    cost: Number,
    values: &Assignment,
) -> Result<Status, RunFault>
    ensures status { IfOk result (λ status. status ≡ Status.Optimum) }
    ensures written { OnOk result (Appends (W.contents out.old.held) (W.contents out.new.held) (optimum_report format cost values.now)) }
    ensures fault { IfErr result (λ fault. fault ≡ RunFault.Write) }
    ensures failed { out.new.failed ≡ is_err result }
{
    report_with_cost(
        out,
        format,
        cost,
        b"s OPTIMUM FOUND",
        values,
        Status::Optimum,
    )
}

/// Reports an assignment that was found, and its cost: the `o` line, `s SATISFIABLE` and the `v` line. The report does not say
/// that the assignment is least. A fault is `Write`, where the device has failed.
pub fn report_attained<W: Write>(
    out: &mut Device<W>,
    format: Format,
    cost: Number,
    values: &Assignment,
) -> Result<Status, RunFault>
    ensures status { IfOk result (λ status. status ≡ Status.Satisfiable) }
    ensures written { OnOk result (Appends (W.contents out.old.held) (W.contents out.new.held) (attained_report format cost values.now)) }
    ensures fault { IfErr result (λ fault. fault ≡ RunFault.Write) }
    ensures failed { out.new.failed ≡ is_err result }
{
    report_with_cost(
        out,
        format,
        cost,
        b"s SATISFIABLE",
        values,
        Status::Satisfiable,
    )
}

/// Reports an assignment and its cost, and between the two a line that says what they are.
fn report_with_cost<W: Write>(
    out: &mut Device<W>,
    format: Format,
    cost: Number,
    said: &[u8],
    values: &Assignment,
    status: Status,
) -> Result<Status, RunFault>
    ensures status { IfOk result (λ ended. ended ≡ status) }
    ensures written { OnOk result (Appends (W.contents out.old.held) (W.contents out.new.held) ((cost_line cost ++ line said.now) ++ value_line format values.now)) }
    ensures fault { IfErr result (λ fault. fault ≡ RunFault.Write) }
    ensures failed { out.new.failed ≡ is_err result }
{
    let mut report = Report::new(out);
    report.put_cost(cost);
    report.put_line(said);
    report.put_values(format, values);
    report.finish(status)
}

/// Reports that nothing is known of the instance: `s UNKNOWN`. A fault is `Write`, where the device has failed.
pub fn report_unknown<W: Write>(out: &mut Device<W>) -> Result<Status, RunFault>
    ensures status { IfOk result (λ status. status ≡ Status.Unknown) }
    ensures written { OnOk result (Appends (W.contents out.old.held) (W.contents out.new.held) unknown_report) }
    ensures fault { IfErr result (λ fault. fault ≡ RunFault.Write) }
    ensures failed { out.new.failed ≡ is_err result }
{
    let mut report = Report::new(out);
    report.put_line(b"s UNKNOWN");
    report.finish(Status::Unknown)
}
