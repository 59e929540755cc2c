//! Writing the report of what was joined.
ghost use Rattle.std.specs.Prelude.{◌≡◌, is_err, IfOk, IfErr, OnOk};
ghost use Rattle.std.specs.Io.KnownBytes.{Appends};
ghost use Rattle.pb_join.specs.Joining.{joined_report, joined_status};

use pb_inst::{Best, Instance};
use pb_read::Format;
use pb_report::{
    Device, RunFault, Status, report_attained, report_infeasible, report_optimum,
    report_satisfiable, report_unknown,
};
use std::io::Write;

/// Reports what is held, as the answer where every piece is done, else as what was found.
pub(crate) fn report_joined<W: Write>(
    out: &mut Device<W>,
    format: Format,
    instance: &Instance,
    whole: bool,
    best: &Best<'_>,
) -> Result<Status, RunFault>
    requires { best.now.problem ≡ instance.now }
    ensures status { IfOk result (λ status. status ≡ joined_status instance.now whole best.now.held) }
    ensures written { OnOk result (Appends (W.contents out.old.held) (W.contents out.new.held) (joined_report format instance.now whole best.now.held)) }
    ensures fault { IfErr result (λ fault. fault ≡ RunFault.Write) }
    ensures failed { out.new.failed ≡ is_err result }
{
    let (Some(cost), Some(values)) = (best.cost(), best.assignment()) else {
        return if whole {
            report_infeasible(out)
        } else {
            report_unknown(out)
        };
    };
    if !instance.has_objective() {
        report_satisfiable(out, format, values)
    } else if whole {
        report_optimum(out, format, cost, values)
    } else {
        report_attained(out, format, cost, values)
    }
}
