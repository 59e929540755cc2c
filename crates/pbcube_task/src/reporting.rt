//! The report of a task.
ghost use Rattle.std.specs.Prelude.{◌≡◌, [], IfErr, IfNone, IfOk};
ghost use Rattle.pb_workers.specs.Dealing.{IsAnswerOfTask};
ghost use Rattle.pbcube_task.specs.Reporting.{ReportsPart, task_of};

use pb_files::Prepared;
use pb_line::tasks::Line;
use pb_parts::{Division, report_heading};
use pb_solve::{Device, RunFault, Status, report_found};
use pb_workers::TaskAnswer;
use std::io::Write;

/// Reports the answer of the line's task on what was read: which pieces are done and which were cut, and the best that was found.
/// A fault is `Write`, where the device has failed.
pub fn report_part<W: Write>(
    out: &mut Device<W>,
    line: &Line<'_>,
    prepared: &Prepared,
    answer: &TaskAnswer<'_>,
) -> Result<Status, RunFault>
    requires same_variables { prepared.now.pieces.vars ≡ prepared.now.instance.vars }
    requires same_instance { answer.now.best.problem ≡ prepared.now.instance }
    requires answer { IsAnswerOfTask prepared.now.instance prepared.now.pieces (task_of line.now) answer.now.done.items answer.now.cut.items answer.now.best.held }
    requires no_budget { IfNone line.now.nodes (answer.now.cut.items ≡ []) }
    ensures reports { IfOk result (ReportsPart line.now prepared.now.instance prepared.now.pieces.cubes prepared.now.digest prepared.now.cubes_digest (W.contents out.old.held) (W.contents out.new.held)) }
{
    let division = Division {
        instance: prepared.digest,
        pieces: prepared.pieces.len(),
        split: line.split,
        cubes: prepared.cubes_digest,
        tasks: line.tasks,
    };
    report_heading(out, &division, line.task, &answer.done, &answer.cut)?;
    report_found(out, line.format, &prepared.instance, &answer.best)
}
