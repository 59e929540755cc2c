//! Reports of more variables than the instance has. No program joins such reports, since each reads them as reports of the
//! instance's variables.
ghost use Rattle.pb_parts.specs.Parts.{IsFit};

use pb_inst::Instance;
use pb_join::{JoinFault, PartRejection, PartsFault, PieceReport, Rejection, join, join_parts};
use pb_parts::{PartReport, read_part};
use pb_read::{Format, read};
use pb_report::{Claim, Device, read_report};
use std::alloc::Global;
use std::io;
use std::process::Abort;

/// Of two variables, where the reports are of three.
const PAIR: &[u8] = b"1 x1 1 x2 >= 1 ;\n";

const OF_A_PIECE: &[u8] = b"o 3\ns OPTIMUM FOUND\nv -x1 x2 -x3\n";

const OF_A_TASK: &[u8] =
    b"c part 0 of 2 of instance 0000000000000000000000000000000000000000000000000000000000000000
c pieces 3 split 1 cubes none
c done 0 2
c cut
o 3
s SATISFIABLE
v x1 -x2 x3
";

fn pair(rt: &impl Abort, alloc: Global) -> Instance {
    let (instance, _) = read(alloc, Format::Opb, PAIR).expect(rt, "an instance");
    instance
}

/// The claim of a text, which is a parameter because proofs of a known text take five times as long.
fn claim_of(rt: &impl Abort, alloc: Global, text: &[u8]) -> Claim {
    read_report(alloc, Format::Opb, 3, text).expect(rt, "a report")
}

fn part(rt: &impl Abort, alloc: Global) -> PartReport
    ensures { IsFit result.heading }
{
    read_part(alloc, Format::Opb, 3, OF_A_TASK).expect(rt, "a report")
}

/// Why the report of a piece is not joined.
fn fault_of_a_piece(rt: &impl Abort, alloc: Global) -> Option<JoinFault> {
    let claim = claim_of(rt, alloc, OF_A_PIECE);
    let mut reports = Vec::new(alloc);
    reports
        .push(PieceReport { number: 0, claim })
        .expect(rt, "memory");
    let instance = pair(rt, alloc);
    let mut out = Device::new(io::sink());
    join(alloc, Format::Opb, &instance, 3, &reports, &mut out).err()
}

/// Why the report of a task is not joined.
fn fault_of_a_task(rt: &impl Abort, alloc: Global) -> Option<PartsFault> {
    let mut reports = Vec::new(alloc);
    reports.push(part(rt, alloc)).expect(rt, "memory");
    let instance = pair(rt, alloc);
    let mut out = Device::new(io::sink());
    join_parts(
        alloc,
        Format::Opb,
        &instance,
        &[0; 32],
        2,
        &reports,
        &mut out,
    )
    .err()
}

#[test]
fn reports_of_more_variables_are_rejected(rt: HostRuntime) {
    let why = Rejection::OtherVariables;
    let of_a_piece = JoinFault::Report { place: 0, why };
    assert!(rt; fault_of_a_piece(&rt, rt.alloc()) == Some(of_a_piece));
    let why = PartRejection::Unfit(why);
    let of_a_task = PartsFault::Report { place: 0, why };
    assert!(rt; fault_of_a_task(&rt, rt.alloc()) == Some(of_a_task));
}
