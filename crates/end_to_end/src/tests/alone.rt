//! Runs on the caller's own thread, which keep the budget too.

use pb_solve::{Device, Format, Status, run_without_threads};
use std::alloc::Global;

/// A text, a budget or none, and what a run alone answers with it.
struct Row {
    format: Format,
    text: &'static [u8],
    nodes: Option<u64>,
    status: Status,
    cut: bool,
}

/// A constraint that asks for a decision.
const CONSTRAINT: &[u8] = b"min: 1 x1 1 x2 ;\n1 x1 1 x2 >= 1 ;\n";

/// Two clauses that share a variable, and a cube that is one assignment.
const CLAUSES: &[u8] = b"p inccnf\n1 2 0\n2 3 0\na 1 2 3 0\n";

const ROWS: [Row; 4] = [
    // Without a decision nothing is found, and the run says so.
    Row {
        format: Format::Opb,
        text: CONSTRAINT,
        nodes: Some(0),
        status: Status::Unknown,
        cut: true,
    },
    Row {
        format: Format::Opb,
        text: CONSTRAINT,
        nodes: None,
        status: Status::Optimum,
        cut: false,
    },
    // What is found in the piece of the cube is reported, and also that the remainder was cut.
    Row {
        format: Format::Icnf,
        text: CLAUSES,
        nodes: Some(0),
        status: Status::Satisfiable,
        cut: true,
    },
    Row {
        format: Format::Icnf,
        text: CLAUSES,
        nodes: Some(1000),
        status: Status::Satisfiable,
        cut: false,
    },
];

fn comes_out(alloc: Global, row: &Row) -> bool {
    let mut input = Device::new(row.text);
    let mut out = Device::new(Vec::new(alloc));
    match run_without_threads(alloc, &mut input, row.format, row.nodes, &mut out) {
        Ok(ran) => ran.status == row.status && ran.cut == row.cut,
        Err(_) => false,
    }
}

#[test]
fn a_run_alone_goes_as_far_as_its_budget(rt: HostRuntime) {
    for row in &ROWS {
        assert!(rt; comes_out(rt.alloc(), row), "{:?}", row.nodes);
    }
}
