//! Worked reports: what is read of them, and which fault others have.

use pb_inst::{Assignment, Number};
use pb_read::Format;
use pb_report::{Claim, ReportFault, ReportKind, Witness, read_report};
use std::alloc::Global;

/// A report of three variables: whether it claims to be least or only feasible, its cost, and which variables are true.
struct Told {
    format: Format,
    text: &'static [u8],
    is_optimum: bool,
    cost: Option<Number>,
    values: [bool; 3],
}

const TOLD: &[Told] = &[
    Told {
        format: Format::Opb,
        text: b"o 3\ns OPTIMUM FOUND\nv -x1 x2 -x3\n",
        is_optimum: true,
        cost: Some(3),
        values: [false, true, false],
    },
    Told {
        format: Format::Opb,
        text: b"c a solver\r\no 12\r\no -3\r\n\r\ns SATISFIABLE\r\nv x3\r\nv ~x1\r\nc more\r\nv x2",
        is_optimum: false,
        cost: Some(-3),
        values: [false, true, true],
    },
    Told {
        format: Format::Opb,
        text: b"v x1 x2 x3\ns OPTIMUM FOUND\n",
        is_optimum: true,
        cost: None,
        values: [true, true, true],
    },
    Told {
        format: Format::Cnf,
        text: b"s SATISFIABLE\nv -1 2\nv 3 0\n",
        is_optimum: false,
        cost: None,
        values: [false, true, true],
    },
    Told {
        format: Format::Icnf,
        text: b"cc\ns SATISFIABLE\nv 1 -2 -3 0\n",
        is_optimum: false,
        cost: None,
        values: [true, false, false],
    },
];

const REFUSED: &[(Format, &[u8], ReportKind, u64)] = &[
    (Format::Opb, b"", ReportKind::NoStatus, 1),
    (Format::Opb, b"o 3\nv -x1 x2 -x3\n", ReportKind::NoStatus, 2),
    (
        Format::Opb,
        b"o 3\ns OPTIMUM FOUND\nv -x1 x2\n",
        ReportKind::Unfinished,
        3,
    ),
    (
        Format::Opb,
        b"o 3\ns OPTIMUM FOUND\nv -x1 x2 -x3 -x4\n",
        ReportKind::BadVariable,
        3,
    ),
    (
        Format::Opb,
        b"o 3\ns OPTIMUM FOUND\nv -x1 x2\nv -x1\n",
        ReportKind::RepeatedVariable,
        4,
    ),
    (
        Format::Opb,
        b"o 3\ns OPTIMUM FOUND\nv -x1 x2 -x\n",
        ReportKind::Syntax,
        3,
    ),
    (
        Format::Opb,
        b"o 3\ns OPTIMUM FOUND\nv -x1 x2 -x0\n",
        ReportKind::BadVariable,
        3,
    ),
    (
        Format::Opb,
        b"o 3\ns OPTIMUM FOUND\nv -x1 x2 x+3\n",
        ReportKind::Syntax,
        3,
    ),
    (
        Format::Opb,
        b"o three\ns OPTIMUM FOUND\nv -x1 x2 -x3\n",
        ReportKind::Syntax,
        1,
    ),
    (
        Format::Opb,
        b"o 3 4\ns OPTIMUM FOUND\nv -x1 x2 -x3\n",
        ReportKind::Syntax,
        1,
    ),
    (
        Format::Opb,
        b"s OPTIMUM\nv -x1 x2 -x3\n",
        ReportKind::Syntax,
        1,
    ),
    (
        Format::Opb,
        b"s UNKNOWN\nc\ns UNKNOWN\n",
        ReportKind::SecondStatus,
        3,
    ),
    (
        Format::Opb,
        b"s OPTIMUM FOUND\no 3\n",
        ReportKind::NoValues,
        1,
    ),
    (
        Format::Opb,
        b"c\ns UNSATISFIABLE\nv\n",
        ReportKind::Unclaimed,
        2,
    ),
    (
        Format::Opb,
        b"t 5\ns UNSATISFIABLE\n",
        ReportKind::Syntax,
        1,
    ),
    (
        Format::Cnf,
        b"s SATISFIABLE\nv 1 2 3\n",
        ReportKind::Unfinished,
        2,
    ),
    (
        Format::Cnf,
        b"s SATISFIABLE\nv 1 2 0 3\n",
        ReportKind::Syntax,
        2,
    ),
    (
        Format::Cnf,
        b"s SATISFIABLE\nv 1 x2 3 0\n",
        ReportKind::Syntax,
        2,
    ),
];

/// Reads a report of three variables, and once more where memory was refused.
fn read_again(alloc: Global, format: Format, text: &[u8]) -> Result<Claim, ReportFault> {
    match read_report(alloc, format, 3, text) {
        Err(
            ReportFault {
                kind: ReportKind::Memory,
                ..
            },
        ) => read_report(alloc, format, 3, text),
        answer => answer,
    }
}

fn has_values(values: &Assignment, expected: &[bool; 3]) -> bool {
    values.len() == 3
        && values.get(1) == expected[0]
        && values.get(2) == expected[1]
        && values.get(3) == expected[2]
}

fn is_as_told(claim: &Claim, told: &Told) -> bool {
    let Some(Witness { cost, values }) = claim.witness() else {
        return false;
    };
    *cost == told.cost
        && has_values(values, &told.values)
        && matches!(claim, Claim::Optimum(_)) == told.is_optimum
        && claim.is_final(true) == told.is_optimum
        && claim.is_final(false)
}

/// Whether the report is read, and says what is told.
fn is_read_as_told(alloc: Global, told: &Told) -> bool {
    match read_again(alloc, told.format, told.text) {
        Ok(claim) => is_as_told(&claim, told),
        Err(_) => false,
    }
}

#[test]
fn claims(rt: HostRuntime) {
    for (place, told) in TOLD.iter().enumerate() {
        assert!(rt; is_read_as_told(rt.alloc(), told), "{place}");
    }
}

/// Reports without an assignment, and whether they are final.
const WITHOUT: &[(&[u8], bool)] = &[
    (b"s UNSATISFIABLE\n", true),
    (b"o 5\ns UNKNOWN\n", false),
    (b"c refused: Memory\ns UNSUPPORTED\n", false),
];

fn is_without_assignment(claim: &Claim, is_final: bool) -> bool {
    claim.witness().is_none()
        && claim.is_final(true) == is_final
        && claim.is_final(false) == is_final
}

/// Whether the report is read, and has no assignment.
fn is_read_without_assignment(alloc: Global, text: &[u8], is_final: bool) -> bool {
    match read_again(alloc, Format::Opb, text) {
        Ok(claim) => is_without_assignment(&claim, is_final),
        Err(_) => false,
    }
}

#[test]
fn without_an_assignment(rt: HostRuntime) {
    for (place, (text, is_final)) in WITHOUT.iter().enumerate() {
        assert!(rt;
            is_read_without_assignment(rt.alloc(), *text, *is_final),
            "{place}"
        );
    }
}

/// The fault of a report, and none where it is accepted.
fn fault_of(alloc: Global, format: Format, text: &[u8]) -> Option<ReportFault> {
    read_again(alloc, format, text).err()
}

#[test]
fn refusals(rt: HostRuntime) {
    for (format, text, kind, line) in REFUSED {
        let expected = ReportFault {
            kind: *kind,
            line: *line,
        };
        assert!(rt;
            fault_of(rt.alloc(), *format, *text) == Some(expected),
            "{text:?}"
        );
    }
}
