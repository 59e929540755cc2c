//! Worked reports of parts: what is written and read again, and which fault others have.

use pb_inst::{Assignment, Number};
use pb_parts::{Division, PartFault, PartKind, PartReport, read_part, report_heading};
use pb_read::Format;
use pb_report::{
    Claim, Device, ReportKind, RunFault, report_attained, report_satisfiable, report_unknown,
};
use std::alloc::Global;
use std::io::{self, Error, ErrorKind, Write};
use std::process::Abort;

/// The digest of the text `test`, as FIPS 180-4 has it.
const DIGEST: [u8; 32] = [
    0x9f, 0x86, 0xd0, 0x81, 0x88, 0x4c, 0x7d, 0x65, 0x9a, 0x2f, 0xea, 0xa0, 0xc5, 0x5a, 0xd0, 0x15,
    0xa3, 0xbf, 0x4f, 0x1b, 0x2b, 0x0b, 0x82, 0x2c, 0xd1, 0x5d, 0x6c, 0x15, 0xb0, 0xf0, 0x0a, 0x08,
];

/// What is found of a part's pieces.
#[derive(Clone, Copy)]
enum Found {
    /// An assignment and its cost.
    Attained(Number),
    /// An assignment, where there is no objective.
    Satisfiable,
    Nothing,
}

/// A part, and the text of its report.
struct Case {
    format: Format,
    division: Division,
    task: u32,
    done: &'static [u32],
    cut: &'static [u32],
    found: Found,
    text: &'static str,
}

const CASES: &[Case] = &[
    Case {
        format: Format::Opb,
        division: Division {
            instance: DIGEST,
            pieces: 65,
            split: 6,
            cubes: None,
            tasks: 16,
        },
        task: 2,
        done: &[2, 18, 34],
        cut: &[50],
        found: Found::Attained(-12),
        text: WORKED,
    },
    Case {
        format: Format::Cnf,
        division: Division {
            instance: DIGEST,
            pieces: 4_294_967_295,
            split: 0,
            cubes: Some(DIGEST),
            tasks: 4_294_967_295,
        },
        task: 4_294_967_294,
        done: &[4_294_967_294],
        cut: &[],
        found: Found::Satisfiable,
        text: "c part 4294967294 of 4294967295 of instance 9f86d081884c7d659a2feaa0c55ad015a3bf4f1b2b0b822cd15d6c15b0f00a08\nc pieces 4294967295 split 0 cubes 9f86d081884c7d659a2feaa0c55ad015a3bf4f1b2b0b822cd15d6c15b0f00a08\nc done 4294967294\nc cut\ns SATISFIABLE\nv 1 -2 3 0\n",
    },
    Case {
        format: Format::Opb,
        division: Division {
            instance: [0; 32],
            pieces: 1,
            split: 0,
            cubes: None,
            tasks: 2,
        },
        task: 1,
        done: &[],
        cut: &[],
        found: Found::Nothing,
        text: "c part 1 of 2 of instance 0000000000000000000000000000000000000000000000000000000000000000\nc pieces 1 split 0 cubes none\nc done\nc cut\ns UNKNOWN\n",
    },
    // pieces that are dealt to other tasks, done and cut
    Case {
        format: Format::Opb,
        division: Division {
            instance: [0; 32],
            pieces: 5,
            split: 2,
            cubes: None,
            tasks: 3,
        },
        task: 1,
        done: &[0, 1, 4],
        cut: &[2],
        found: Found::Nothing,
        text: "c part 1 of 3 of instance 0000000000000000000000000000000000000000000000000000000000000000\nc pieces 5 split 2 cubes none\nc done 0 1 4\nc cut 2\ns UNKNOWN\n",
    },
];

const WORKED: &str =
    "c part 2 of 16 of instance 9f86d081884c7d659a2feaa0c55ad015a3bf4f1b2b0b822cd15d6c15b0f00a08\nc pieces 65 split 6 cubes none\nc done 2 18 34\nc cut 50\no -12\ns SATISFIABLE\nv x1 -x2 x3\n";

/// What replaces which words of the worked report, and the fault of the report with it.
const SPOILED: &[(&str, &str, PartKind, u64)] = &[
    (WORKED, "", PartKind::Heading, 1),
    (WORKED, "\n", PartKind::Heading, 1),
    (WORKED, "s UNKNOWN\n", PartKind::Heading, 1),
    ("c part", "c Part", PartKind::Heading, 1),
    ("part 2", "part 02", PartKind::Heading, 1),
    ("part 2", "part +2", PartKind::Heading, 1),
    ("part 2", "part  2", PartKind::Heading, 1),
    ("part 2", "part -2", PartKind::Heading, 1),
    ("part 2", "part 4294967298", PartKind::Heading, 1),
    ("of 16", "of 18446744073709551632", PartKind::Heading, 1),
    ("part 2", "part 16", PartKind::NoSuchTask, 1),
    ("of 16", "of 0", PartKind::NoSuchTask, 1),
    ("9f86", "9F86", PartKind::Heading, 1),
    ("9f86", "9g86", PartKind::Heading, 1),
    ("9f86", "9f8", PartKind::Heading, 1),
    ("9f86", "9f869f86", PartKind::Heading, 1),
    ("\nc pieces", "\r\nc pieces", PartKind::Heading, 1),
    ("\nc pieces", " \nc pieces", PartKind::Heading, 1),
    ("\nc pieces", "\n\nc pieces", PartKind::Heading, 2),
    ("c pieces 65 split 6 cubes none\n", "", PartKind::Heading, 2),
    ("cubes none", "cubes None", PartKind::Heading, 2),
    ("cubes none", "cubes", PartKind::Heading, 2),
    (
        "cubes none",
        "cubes 9F86D081884C7D659A2FEAA0C55AD015A3BF4F1B2B0B822CD15D6C15B0F00A08",
        PartKind::Heading,
        2,
    ),
    (
        "cubes none",
        "cubes zz86d081884c7d659a2feaa0c55ad015a3bf4f1b2b0b822cd15d6c15b0f00a08",
        PartKind::Heading,
        2,
    ),
    ("pieces 65", "pieces -65", PartKind::Heading, 2),
    ("split 6", "split 99999999999", PartKind::Heading, 2),
    ("c done 2 18 34\n", "", PartKind::Heading, 3),
    ("c done", "c  done", PartKind::Heading, 3),
    ("18 34", "18 34 ", PartKind::Heading, 3),
    ("18 34", "18 4294967314", PartKind::Heading, 3),
    ("18 34", "18 x", PartKind::Heading, 3),
    ("18 34", "18 66", PartKind::NoSuchPiece, 3),
    ("18 34", "34 18", PartKind::NotRising, 3),
    ("18 34", "18 18", PartKind::NotRising, 3),
    ("c cut 50\n", "", PartKind::Heading, 4),
    ("c cut 50\n", "c cut 50", PartKind::Heading, 4),
    ("c cut 50", "c cut 66", PartKind::NoSuchPiece, 4),
    ("c cut 50", "c cut 50 50", PartKind::NotRising, 4),
    ("c cut 50", "c cut 18 50", PartKind::DoneAndCut, 4),
    (
        "o -12\ns SATISFIABLE\nv x1 -x2 x3\n",
        "",
        PartKind::Report(ReportKind::NoStatus),
        5,
    ),
    ("o -12", "o twelve", PartKind::Report(ReportKind::Syntax), 5),
    (
        "v x1 -x2 x3\n",
        "",
        PartKind::Report(ReportKind::NoValues),
        6,
    ),
    (
        "-x2 x3",
        "-x2 x4",
        PartKind::Report(ReportKind::BadVariable),
        7,
    ),
];

/// Reads a report on three variables, and once more where memory was refused.
fn read_again(alloc: Global, format: Format, text: &[u8]) -> Result<PartReport, PartFault> {
    match read_part(alloc, format, 3, text) {
        Err(
            PartFault {
                kind: PartKind::Memory,
                line: 0,
            },
        ) => read_part(alloc, format, 3, text),
        answer => answer,
    }
}

/// The assignment of three variables of which only the second is false.
fn assignment(rt: &impl Abort, alloc: Global) -> Assignment {
    let mut values = Assignment::new(alloc, 3).expect(rt, "memory");
    for var in [1, 3] {
        if var <= values.len() {
            values.set(var, true);
        }
    }
    values
}

/// The report of a part.
fn written(rt: &impl Abort, alloc: Global, case: &Case) -> Vec<u8> {
    let values = assignment(rt, alloc);
    let mut out = Device::new(Vec::new(alloc));
    report_heading(&mut out, &case.division, case.task, case.done, case.cut).expect(rt, "memory");
    match case.found {
        Found::Attained(cost) => report_attained(&mut out, case.format, cost, &values),
        Found::Satisfiable => report_satisfiable(&mut out, case.format, &values),
        Found::Nothing => report_unknown(&mut out),
    }
    .expect(rt, "memory");
    out.into_inner()
}

/// Whether the claim is that of what was found.
fn is_found(claim: &Claim, found: Found) -> bool {
    match (claim, found) {
        (Claim::Satisfiable(witness), Found::Attained(cost)) => witness.cost == Some(cost),
        (Claim::Satisfiable(witness), Found::Satisfiable) => witness.cost.is_none(),
        (Claim::Unknown, Found::Nothing) => true,
        _ => false,
    }
}

/// Whether the report says what the case has.
fn is_of(report: &PartReport, case: &Case) -> bool {
    let heading = &report.heading;
    heading.division == case.division
        && heading.task == case.task
        && heading.done.as_slice() == case.done
        && heading.cut.as_slice() == case.cut
        && is_found(&report.claim, case.found)
}

/// Whether the text is read as the report of the case.
fn is_read_as(alloc: Global, text: &[u8], case: &Case) -> bool {
    match read_again(alloc, case.format, text) {
        Ok(report) => is_of(&report, case),
        Err(_) => false,
    }
}

#[test]
fn parts_are_written_and_read(rt: HostRuntime) {
    for case in CASES {
        let text = written(&rt, rt.alloc(), case);
        assert!(rt; text.as_slice() == case.text.as_bytes(), "{}", case.text);
        assert!(rt; is_read_as(rt.alloc(), &text, case), "{}", case.text);
    }
}

/// The fault of a report, and none where it is accepted.
fn fault_of(alloc: Global, text: &str) -> Option<PartFault> {
    read_again(alloc, Format::Opb, text.as_bytes()).err()
}

/// The fault of the worked report with other words in place of some.
fn fault_with(rt: &impl Abort, alloc: Global, old: &str, new: &str) -> Option<PartFault> {
    let text = WORKED.replacen(alloc, old, new, 1).expect(rt, "memory");
    fault_of(alloc, &text)
}

#[test]
fn spoiled_parts_are_refused(rt: HostRuntime) {
    assert!(rt; fault_of(rt.alloc(), WORKED).is_none());
    for (old, new, kind, line) in SPOILED {
        let expected = PartFault {
            kind: *kind,
            line: *line,
        };
        assert!(rt;
            fault_with(&rt, rt.alloc(), *old, *new) == Some(expected),
            "{old} {new}"
        );
    }
}

/// Kinds of faults, and what is printed of one at line 3.
const PRINTED: &[(PartKind, &str)] = &[
    (PartKind::Heading, "Heading at line 3"),
    (PartKind::NoSuchTask, "NoSuchTask at line 3"),
    (PartKind::NoSuchPiece, "NoSuchPiece at line 3"),
    (PartKind::NotRising, "NotRising at line 3"),
    (PartKind::DoneAndCut, "DoneAndCut at line 3"),
    (PartKind::Memory, "Memory at line 3"),
    (PartKind::Report(ReportKind::NoValues), "NoValues at line 3"),
];

/// What is printed of a fault at line 3.
fn printed(rt: &impl Abort, alloc: Global, kind: PartKind) -> String {
    let fault = PartFault { kind, line: 3 };
    format!(in alloc; "{fault}").expect(rt, "memory")
}

#[test]
fn faults_are_printed(rt: HostRuntime) {
    for (kind, expected) in PRINTED {
        assert!(rt;
            printed(&rt, rt.alloc(), *kind).as_str() == *expected,
            "{expected}"
        );
    }
}

/// The numbers from the first one to before the other.
fn numbers(rt: &impl Abort, alloc: Global, first: u32, end: u32) -> Vec<u32> {
    let mut numbers = Vec::new(alloc);
    for number in first..end {
        numbers.push(number).expect(rt, "memory");
    }
    numbers
}

/// The report of a part in which nothing was found.
fn written_without(
    rt: &impl Abort,
    alloc: Global,
    division: &Division,
    done: &[u32],
    cut: &[u32],
) -> Vec<u8> {
    let mut out = Device::new(Vec::new(alloc));
    report_heading(&mut out, division, 0, done, cut).expect(rt, "memory");
    report_unknown(&mut out).expect(rt, "memory");
    out.into_inner()
}

#[test]
fn long_lines_are_read_back(rt: HostRuntime) {
    let division = Division {
        instance: DIGEST,
        pieces: 40_000,
        split: 0,
        cubes: Some(DIGEST),
        tasks: 1,
    };
    let done = numbers(&rt, rt.alloc(), 0, 20_000);
    let cut = numbers(&rt, rt.alloc(), 20_000, 40_000);
    let text = written_without(&rt, rt.alloc(), &division, &done, &cut);
    let report = read_again(rt.alloc(), Format::Opb, &text)
        .ok()
        .expect(&rt, "a report");
    assert!(rt; report.heading.division == division && report.heading.task == 0);
    assert!(rt; report.heading.done == done && report.heading.cut == cut);
}

/// A writer that takes no byte.
#[derive(Drop)]
struct Failing;

impl Write for Failing {
    fn write(&mut self, _: &[u8]) -> io::Result<usize> {
        Err(Error::from(ErrorKind::Other))
    }

    fn flush(&mut self) -> io::Result<()> {
        Ok(())
    }
}

#[test]
fn devices_that_fail_are_told(rt: HostRuntime) {
    for case in CASES {
        let mut out = Device::new(Failing);
        let answer = report_heading(&mut out, &case.division, case.task, case.done, case.cut);
        assert!(rt; answer == Err(RunFault::Write) && out.failed());
    }
}
