//! Inputs, cube files and outputs that fail at any call, that move few bytes a call, that go on after their end, or that take no
//! more.

use super::cases::{CASES, CLAUSE_AND_CUBE, COVER, Case, NO_HEADER, NOTHING, PRODUCT};
use super::devices::{KINDS, Limits, Source};
use super::runs::{CUBE_FILE, Trial, source, trial_of};
use pb_solve::RunFault;
use std::alloc::Global;
use std::io::ErrorKind;
use std::process::Abort;
use std::thread::Threads;

/// A device, how many bytes it moves a call, and the workers and the split of the runs in which it fails after each number of
/// calls.
struct Failing(RunFault, usize, u32, u32);

const FAILING: [Failing; 9] = [
    Failing(RunFault::ReadInput, 1, 2, 0),
    Failing(RunFault::ReadInput, 2, 2, 0),
    Failing(RunFault::ReadInput, 7, 2, 0),
    Failing(RunFault::ReadInput, 9, 1, 0),
    Failing(RunFault::ReadInput, 32, 2, 0),
    Failing(RunFault::ReadCubes, 1, 2, 1),
    Failing(RunFault::ReadCubes, 4, 1, 0),
    Failing(RunFault::Write, 1, 2, 0),
    Failing(RunFault::Write, 3, 1, 0),
];

/// The cases that a cube file divides.
const DIVIDED: [Case; 2] = [COVER, CLAUSE_AND_CUBE];

impl Failing {
    fn cases(&self) -> &'static [Case] {
        match self.0 {
            RunFault::ReadCubes => &DIVIDED,
            RunFault::ReadInput | RunFault::Write => &CASES,
        }
    }

    /// How many calls of the device a run of the case makes. The last one finds the end of the text, or is the flush.
    fn calls(&self, case: &Case) -> usize {
        let bytes = match self.0 {
            RunFault::ReadInput => case.text,
            RunFault::ReadCubes => CUBE_FILE,
            RunFault::Write => case.report,
        };
        bytes.len().div_ceil(self.1.max(1)).saturating_add(1)
    }

    /// Whether each run of the case ends as it must.
    fn comes_out<R: Abort + Threads + Sync>(&self, rt: &R, alloc: Global, case: &Case) -> bool {
        let Failing(device, step, workers, split) = *self;
        let calls = self.calls(case);
        for calls_left in 0..calls.saturating_add(2) {
            let limits = Limits {
                step,
                calls_left,
                kind: ErrorKind::Other,
            };
            let mut trial = trial_of(*case).limited(device, limits);
            trial.workers = workers;
            trial.split = split;
            trial.fault = (calls_left < calls).then_some(device);
            if !trial.comes_out(rt, alloc) {
                return false;
            }
        }
        true
    }
}

#[test]
fn devices_that_fail_at_any_call(rt: HostRuntime) {
    for (row, failing) in FAILING.iter().enumerate() {
        for case in failing.cases() {
            assert!(rt; failing.comes_out(&rt, rt.alloc(), case), "row {row}");
        }
    }
}

/// The last number of reads after which a fault of the input ends the run on this text, where each read gives as much as is
/// asked for. None where a run does not end as it must.
fn last_failing_read<R: Abort + Threads + Sync>(
    rt: &R,
    alloc: Global,
    text: &[u8],
) -> Option<usize> {
    let mut last = 0;
    for calls_left in 0..20 {
        let mut trial = Trial {
            input: source(text),
            ..trial_of(NOTHING)
        };
        trial.input.limits.calls_left = calls_left;
        if trial.comes_out(rt, alloc) {
            continue;
        }
        trial.fault = Some(RunFault::ReadInput);
        if !trial.comes_out(rt, alloc) {
            return None;
        }
        last = calls_left;
    }
    Some(last)
}

#[test]
fn a_long_input_that_fails_at_any_read(rt: HostRuntime) {
    let text = NOTHING.text.repeat(rt.alloc(), 20_000);
    let text = text.expect(&rt, "a long text");
    let last = last_failing_read(&rt, rt.alloc(), &text).expect(&rt, "runs that come out");
    assert!(rt; 0 < last && last < 19, "the last read that fails is {last}");
}

/// Devices that fail at their first call, and the fault of the run. A fault of the input comes before one of the cube file.
const BROKEN: [(&[RunFault], RunFault); 4] = [
    (&[RunFault::ReadInput], RunFault::ReadInput),
    (
        &[RunFault::ReadInput, RunFault::ReadCubes],
        RunFault::ReadInput,
    ),
    (&[RunFault::ReadCubes], RunFault::ReadCubes),
    (&[RunFault::Write], RunFault::Write),
];

/// A run of the case in which these devices fail at their first call.
fn broken(case: Case, devices: &[RunFault], kind: ErrorKind) -> Trial<'static> {
    let mut trial = trial_of(case);
    for device in devices {
        let limits = Limits {
            step: 1,
            calls_left: 0,
            kind,
        };
        trial = trial.limited(*device, limits);
    }
    trial
}

#[test]
fn faults_of_any_kind(rt: HostRuntime) {
    for kind in KINDS {
        for (devices, fault) in BROKEN {
            let mut trial = broken(COVER, devices, kind);
            trial.fault = Some(fault);
            assert!(rt; trial.comes_out(&rt, rt.alloc()), "{kind:?}");
        }
    }
}

/// Nothing fails, though reading the cube file would, and the split would be refused: neither is looked at.
#[test]
fn a_refused_input_leaves_the_cube_file(rt: HostRuntime) {
    for case in [PRODUCT, NO_HEADER] {
        let mut trial = broken(case, &[RunFault::ReadCubes], ErrorKind::Other);
        trial.split = 13;
        assert!(rt; trial.comes_out(&rt, rt.alloc()), "{:?}", case.text);
    }
}

#[test]
fn a_text_ends_at_its_first_end(rt: HostRuntime) {
    for case in CASES {
        let input = Source {
            more: b"1 x1 x2",
            ..source(case.text)
        };
        let trial = Trial {
            input,
            ..trial_of(case)
        };
        assert!(rt; trial.comes_out(&rt, rt.alloc()), "{:?}", case.text);
    }
}

/// A run flushes its report, so that none of it is left in an output that keeps back what is not flushed.
#[test]
fn outputs_that_keep_back_what_is_not_flushed(rt: HostRuntime) {
    for case in CASES {
        assert!(rt;
            trial_of(case).comes_out(&rt, rt.alloc()),
            "{:?}",
            case.text
        );
    }
}

#[test]
fn outputs_that_take_no_more_bytes(rt: HostRuntime) {
    for case in CASES {
        for room in 0..=case.report.len() {
            let mut trial = trial_of(case);
            trial.room = room;
            trial.fault = (room < case.report.len()).then_some(RunFault::Write);
            assert!(rt; trial.comes_out(&rt, rt.alloc()), "{:?}", case.text);
        }
    }
}
