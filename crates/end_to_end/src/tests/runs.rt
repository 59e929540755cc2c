//! One run over devices in memory, and how it is to end.

use super::cases::Case;
use super::devices::{Limits, Sink, Source, UNLIMITED};
use pb_inst::Workers;
use pb_solve::{Device, Options, Ran, RunFault, run};
use std::alloc::Global;
use std::process::Abort;
use std::thread::Threads;

/// A run by `workers` workers over these devices, and the device that is to fail in it. Where that is none, the report of the
/// case is to be written.
#[derive(Clone, Copy)]
pub struct Trial<'t> {
    pub case: Case,
    pub workers: u32,
    pub split: u32,
    pub input: Source<'t>,
    pub cubes: Source<'t>,
    pub has_cubes: bool,
    pub out: Limits,
    pub room: usize,
    pub fault: Option<RunFault>,
}

/// A run of the case by two workers over devices that do not fail, without a cube file.
pub fn trial_of(case: Case) -> Trial<'static> {
    Trial {
        case,
        workers: 2,
        split: 0,
        input: source(case.text),
        cubes: source(CUBE_FILE),
        has_cubes: false,
        out: UNLIMITED,
        room: usize::MAX,
        fault: None,
    }
}

pub const CUBE_FILE: &[u8] = b"c a note\na 1 0\na -1 2 0\n";

/// A reader of the text that does not fail.
pub fn source(text: &[u8]) -> Source<'_> {
    Source {
        text,
        more: b"",
        limits: UNLIMITED,
    }
}

impl<'t> Trial<'t> {
    /// The trial with these limits on the device that the fault names.
    pub fn limited(self, device: RunFault, limits: Limits) -> Trial<'t> {
        match device {
            RunFault::ReadInput => Trial {
                input: Source {
                    limits,
                    ..self.input
                },
                ..self
            },
            RunFault::ReadCubes => Trial {
                cubes: Source {
                    limits,
                    ..self.cubes
                },
                has_cubes: true,
                ..self
            },
            RunFault::Write => Trial {
                out: limits,
                ..self
            },
        }
    }

    /// Whether the run ends as it must.
    pub fn comes_out<R: Abort + Threads + Sync>(&self, rt: &R, alloc: Global) -> bool {
        let options = Options {
            format: self.case.format,
            workers: Workers::new(self.workers).expect(rt, "a number of workers"),
            split: self.split,
            nodes: None,
        };
        let mut input = Device::new(self.input);
        let mut cubes = Device::new(self.cubes);
        let mut out = Device::new(Sink {
            limits: self.out,
            room: self.room,
            kept: Vec::new(alloc),
            flushed: Vec::new(alloc),
        });
        let answer = if self.has_cubes {
            run(rt, alloc, &mut input, Some(&mut cubes), options, &mut out)
        } else {
            let none = None::<&mut Device<Source<'_>>>;
            run(rt, alloc, &mut input, none, options, &mut out)
        };
        let failed = [input.failed(), cubes.failed(), out.failed()];
        self.is_end(answer, failed, &out.into_inner())
    }

    /// Whether the run is to end with this answer, with the devices that failed, and with what was written. Where a reader fails
    /// nothing is.
    fn is_end(&self, answer: Result<Ran, RunFault>, failed: [bool; 3], written: &Sink) -> bool {
        if failed != devices_of(self.fault) {
            return false;
        }
        match answer {
            Ok(ran) => {
                self.fault.is_none()
                    && !ran.cut
                    && ran.status == self.case.status
                    && written.has_flushed(self.case.report)
            }
            Err(told) => devices_of(Some(told)) == failed
                && (failed[2] || written.has_flushed(b"")),
        }
    }
}

/// Which of the input, the cube file and the output the fault names.
fn devices_of(fault: Option<RunFault>) -> [bool; 3] {
    [
        matches!(fault, Some(RunFault::ReadInput)),
        matches!(fault, Some(RunFault::ReadCubes)),
        matches!(fault, Some(RunFault::Write)),
    ]
}
